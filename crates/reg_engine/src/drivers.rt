//! The steps of a command that prints something of a register, writes a file of it, or changes it, in a file or on a shelf.

ghost use Rattle.std.specs.Prelude.{OnOk, IfErr};
ghost use Rattle.byte_io.specs.Whole.{WritesAll};
ghost use Rattle.reg_op.specs.Contents.{Content};
ghost use Rattle.reg_engine.specs.Store.{AreCut, IsPrinted, IsUnprinted, IsGiven, IsUngiven, IsTold, IsUntold, IsChanged, IsUnchanged, MakesIn, StopsIn};

use crate::fault::{CliFault, OutFault};
use crate::outputs::publish_bytes;
use crate::store::{Base, Keep, Store};
use byte_io::{Sink, write_all};
use byte_out::Place;
use reg_state::Register;
use std::alloc::Global;

/// A command that prints a text of a register.
pub trait Print {
    ghost use Rattle.std.specs.Prelude.{ℕ, List, IfOk, IfErr};
    ghost use Rattle.reg_op.specs.Contents.{Content};
    ghost use Rattle.reg_engine.specs.declared.fault.CliFault.{CliFault};

    /// The text for the register.
    ghost prints: { Self → Content → List ℕ → Type 0 };

    /// The reason why there is none.
    ghost refuses: { Self → Content → CliFault → Type 0 };

    fn text(&self, alloc: Global, register: &Register) -> Result<Vec<u8>, CliFault>
        ensures prints { IfOk result (λ text. prints self.now register.now text.items) }
        ensures refuses { IfErr result (refuses self.now register.now) };
}

/// Loads the register, and writes the command's text of it to the sink.
pub fn run_print<T: Store, C: Print, K: Sink>(
    alloc: Global,
    store: &mut T,
    command: &C,
    sink: &mut K,
) -> Result<(), CliFault>
    ensures same { T.same store.old store.new }
    ensures printed { OnOk result (IsPrinted (T.around store.old store.new) (C.prints command.now) (K.state sink.old) (K.state sink.new)) }
    ensures fault { IfErr result (IsUnprinted (T.around store.old store.new) (C.prints command.now) (C.refuses command.now) (K.state sink.old) (K.state sink.new)) }
{
    let register = match store.load(alloc) {
        Ok(register) => register,
        Err(fault) => return Err(fault),
    };
    let text = match command.text(alloc, &register) {
        Ok(text) => text,
        Err(fault) => return Err(fault),
    };
    // The text takes enough memory by itself.
    drop(register);
    match write_all(sink, &text) {
        Ok(()) => Ok(()),
        Err(fault) => Err(CliFault::Out(OutFault::WriteFailed(fault.written))),
    }
}

/// A command that writes a file, made of a register and of other files that it reads.
pub trait Give {
    ghost use Rattle.std.specs.Prelude.{ℕ, List, IfOk, IfErr};
    ghost use Rattle.reg_op.specs.Contents.{Content};
    ghost use Rattle.reg_engine.specs.declared.fault.CliFault.{CliFault};

    /// The bytes of the file. The other files are numbered from this number on.
    ghost gives: { Self → Self → ℕ → Content → List ℕ → Type 0 };

    /// The reason why there is no file.
    ghost refuses: { Self → Self → ℕ → Content → CliFault → Type 0 };

    /// The other files were not read.
    ghost unread: { Self → Self → Type 0 };

    /// The command has the same devices.
    ghost same: { Self → Self → Type 0 };

    fn file(&mut self, alloc: Global, next: usize, register: &Register) -> Result<Vec<u8>, CliFault>
        ensures same { same self.old self.new }
        ensures gives { IfOk result (λ bytes. gives self.old self.new next register.now bytes.items) }
        ensures refuses { IfErr result (refuses self.old self.new next register.now) };

    /// Both are so if nothing was done.
    ghost itself: { (a : Self) → same a a };

    ghost rests: { (a : Self) → unread a a };
}

/// Loads the register, and puts the command's file in the place.
pub fn run_give<T: Base, C: Give, P: Place>(
    alloc: Global,
    store: &mut T,
    command: &mut C,
    place: &mut P,
) -> Result<(), CliFault>
    ensures same { T.same store.old store.new × C.same command.old command.new }
    ensures given { OnOk result (IsGiven (T.around store.old store.new) (C.gives command.old command.new (T.next store.old)) (T.kept store.new)
        (P.state place.old) (P.state place.new)) }
    ensures fault { IfErr result (IsUngiven (T.around store.old store.new) (C.gives command.old command.new (T.next store.old))
        (C.refuses command.old command.new (T.next store.old)) (C.unread command.old command.new) (T.kept store.new) (P.state place.old) (P.state place.new)) }
{
    let next = store.next();
    let register = match store.load(alloc) {
        Ok(register) => register,
        Err(fault) => return Err(fault),
    };
    let bytes = match command.file(alloc, next, &register) {
        Ok(bytes) => bytes,
        Err(fault) => return Err(fault),
    };
    let read = match store.kept() {
        Ok(read) => read,
        Err(fault) => return Err(fault),
    };
    match publish_bytes(&bytes, read, place) {
        Ok(()) => Ok(()),
        Err(fault) => Err(fault),
    }
}

/// The register that a command makes, and the lines that it prints after that register is kept.
#[derive(Drop)]
pub struct Made {
    pub register: Register,
    pub lines: Vec<u8>,
}

/// A command that makes a new register, from a register and from other files that it reads.
pub trait Change {
    /// What it reads before it makes anything, and finds in the loaded register.
    type Read: Drop;

    ghost use Rattle.std.specs.Prelude.{ℕ, List, IfOk, IfErr};
    ghost use Rattle.reg_op.specs.Contents.{Content};
    ghost use Rattle.reg_engine.specs.declared.fault.CliFault.{CliFault};

    /// It has read this. The other files are numbered from this number on.
    ghost reads: { Self → Self → ℕ → Content → Self.Read → Type 0 };

    /// The reason why it has not.
    ghost unmet: { Self → Self → ℕ → Content → CliFault → Type 0 };

    /// The first register was loaded, and from the second one it makes the third and these lines.
    ghost makes: { Self → Self → ℕ → Content → Content → Content → List ℕ → Type 0 };

    /// The reason why it makes nothing.
    ghost refuses: { Self → Self → ℕ → Content → Content → CliFault → Type 0 };

    /// The other files were not read.
    ghost unread: { Self → Self → Type 0 };

    /// The command has the same devices.
    ghost same: { Self → Self → Type 0 };

    /// Reads its files, and looks up its words in the loaded register.
    fn read(
        &mut self,
        alloc: Global,
        next: usize,
        register: &Register,
    ) -> Result<Self::Read, CliFault>
        ensures same { same self.old self.new }
        ensures reads { IfOk result (λ r. reads self.old self.new next register.now r) }
        ensures unmet { IfErr result (λ f. unmet self.old self.new next register.now f) };

    /// Makes the new register from one that a store has admitted.
    fn make(
        &mut self,
        alloc: Global,
        next: usize,
        read: Self::Read,
        register: Register,
    ) -> Result<Made, CliFault>
        ensures same { same self.old self.new }
        ensures makes { (first : Self) (was : Content) → reads first self.old next was read
            → IfOk result (λ made. makes first self.new next was register made.register made.lines.items) }
        ensures refuses { (first : Self) (was : Content) → reads first self.old next was read
            → IfErr result (λ f. refuses first self.new next was register f) };

    /// Both are so if nothing was done.
    ghost itself: { (a : Self) → same a a };

    ghost rests: { (a : Self) → unread a a };

    /// The command has the same devices after a further step.
    ghost still: { (a b c : Self) → same a b → same b c → same a c };

    /// If it has not read what it needs, then it makes nothing, whatever the register is.
    ghost stops: { (a b : Self) (n : ℕ) (x z : Content) (f : CliFault) → unmet a b n x f → refuses a b n x z f };
}

/// Loads the register, lets the command read what it needs, and asks the store to admit the register; keeps the register that the
/// command makes, and then writes the command's lines to the sink. It also writes them if the register is kept, but a power cut
/// may undo that.
pub fn run_change<T: Keep, C: Change, K: Sink>(
    alloc: Global,
    store: &mut T,
    command: &mut C,
    sink: &mut K,
) -> Result<(), CliFault>
    ensures same { T.same store.old store.new × C.same command.old command.new }
    ensures changed { OnOk result (IsChanged (T.around store.old store.new)
        (MakesIn (T.admission store.old) (C.makes command.old command.new (T.next store.old))) (K.state sink.old) (K.state sink.new)) }
    ensures fault { IfErr result (IsUnchanged (T.around store.old store.new)
        (MakesIn (T.admission store.old) (C.makes command.old command.new (T.next store.old)))
        (StopsIn (T.admission store.old) (C.unmet command.old command.new (T.next store.old))
        (λ x. (r : C.Read) × C.reads command.old command.new (T.next store.old) x r) (C.refuses command.old command.new (T.next store.old)))
        (C.unread command.old command.new) (K.state sink.old) (K.state sink.new)) }
{
    let next = store.next();
    let loaded = match store.load(alloc) {
        Ok(loaded) => loaded,
        Err(fault) => return Err(fault),
    };
    let read = match command.read(alloc, next, &loaded) {
        Ok(read) => read,
        Err(fault) => return Err(fault),
    };
    let admitted = match store.admit(alloc, loaded) {
        Ok(admitted) => admitted,
        Err(fault) => return Err(fault),
    };
    let Made { register, lines } = match command.make(alloc, next, read, admitted) {
        Ok(made) => made,
        Err(fault) => return Err(fault),
    };
    match keep_and_tell(alloc, store, &register, &lines, sink) {
        Ok(()) => Ok(()),
        Err(fault) => Err(fault),
    }
}

/// Writes the lines to the sink.
pub fn tell<K: Sink>(lines: &[u8], sink: &mut K) -> Result<(), CliFault>
    ensures written { OnOk result (WritesAll lines.now (K.state sink.old) (K.state sink.new)) }
    ensures fault { IfErr result (AreCut lines.now (K.state sink.old) (K.state sink.new)) }
{
    match write_all(sink, lines) {
        Ok(()) => Ok(()),
        Err(fault) => Err(CliFault::Out(OutFault::WriteFailed(fault.written))),
    }
}

/// Keeps the register that a command made of the loaded one, and then writes the lines to the sink. It also writes them if the
/// register is kept, but a power cut may undo that.
pub fn keep_and_tell<T: Keep, K: Sink>(
    alloc: Global,
    store: &mut T,
    register: &Register,
    lines: &[u8],
    sink: &mut K,
) -> Result<(), CliFault>
    ensures same { T.same store.old store.new }
    ensures told { (first : T) (was : Content) → T.same first store.old → (T.around first store.old).came was
        → OnOk result (IsTold (T.around first store.new) was register.now lines.now (K.state sink.old) (K.state sink.new)) }
    ensures fault { (first : T) (was : Content) → T.same first store.old → (T.around first store.old).came was
        → IfErr result (IsUntold (T.around first store.new) was register.now lines.now (K.state sink.old) (K.state sink.new)) }
{
    if let Err(fault) = store.keep(alloc, register) {
        if !fault.is_after() {
            return Err(fault);
        }
        match tell(lines, sink) {
            Ok(()) => return Err(fault),
            Err(cut) => return Err(cut),
        }
    }
    match tell(lines, sink) {
        Ok(()) => Ok(()),
        Err(cut) => Err(cut),
    }
}
