//! The command `take`, on a register in a file or on a shelf.

ghost use Rattle.std.specs.Prelude.{◌≡◌, ◌↔◌, ◌⊎◌, map, false, IsTrue, IfOk, OnOk, IfErr};
ghost use Rattle.reg_op.specs.Contents.{Content};
ghost use Rattle.byte_io.specs.Whole.{WritesAll};
ghost use Rattle.reg_engine.specs.Store.{AreCut};
ghost use Rattle.reg_file.specs.Files.{IsTooLarge};
ghost use Rattle.reg_take.specs.Files.{file_state};
ghost use Rattle.reg_take.specs.Engines.{IsUnfit, only_tried, kept_if_changed, IsTaken, IsUntaken};

use crate::effect::TakeEffect;
use crate::loading::{Loaded, load_all};
use crate::options::TakeOptions;
use crate::ready::{Ready, make_ready};
use byte_io::{LateSource, Sink};
use reg_engine::{CliFault, Keep, OutFault, Store, keep_and_tell, tell};
use reg_file::{RegisterChunks, WriteFileFault};
use reg_state::Register;
use std::alloc::Global;

// Keeps the register, unless it is the one that was loaded, and writes the lines.
fn keep_changed<T: Keep, K: Sink>(
    alloc: Global,
    store: &mut T,
    register: &Register,
    is_same: bool,
    lines: &[u8],
    sink: &mut K,
) -> Result<(), CliFault>
    ensures same { (first : T) → T.same first store.old → T.same first store.new }
    ensures gave { (first : T) (was : Content) → T.same first store.old → (T.around first store.old).came was → (IsTrue is_same ↔ (register.now ≡ was))
        → OnOk result ((kept_if_changed (T.around first store.new) (K.state sink.old) (K.state sink.new)).gave was register.now lines.now) }
    ensures failed { (first : T) (was : Content) → T.same first store.old → (T.around first store.old).came was → (IsTrue is_same ↔ (register.now ≡ was))
        → IfErr result (λ f. (kept_if_changed (T.around first store.new) (K.state sink.old) (K.state sink.new)).failed was register.now lines.now f) }
{
    if is_same {
        match tell(lines, sink) {
            Ok(()) => return Ok(()),
            Err(fault) => return Err(fault),
        }
    }
    match keep_and_tell(alloc, store, register, lines, sink) {
        Ok(()) => Ok(()),
        Err(fault) => Err(fault),
    }
}

// A file can have the register.
fn fits(alloc: Global, register: &Register) -> Result<(), CliFault>
    ensures fits { IfOk result (λ u. ¬ (IsTooLarge register.now)) }
    ensures fault { IfErr result (IsUnfit register.now) }
{
    match RegisterChunks::new(alloc, register) {
        Ok(_) => Ok(()),
        Err(WriteFileFault::TooLarge) => Err(CliFault::Out(OutFault::TooLarge)),
        Err(_) => Err(CliFault::Memory),
    }
}

// Writes the lines, if the register is the one that was loaded or a file can have it.
fn tell_fitting<K: Sink>(
    alloc: Global,
    register: &Register,
    is_same: bool,
    lines: &[u8],
    sink: &mut K,
) -> Result<(), CliFault>
    ensures fits { OnOk result (IsTrue is_same ⊎ (¬ (IsTooLarge register.now))) }
    ensures written { OnOk result (WritesAll lines.now (K.state sink.old) (K.state sink.new)) }
    ensures fault { IfErr result (λ f. ((is_same ≡ false) × IsUnfit register.now f × (K.state sink.new ≡ K.state sink.old)) ⊎ AreCut lines.now (K.state sink.old) (K.state sink.new) f) }
{
    if !is_same {
        match fits(alloc, register) {
            Ok(()) => {}
            Err(fault) => return Err(fault),
        }
    }
    match tell(lines, sink) {
        Ok(()) => Ok(()),
        Err(fault) => Err(fault),
    }
}

/// Loads the register, reads the files, and joins the register or piece of each to the register that the store admits; keeps the result if it differs
/// from the loaded one, and then writes the rows that changed. Returns the register before and after, and the files that are left
/// out: with `keep_going` those that cannot be read, that have forged numbers of the office, that clash, or whose basis is not held.
/// Otherwise the first such file ends the command. Where offices are named, their operations alone are joined, and the entries that are
/// retired in the files are returned.
pub fn run_take<T: Keep, S: LateSource, K: Sink>(
    alloc: Global,
    store: &mut T,
    files: &mut [S],
    options: &TakeOptions<'_>,
    sink: &mut K,
) -> Result<TakeEffect, CliFault>
    ensures same { T.same store.old store.new }
    ensures taken { IfOk result (λ t. IsTaken (kept_if_changed (T.around store.old store.new) (K.state sink.old) (K.state sink.new)) (T.admission store.old) options.now (T.next store.old)
        (map (λ s. file_state (S.state s) (S.shut s)) files.old) (map (λ s. file_state (S.state s) (S.shut s)) files.new) t) }
    ensures fault { IfErr result (IsUntaken (kept_if_changed (T.around store.old store.new) (K.state sink.old) (K.state sink.new)) (T.admission store.old) options.now (T.next store.old)
        (map (λ s. file_state (S.state s) (S.shut s)) files.old) (map (λ s. file_state (S.state s) (S.shut s)) files.new)) }
{
    let Loaded {
        register: before,
        arrivals,
        retired,
        base,
    } = match load_all(alloc, store, files, options) {
        Ok(loaded) => loaded,
        Err(fault) => return Err(fault),
    };
    let Ready {
        register: after,
        lines,
        is_same,
        left,
    } = match make_ready(alloc, &before, &base, &arrivals, options.keep_going) {
        Ok(ready) => ready,
        Err(fault) => return Err(fault),
    };
    match keep_changed(alloc, store, &after, is_same, &lines, sink) {
        Ok(()) => Ok(TakeEffect {
            before,
            after,
            left,
            retired,
            arrivals,
        }),
        Err(fault) => Err(fault),
    }
}

/// The same, but nothing is kept: the rows show what would change. A register that no file can have is `Out(TooLarge)` here, too.
pub fn try_take<T: Store, S: LateSource, K: Sink>(
    alloc: Global,
    store: &mut T,
    files: &mut [S],
    options: &TakeOptions<'_>,
    sink: &mut K,
) -> Result<TakeEffect, CliFault>
    ensures same { T.same store.old store.new }
    ensures taken { IfOk result (λ t. IsTaken (only_tried (T.around store.old store.new) (K.state sink.old) (K.state sink.new)) (T.admission store.old) options.now (T.next store.old)
        (map (λ s. file_state (S.state s) (S.shut s)) files.old) (map (λ s. file_state (S.state s) (S.shut s)) files.new) t) }
    ensures fault { IfErr result (IsUntaken (only_tried (T.around store.old store.new) (K.state sink.old) (K.state sink.new)) (T.admission store.old) options.now (T.next store.old)
        (map (λ s. file_state (S.state s) (S.shut s)) files.old) (map (λ s. file_state (S.state s) (S.shut s)) files.new)) }
{
    let Loaded {
        register: before,
        arrivals,
        retired,
        base,
    } = match load_all(alloc, store, files, options) {
        Ok(loaded) => loaded,
        Err(fault) => return Err(fault),
    };
    let Ready {
        register: after,
        lines,
        is_same,
        left,
    } = match make_ready(alloc, &before, &base, &arrivals, options.keep_going) {
        Ok(ready) => ready,
        Err(fault) => return Err(fault),
    };
    match tell_fitting(alloc, &after, is_same, &lines, sink) {
        Ok(()) => Ok(TakeEffect {
            before,
            after,
            left,
            retired,
            arrivals,
        }),
        Err(fault) => Err(fault),
    }
}
