//! The place of a file that is replaced by a new one beside it.

ghost use Rattle.std.specs.Prelude.{◌≡◌, [], None, Some, IsSome, OnOk, IfErr, true, false};
ghost use Rattle.byte_io.specs.Device.{target_of, Opens};
ghost use Rattle.byte_out.specs.Place.{untold, CountsOnly, ComparesOnly, PutsOnly};
ghost use Rattle.byte_system.specs.System.{calls};
ghost use Rattle.byte_place.specs.Course.{Comes, has_landed, is_owned, read_of};
ghost use Rattle.byte_place.specs.declared.progress.At.TheVariants as at;

use crate::progress::{At, ReserveFault};
use crate::steps::{Unput, make_fault, mode_for, put_own, remove_own, reserve_fault, visit};
use byte_io::{DeviceFault, Log, Tally, WriteFault};
use byte_out::{Chunks, CompareFault, MakeFault, Place, PutFault};
use byte_protocol::reserve;
use byte_system::{FileReadFault, FolderSyncFault, System};

/// The place of a file that is replaced by a new one beside it. It makes no call that is not in turn: what comes too early or too
/// late fails, or does nothing. So whatever is done with it, its calls are a path of the protocol.
#[derive(Drop)]
pub struct CallPlace<S: System + Drop> {
    pub(crate) system: S,
    pub(crate) out: Vec<u8>,
    pub(crate) beside: Vec<u8>,
    pub(crate) at: At,
    /// Whether a caller that had not read the old file was about to put the new one in its place.
    pub(crate) unread: bool,
    pub(crate) taken: Log,
    /// What the old file had when it was compared.
    pub(crate) found: Log,
    failures: Tally,
    openings: Tally,
    ghost course: { ∥ Comes out.items beside.items taken.bytes found.bytes unread at (calls (S.state system)) ∥₁ },
}

impl<S: System + Drop> CallPlace<S> {
    /// The place of the file with the name `out`, whose new file has the name `beside`. No call is made yet.
    pub fn new(system: S, out: Vec<u8>, beside: Vec<u8>) -> CallPlace<S>
        requires { calls (S.state system) ≡ [] }
        ensures system { result.system ≡ system }
        ensures out { result.out ≡ out }
        ensures beside { result.beside ≡ beside }
        ensures unread { result.unread ≡ false }
        ensures untold { ⟦<CallPlace<S> as Place>⟧.state result ≡ untold (target_of None) }
    {
        CallPlace {
            system,
            out,
            beside,
            at: At::Start,
            unread: false,
            taken: Log::empty(),
            found: Log::empty(),
            failures: Tally::none(),
            openings: Tally::none(),
        }
    }

    /// The system whose calls it makes.
    pub fn system(&self) -> &S
        ensures { result.now ≡ self.now.system }
    {
        &self.system
    }

    /// Begins anew over this system, if there is no new file: all files of the former one are closed, and their locks end.
    pub fn restart(&mut self, system: S)
        requires { calls (S.state system) ≡ [] }
        ensures out { self.new.out ≡ self.old.out }
        ensures beside { self.new.beside ≡ self.old.beside }
        ensures landed { has_landed self.old.at ≡ true → has_landed self.new.at ≡ true }
        ensures put { self.old.at ≡ at.Put → self.new.at ≡ at.Put }
    {
        if self.has_file() {
            return;
        }
        self.system = system;
        self.at = At::Start;
        self.unread = false;
        self.taken = Log::empty();
        self.found = Log::empty();
    }

    // Whether there is a new file, which is still to be put in place, and its folder to be synced, or to be removed.
    fn has_file(&self) -> bool
        ensures { self.now.at ≡ at.Put → result ≡ true }
    {
        match self.at {
            At::Start | At::Landed | At::Over => false,
            _ => true,
        }
    }

    /// Makes and locks the new file, before the old one is read; `make` then finds it. After a fault it can be tried again.
    pub fn reserve(&mut self) -> Result<(), ReserveFault>
        ensures same { ⟦<CallPlace<S> as Place>⟧.state self.new ≡ ⟦<CallPlace<S> as Place>⟧.state self.old }
        ensures out { self.new.out ≡ self.old.out }
        ensures beside { self.new.beside ≡ self.old.beside }
    {
        let At::Start = self.at else {
            return Ok(());
        };
        let Ok(is_there) = visit(&mut self.system, &self.out) else {
            return Err(ReserveFault::NotOpened);
        };
        let made = match reserve(&mut self.system, &self.beside, mode_for(is_there)) {
            Ok(made) => made,
            Err(fault) => return Err(reserve_fault(fault)),
        };
        self.at = At::Reserved(made.file);
        if !is_there {
            return Ok(());
        }
        if !self.likens() {
            return Err(ReserveFault::NotOpened);
        }
        Ok(())
    }

    /// Removes a new file that was reserved and not used.
    pub fn release(&mut self)
        ensures same { ⟦<CallPlace<S> as Place>⟧.state self.new ≡ ⟦<CallPlace<S> as Place>⟧.state self.old }
        ensures out { self.new.out ≡ self.old.out }
        ensures beside { self.new.beside ≡ self.old.beside }
    {
        let At::Reserved(file) = self.at else {
            return;
        };
        self.at = At::Broken(file);
        self.clear();
    }

    /// Whether the place was used: another file is put by another place.
    pub fn is_over(&self) -> bool {
        match self.at {
            At::Landed | At::Over => true,
            _ => false,
        }
    }

    // Opens the new file to the same people as the old one. Otherwise it is removed.
    fn likens(&mut self) -> bool
        ensures same { ⟦<CallPlace<S> as Place>⟧.state self.new ≡ ⟦<CallPlace<S> as Place>⟧.state self.old }
        ensures out { self.new.out ≡ self.old.out }
        ensures beside { self.new.beside ≡ self.old.beside }
    {
        let At::Reserved(file) = self.at else {
            return false;
        };
        match self.system.make_alike(file, &self.out) {
            Ok(()) => true,
            Err(_) => {
                self.at = At::Broken(file);
                self.clear();
                false
            }
        }
    }

    // Removes the new file, which can only be removed.
    fn clear(&mut self)
        ensures same { ⟦<CallPlace<S> as Place>⟧.state self.new ≡ ⟦<CallPlace<S> as Place>⟧.state self.old }
        ensures out { self.new.out ≡ self.old.out }
        ensures beside { self.new.beside ≡ self.old.beside }
        ensures read { read_of self.new.unread self.new.found.bytes ≡ read_of self.old.unread self.old.found.bytes }
    {
        let At::Broken(file) = self.at else {
            return;
        };
        remove_own(&mut self.system, file, &self.beside);
        self.at = At::Over;
    }

    // A file that was not read is not compared.
    fn settles(&mut self, is_read: bool)
        ensures same { ⟦<CallPlace<S> as Place>⟧.state self.new ≡ ⟦<CallPlace<S> as Place>⟧.state self.old }
        ensures read { is_read ≡ true → read_of self.new.unread self.new.found.bytes ≡ read_of self.old.unread self.old.found.bytes }
    {
        let At::Synced(file) = self.at else {
            return;
        };
        if !is_read {
            self.at = At::Ready(file);
            self.unread = true;
        }
    }

    // Renames the new file to the old one, if it may be put in its place.
    fn puts<C: Chunks>(&mut self, read: Option<&[u8]>, _content: &mut C) -> Result<(), PutFault>
        ensures calls { PutsOnly result (C.bytes _content.old) (⟦<CallPlace<S> as Place>⟧.state self.old).sink (⟦<CallPlace<S> as Place>⟧.state self.new).sink }
        ensures read { IsSome read.entry → read_of self.new.unread self.new.found.bytes ≡ read_of self.old.unread self.old.found.bytes }
        ensures put { OnOk result (self.new.at ≡ at.Put) }
        ensures bytes { C.bytes _content.new ≡ C.bytes _content.old }
    {
        self.settles(read.is_some());
        let At::Ready(file) = self.at else {
            self.failures = Tally::after(&self.failures);
            return Err(PutFault::NotOpened);
        };
        match put_own(&mut self.system, file, &self.out, &self.beside) {
            Ok(()) => {
                self.at = At::Put;
                Ok(())
            }
            Err(Unput::Lost) => {
                self.at = At::Over;
                Err(PutFault::Changed)
            }
            Err(Unput::Gone) => {
                self.at = At::Over;
                self.failures = Tally::after(&self.failures);
                Err(PutFault::NotOpened)
            }
            Err(Unput::NotPut) => {
                self.at = At::Broken(file);
                self.failures = Tally::after(&self.failures);
                Err(PutFault::NotOpened)
            }
        }
    }

    // A new file that has not been put can only be removed from now on.
    fn gives_up(&mut self)
        ensures state { ⟦<CallPlace<S> as Place>⟧.state self.new ≡ ⟦<CallPlace<S> as Place>⟧.state self.old }
        ensures read { read_of self.new.unread self.new.found.bytes ≡ read_of self.old.unread self.old.found.bytes }
    {
        match self.at {
            At::Reserved(file) => self.at = At::Broken(file),
            At::Owned(file) => self.at = At::Broken(file),
            At::Synced(file) => self.at = At::Broken(file),
            At::Ready(file) => self.at = At::Broken(file),
            At::Start | At::Broken(_) | At::Put | At::Landed | At::Over => {}
        }
    }
}

impl<S: System + Drop> Place for CallPlace<S> {
    ghost state = { λ s. record {
      sink = record {
        written = None;
        taken = s.taken.bytes;
        failures = s.failures.count;
        stalls = 0;
        openings = s.openings.count;
      };
      files = None;
    } };

    fn make(&mut self) -> Result<(), MakeFault>
        ensures calls { Opens result (⟦<CallPlace<S> as Place>⟧.state self.old).sink (⟦<CallPlace<S> as Place>⟧.state self.new).sink }
        ensures owned { OnOk result (is_owned self.new.at ≡ true) }
        ensures empty { OnOk result (self.new.taken.bytes ≡ []) }
    {
        if let Err(fault) = self.reserve() {
            self.failures = Tally::after(&self.failures);
            return Err(make_fault(fault));
        }
        let At::Reserved(file) = self.at else {
            self.failures = Tally::after(&self.failures);
            return Err(MakeFault::NotOpened);
        };
        // Nothing yet: what the place takes follows.
        let _ = self.system.write(file, &[]);
        self.at = At::Owned(file);
        self.openings = Tally::after(&self.openings);
        Ok(())
    }

    fn write(&mut self, bytes: &[u8]) -> Result<(), WriteFault> {
        let At::Owned(file) = self.at else {
            if bytes.is_empty() {
                return Ok(());
            }
            self.failures = Tally::after(&self.failures);
            return Err(WriteFault { written: 0 });
        };
        let written = self.system.write(file, bytes);
        if written < bytes.len() {
            self.at = At::Broken(file);
            self.taken.note(&bytes[..written]);
            self.failures = Tally::after(&self.failures);
            return Err(WriteFault { written });
        }
        self.taken.note(bytes);
        Ok(())
    }

    fn sync(&mut self) -> Result<(), DeviceFault> {
        let At::Owned(file) = self.at else {
            self.failures = Tally::after(&self.failures);
            return Err(DeviceFault);
        };
        // There is no more.
        let _ = self.system.write(file, &[]);
        if self.system.sync(file).is_err() {
            self.at = At::Broken(file);
            self.failures = Tally::after(&self.failures);
            return Err(DeviceFault);
        }
        self.at = At::Synced(file);
        Ok(())
    }

    fn compare(&mut self, read: &[u8]) -> Result<(), CompareFault>
        ensures calls { ComparesOnly result (⟦<CallPlace<S> as Place>⟧.state self.old).sink (⟦<CallPlace<S> as Place>⟧.state self.new).sink }
        ensures read { OnOk result (read_of self.new.unread self.new.found.bytes ≡ Some read.now) }
    {
        let At::Synced(file) = self.at else {
            return Err(CompareFault::Changed);
        };
        match self.system.has(&self.out, read) {
            Ok(true) => {
                self.found = Log::empty();
                self.found.note(read);
                self.at = At::Ready(file);
                Ok(())
            }
            Ok(false) => {
                self.at = At::Broken(file);
                Err(CompareFault::Changed)
            }
            Err(FileReadFault::NotOpened) => {
                self.at = At::Broken(file);
                self.failures = Tally::after(&self.failures);
                Err(CompareFault::NotOpened)
            }
            Err(FileReadFault::Cut(count)) => {
                self.at = At::Broken(file);
                self.failures = Tally::after(&self.failures);
                Err(CompareFault::ReadFailed(count))
            }
        }
    }

    fn put<C: Chunks>(&mut self, read: Option<&[u8]>, content: &mut C) -> Result<(), PutFault>
        ensures calls { PutsOnly result (C.bytes content.old) (⟦<CallPlace<S> as Place>⟧.state self.old).sink (⟦<CallPlace<S> as Place>⟧.state self.new).sink }
        ensures read { IsSome read.entry → read_of self.new.unread self.new.found.bytes ≡ read_of self.old.unread self.old.found.bytes }
        ensures put { OnOk result (self.new.at ≡ at.Put) }
        ensures bytes { C.bytes content.new ≡ C.bytes content.old }
    {
        self.puts(read, content)
    }

    fn land(&mut self) -> Result<(), DeviceFault>
        ensures calls { CountsOnly result (⟦<CallPlace<S> as Place>⟧.state self.old).sink (⟦<CallPlace<S> as Place>⟧.state self.new).sink }
        ensures landed { OnOk result (self.new.at ≡ at.Landed) }
    {
        let At::Put = self.at else {
            self.failures = Tally::after(&self.failures);
            return Err(DeviceFault);
        };
        match self.system.sync_folder(&self.out) {
            Ok(()) => {
                self.at = At::Landed;
                Ok(())
            }
            // There is no way to sync a folder that may not be opened.
            Err(FolderSyncFault::Forbidden) => {
                self.at = At::Landed;
                Ok(())
            }
            Err(_) => {
                self.at = At::Over;
                self.failures = Tally::after(&self.failures);
                Err(DeviceFault)
            }
        }
    }

    fn remove(&mut self)
        ensures calls { (⟦<CallPlace<S> as Place>⟧.state self.new).sink ≡ (⟦<CallPlace<S> as Place>⟧.state self.old).sink }
        ensures read { read_of self.new.unread self.new.found.bytes ≡ read_of self.old.unread self.old.found.bytes }
    {
        self.gives_up();
        self.clear();
    }
}
