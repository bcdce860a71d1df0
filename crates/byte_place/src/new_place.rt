//! The place of a file that does not exist yet. It is made with its name.

ghost use Rattle.std.specs.Prelude.{◌≡◌, None};
ghost use Rattle.byte_io.specs.Device.{target_of};
ghost use Rattle.byte_out.specs.Place.{untold};

use byte_io::{DeviceFault, Log, Tally, WriteFault};
use byte_out::{Chunks, CompareFault, MakeFault, Place, PutFault};
use byte_system::{FolderSyncFault, Mode, System};

/// The place of a file that does not exist yet, such as a new office file. It is made with its name.
#[derive(Drop)]
pub struct NewPlace<'a, S: System + Drop> {
    system: S,
    path: &'a [u8],
    file: Option<usize>,
    taken: Log,
    failures: Tally,
    openings: Tally,
}

impl<'a, S: System + Drop> NewPlace<'a, S> {
    /// The place of a file that does not exist yet. Nothing is made yet.
    pub fn new(system: S, path: &'a [u8]) -> NewPlace<'a, S>
        ensures system { result.system ≡ system }
        ensures path { result.path ≡ path.entry }
        ensures untold { ⟦<NewPlace<'a, S> as Place>⟧.state result ≡ untold (target_of None) }
    {
        NewPlace {
            system,
            path,
            file: None,
            taken: Log::empty(),
            failures: Tally::none(),
            openings: Tally::none(),
        }
    }
}

impl<S: System + Drop> Place for NewPlace<'_, S> {
    ghost state = { λ s. record {
      sink = record {
        written = None;
        taken = s.taken.bytes;
        failures = s.failures.count;
        stalls = 0;
        openings = s.openings.count;
      };
      files = None;
    } };

    fn make(&mut self) -> Result<(), MakeFault> {
        // The file is made with its name: never over another file, nor through a link.
        match self.system.make(self.path, Mode::Usual) {
            Ok(file) => {
                self.openings = Tally::after(&self.openings);
                self.file = Some(file);
                Ok(())
            }
            Err(_) => {
                self.failures = Tally::after(&self.failures);
                Err(MakeFault::NotOpened)
            }
        }
    }

    fn write(&mut self, bytes: &[u8]) -> Result<(), WriteFault> {
        let written = match self.file {
            Some(file) => self.system.write(file, bytes),
            None => 0,
        };
        if written < bytes.len() {
            self.taken.note(&bytes[..written]);
            self.failures = Tally::after(&self.failures);
            return Err(WriteFault { written });
        }
        self.taken.note(bytes);
        Ok(())
    }

    fn sync(&mut self) -> Result<(), DeviceFault> {
        if let Some(file) = self.file {
            if self.system.sync(file).is_ok() {
                return Ok(());
            }
        }
        self.failures = Tally::after(&self.failures);
        Err(DeviceFault)
    }

    fn compare(&mut self, _read: &[u8]) -> Result<(), CompareFault> {
        // Nothing had the name.
        Ok(())
    }

    fn put<C: Chunks>(&mut self, _read: Option<&[u8]>, _content: &mut C) -> Result<(), PutFault> {
        // It has its name already.
        if self.file.is_some() {
            self.file = None;
            return Ok(());
        }
        self.failures = Tally::after(&self.failures);
        Err(PutFault::NotOpened)
    }

    fn land(&mut self) -> Result<(), DeviceFault> {
        match self.system.sync_folder(self.path) {
            Ok(()) => Ok(()),
            // Where the folder cannot be opened, there is no way to sync it.
            Err(FolderSyncFault::Forbidden) => Ok(()),
            Err(FolderSyncFault::NotOpened) => Ok(()),
            Err(FolderSyncFault::NotSynced) => {
                self.failures = Tally::after(&self.failures);
                Err(DeviceFault)
            }
        }
    }

    fn remove(&mut self) {
        if self.file.is_some() {
            let _ = self.system.unlink(self.path);
            self.file = None;
        }
    }
}
