//! The calls on files that a command makes. Other processes make calls before and between them.

ghost use Rattle.byte_system.specs.Disk.{Likens, Locks, Looks, Syncs, Compares, Renames, Unlinks, SyncsFolder};
ghost use Rattle.byte_system.specs.System.{SystemState, Took, make_call, open_call, look_call, done_or_failed, told_or_failed, write_call};

/// Why no new file was made.
#[derive(Clone, Copy, Debug, PartialEq, Eq)]
pub enum NewFileFault {
    Exists,
    NotMade,
}

/// Who may open a new file.
#[derive(Clone, Copy, Debug, PartialEq, Eq)]
pub enum Mode {
    /// Its owner alone.
    Private,
    /// Whoever may open a file that the user makes.
    Usual,
}

/// What has a name.
#[derive(Clone, Copy, Debug, PartialEq, Eq)]
pub enum There {
    Nothing,
    /// A plain file with this name alone.
    Sole,
    /// A plain file that has other names, too.
    Shared,
    /// A link, a folder, a device or a pipe.
    Other,
}

/// Why a file could not be read to its end.
#[derive(Clone, Copy, Debug, PartialEq, Eq)]
pub enum FileReadFault {
    NotOpened,
    /// Reading failed after this many bytes, which were the same.
    Cut(usize),
}

/// Why a folder was not synced.
#[derive(Clone, Copy, Debug, PartialEq, Eq)]
pub enum FolderSyncFault {
    /// It may not be opened.
    Forbidden,
    /// It could not be opened for another reason.
    NotOpened,
    NotSynced,
}

/// A call failed.
#[derive(Clone, Copy, Debug, PartialEq, Eq)]
pub struct Failed;

/// A system of files, as one process sees it. A file is named by its path, and an open file by its number.
pub trait System {
    /// The process, the files at the start, and the calls of all processes.
    ghost state: { Self → SystemState };

    /// What has the name. A link is not followed.
    fn look(&mut self, path: &[u8]) -> Result<There, Failed>
        ensures { Took (look_call path.now result) (state self.old) (state self.new) };

    /// Makes a new, empty file. There was none with this name.
    fn make(&mut self, path: &[u8], mode: Mode) -> Result<usize, NewFileFault>
        ensures { Took (make_call path.now result) (state self.old) (state self.new) };

    /// Makes a file of which this process is to have the lock. There was none with this name.
    fn make_own(&mut self, path: &[u8], mode: Mode) -> Result<usize, NewFileFault>
        ensures { Took (make_call path.now result) (state self.old) (state self.new) };

    /// Gives an open file the owner, the group and the mode of the one with the name, as far as the system permits. Where it keeps no
    /// group, the mode gives the other group no more than everybody.
    fn make_alike(&mut self, file: usize, path: &[u8]) -> Result<(), Failed>
        ensures { Took (done_or_failed (Likens file path.now) result) (state self.old) (state self.new) };

    /// Opens the file with the name, in order to lock it.
    fn open(&mut self, path: &[u8]) -> Result<usize, Failed>
        ensures { Took (open_call path.now result) (state self.old) (state self.new) };

    /// Opens a file that a process which has ended had made to have its lock. If nobody knows whether it has ended, this fails.
    fn open_left(&mut self, path: &[u8]) -> Result<usize, Failed>
        ensures { Took (open_call path.now result) (state self.old) (state self.new) };

    /// Asks for the lock of an open file, and does not wait.
    fn lock(&mut self, file: usize) -> Result<bool, Failed>
        ensures { Took (told_or_failed (Locks file) result) (state self.old) (state self.new) };

    /// Whether the name leads to the open file.
    fn is_named(&mut self, path: &[u8], file: usize) -> Result<bool, Failed>
        ensures { Took (told_or_failed (Looks path.now file) result) (state self.old) (state self.new) };

    /// Appends bytes to an open file, as many as it takes. Returns how many.
    fn write(&mut self, file: usize, bytes: &[u8]) -> usize
        ensures { Took (write_call file bytes.now result) (state self.old) (state self.new) };

    /// Syncs an open file.
    fn sync(&mut self, file: usize) -> Result<(), Failed>
        ensures { Took (done_or_failed (Syncs file) result) (state self.old) (state self.new) };

    /// Whether the file with the name has exactly these bytes.
    fn has(&mut self, path: &[u8], bytes: &[u8]) -> Result<bool, FileReadFault>
        ensures { Took (told_or_failed (Compares path.now bytes.now) result) (state self.old) (state self.new) };

    /// Gives the file with one name another name, whose file loses it. It fails if the two are one name.
    fn rename(&mut self, from: &[u8], to: &[u8]) -> Result<(), Failed>
        ensures { Took (done_or_failed (Renames from.now to.now) result) (state self.old) (state self.new) };

    /// Takes the name from its file.
    fn unlink(&mut self, path: &[u8]) -> Result<(), Failed>
        ensures { Took (done_or_failed (Unlinks path.now) result) (state self.old) (state self.new) };

    /// Syncs the folder of a name.
    fn sync_folder(&mut self, path: &[u8]) -> Result<(), FolderSyncFault>
        ensures { Took (done_or_failed (SyncsFolder path.now) result) (state self.old) (state self.new) };
}
