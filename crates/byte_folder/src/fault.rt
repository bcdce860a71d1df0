//! Why a folder was not made or not filled.

ghost use Rattle.std.specs.Prelude.{◌≡◌};

use std::fmt;

/// Why no new folder was made.
#[derive(Clone, Copy, Debug, PartialEq, Eq)]
pub enum MakeFolderFault {
    /// It could not be made, or the name belongs to a folder with files, or to something that is not a folder.
    NotOpened,
    /// There is a file or a folder with the new folder's name.
    Exists,
}

/// Why no folder was put in place.
#[derive(Clone, Copy, Debug, PartialEq, Eq)]
pub enum FolderFault {
    /// The folder or a file could not be made, or the folder could not be renamed, or a name is too long.
    NotOpened,
    /// There is a file or a folder with the new folder's name.
    NewExists,
    /// Exactly this many bytes were written, over all files.
    WriteFailed(usize),
}

impl FolderFault {
    ghost use Rattle.byte_folder.specs.Names.{folder_name, folder_place};

    /// The name that is printed.
    pub fn name(self) -> &'static str
        ensures { result.now ≡ folder_name self }
    {
        match self {
            FolderFault::NotOpened => "NotOpened",
            FolderFault::NewExists => "NewExists",
            FolderFault::WriteFailed(_) => "WriteFailed",
        }
    }

    /// The number of bytes that were written before it, if it has a place.
    pub fn place(self) -> Option<usize>
        ensures { result ≡ folder_place self }
    {
        match self {
            FolderFault::NotOpened => None,
            FolderFault::NewExists => None,
            FolderFault::WriteFailed(place) => Some(place),
        }
    }
}

impl fmt::Display for FolderFault {
    fn fmt<W: fmt::Write>(&self, f: &mut fmt::Formatter<W>) -> fmt::Result {
        let name = self.name();
        match self.place() {
            Some(place) => write!(f, "{name} at {place}"),
            None => f.write_str(name),
        }
    }
}
