//! Places of folders, with contracts about the folders.

ghost use Rattle.std.specs.Prelude.{◌≡◌, OnOk, IfErr};
ghost use Rattle.byte_io.specs.Publish.{Publishes, IsPublishFault};
ghost use Rattle.byte_folder.specs.Folder.{FolderState, IfReported, CountsOnly, IsMade, IsAdded, IsPut, IsRemoved};

use crate::fault::MakeFolderFault;
use byte_io::{NotOpened, PublishFault};

/// The name of a folder. A new folder can be made next to it, filled, and then be renamed to it.
pub trait FolderPlace {
    /// The effects of its calls, and its folders, if they are known.
    ghost state: { Self → FolderState };

    /// Makes the new folder, empty, if there is no folder with the name, or an empty one.
    fn make(&mut self) -> Result<(), MakeFolderFault>
        ensures calls { CountsOnly result (state self.old).sink (state self.new).sink }
        ensures folders { IfReported (IsMade result) (state self.old).folders (state self.new).folders };

    /// Makes a file with this name in the new folder, and writes the bytes to it.
    fn add(&mut self, name: &[u8], bytes: &[u8]) -> Result<(), PublishFault>
        ensures ok { OnOk result (Publishes bytes.now (state self.old).sink (state self.new).sink) }
        ensures fault { IfErr result
            (IsPublishFault bytes.now (state self.old).sink (state self.new).sink) }
        ensures folders { IfReported (IsAdded result name.now bytes.now)
            (state self.old).folders (state self.new).folders };

    /// Renames the new folder to the old one, which it replaces.
    fn put(&mut self) -> Result<(), NotOpened>
        ensures calls { CountsOnly result (state self.old).sink (state self.new).sink }
        ensures folders { IfReported (IsPut result) (state self.old).folders (state self.new).folders };

    /// Removes the new folder with its files, if it can.
    fn remove(&mut self)
        ensures calls { (state self.new).sink ≡ (state self.old).sink }
        ensures folders { IfReported IsRemoved (state self.old).folders (state self.new).folders };
}
