//! Places of files, with contracts about the files.

ghost use Rattle.std.specs.Prelude.{◌≡◌, OnOk, IfErr};
ghost use Rattle.byte_io.specs.Device.{Opens};
ghost use Rattle.byte_io.specs.Whole.{WritesAll, IsCutAt};
ghost use Rattle.byte_out.specs.Place.{PlaceState, IfReported, IsMade, IsFilled, IsSynced, IsCompared, IsPut, IsLanded, IsRemoved, CountsOnly, ComparesOnly, PutsOnly};

use crate::chunks::Chunks;
use crate::fault::{CompareFault, MakeFault, PutFault};
use byte_io::{DeviceFault, WriteFault};

/// The name of a file. A new file can be made next to it, and then be renamed to it.
pub trait Place {
    /// The effects of its calls, and its files, if they are known.
    ghost state: { Self → PlaceState };

    /// Makes the new file, empty.
    fn make(&mut self) -> Result<(), MakeFault>
        ensures calls { Opens result (state self.old).sink (state self.new).sink }
        ensures files { IfReported (IsMade result) (state self.old).files (state self.new).files };

    /// Writes all the bytes to the new file, behind those that it has.
    fn write(&mut self, bytes: &[u8]) -> Result<(), WriteFault>
        ensures ok { OnOk result
            (WritesAll bytes.now (state self.old).sink (state self.new).sink) }
        ensures fault { IfErr result
            (λ e. IsCutAt e.written bytes.now (state self.old).sink (state self.new).sink) }
        ensures files { IfReported (IsFilled result bytes.now)
            (state self.old).files (state self.new).files };

    /// Syncs the new file.
    fn sync(&mut self) -> Result<(), DeviceFault>
        ensures calls { CountsOnly result (state self.old).sink (state self.new).sink }
        ensures files { IfReported (IsSynced result) (state self.old).files (state self.new).files };

    /// Compares the file with the name with these bytes, which were read from it.
    fn compare(&mut self, read: &[u8]) -> Result<(), CompareFault>
        ensures calls { ComparesOnly result (state self.old).sink (state self.new).sink }
        ensures files { IfReported (IsCompared result read.now) (state self.old).files (state self.new).files };

    /// Renames the new file to the old one, which it replaces. A file that is written in place gets the bytes now; if a rename is
    /// refused, only if it still has the bytes that were read.
    fn put<C: Chunks>(&mut self, read: Option<&[u8]>, content: &mut C) -> Result<(), PutFault>
        ensures calls { PutsOnly result (C.bytes content.old) (state self.old).sink (state self.new).sink }
        ensures files { IfReported (IsPut result) (state self.old).files (state self.new).files };

    /// Makes sure that the renamed file keeps its name after a stop.
    fn land(&mut self) -> Result<(), DeviceFault>
        ensures calls { CountsOnly result (state self.old).sink (state self.new).sink }
        ensures files { IfReported (IsLanded result) (state self.old).files (state self.new).files };

    /// Removes the new file, if it can, and if it is still the one that was made.
    fn remove(&mut self)
        ensures calls { (state self.new).sink ≡ (state self.old).sink }
        ensures files { IfReported IsRemoved (state self.old).files (state self.new).files };
}
