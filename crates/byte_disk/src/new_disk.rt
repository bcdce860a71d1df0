//! Disks that are opened first.

ghost use Rattle.std.specs.Prelude.{◌≡◌, [], ℕ, IsTrue, OnOk, OnErr};
ghost use Rattle.byte_disk.specs.Disk.{CountsOpening, SameImages, Elapses};

use crate::disk::Disk;
use byte_io::NotOpened;

/// A disk that has to be opened first, which empties it.
pub trait NewDisk: Disk {
    /// How often it was opened.
    ghost openings: { Self → ℕ };

    /// Opens it, empty. Before a sync a stop may leave any bytes.
    fn open(&mut self) -> Result<(), NotOpened>
        ensures empty { IsTrue (Self.tells self.old) → OnOk result (Self.seen self.new ≡ []) }
        ensures refused_seen { IsTrue (Self.tells self.old)
            → OnErr result (Self.seen self.new ≡ Self.seen self.old) }
        ensures refused_images { IsTrue (Self.tells self.old)
            → OnErr result (SameImages (Self.images self.old) (Self.images self.new)) }
        ensures time { IsTrue (Self.tells self.old)
            → Elapses (Self.moment self.old) (Self.moment self.new)
            (Self.images_since self.old) (Self.images_since self.new) (Self.images self.new) }
        ensures counts { CountsOpening result (Self.failures self.old) (Self.failures self.new)
            (openings self.old) (openings self.new) }
        ensures tells { Self.tells self.new ≡ Self.tells self.old };
}
