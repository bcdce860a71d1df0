//! A model of a disk that can stop: its images and its clock.

ghost use Rattle.std.specs.Prelude.{◌≡◌, ◌≤◌, List, ℕ, Bool, IsTrue, IfOk, OnOk, OnErr, length};
ghost use Rattle.byte_io.specs.Device.{CountsFailure};
ghost use Rattle.byte_disk.specs.Disk.{ReadsAt, IsWritten, Torn, Follows, Only, SameImages, Elapses};

use std::alloc::AllocError;

/// A failure of a disk. The contract says what the call may have done before it failed.
#[derive(Clone, Copy, Debug, PartialEq, Eq)]
pub struct DiskFault;

impl From<AllocError> for DiskFault {
    fn from(_e: AllocError) -> DiskFault {
        DiskFault
    }
}

/// Bytes that survive a stop, which may happen at any moment, also during a call.
pub trait Disk {
    /// Whether the other members are known. A disk that tells nothing still counts its failures.
    ghost tells: { Self → Bool };

    /// The bytes that a read returns.
    ghost seen: { Self → List ℕ };

    /// The possible contents after a stop at this moment.
    ghost images: { Self → List ℕ → Type 0 };

    /// The moment, which each call advances.
    ghost moment: { Self → ℕ };

    /// The possible contents after a stop at any moment from that one on, during a call or between calls.
    ghost images_since: { Self → ℕ → List ℕ → Type 0 };

    /// How often it has failed.
    ghost failures: { Self → ℕ };

    /// Reads from an offset on: fewer bytes than there is room for only at the end.
    fn read_at(&mut self, at: u64, buf: &mut [u8]) -> Result<usize, DiskFault>
        ensures bound { IfOk result (λ n. n ≤ length buf.new) }
        ensures bytes { IsTrue (tells self.old)
            → IfOk result (λ n. ReadsAt (seen self.old) at n buf.new) }
        ensures seen { IsTrue (tells self.old) → seen self.new ≡ seen self.old }
        ensures images { IsTrue (tells self.old) → SameImages (images self.old) (images self.new) }
        ensures time { IsTrue (tells self.old) → Elapses (moment self.old) (moment self.new)
            (images_since self.old) (images_since self.new) (images self.new) }
        ensures failure { CountsFailure result (failures self.old) (failures self.new) }
        ensures tells { tells self.new ≡ tells self.old };

    /// Overwrites bytes, and may extend past the end. Until a sync, a stop may leave any bytes in the range.
    fn write_at(&mut self, at: u64, bytes: &[u8]) -> Result<(), DiskFault>
        ensures written { IsTrue (tells self.old)
            → OnOk result (IsWritten (seen self.old) at bytes.now (seen self.new)) }
        ensures images { IsTrue (tells self.old)
            → Follows (Torn at (length bytes.now)) (images self.old) (images self.new) }
        ensures time { IsTrue (tells self.old) → Elapses (moment self.old) (moment self.new)
            (images_since self.old) (images_since self.new) (images self.new) }
        ensures failure { CountsFailure result (failures self.old) (failures self.new) }
        ensures tells { tells self.new ≡ tells self.old };

    /// Syncs all earlier writes.
    fn sync(&mut self) -> Result<(), DiskFault>
        ensures durable { IsTrue (tells self.old)
            → OnOk result (Only (seen self.old) (images self.new)) }
        ensures failed { IsTrue (tells self.old)
            → OnErr result (SameImages (images self.old) (images self.new)) }
        ensures seen { IsTrue (tells self.old) → seen self.new ≡ seen self.old }
        ensures images { IsTrue (tells self.old)
            → (c : List ℕ) → images self.new c → images self.old c }
        ensures time { IsTrue (tells self.old) → Elapses (moment self.old) (moment self.new)
            (images_since self.old) (images_since self.new) (images self.new) }
        ensures failure { CountsFailure result (failures self.old) (failures self.new) }
        ensures tells { tells self.new ≡ tells self.old };

    /// The bytes that a read returns are one of the images.
    ghost seen_is_image: { (d : Self) → IsTrue (tells d) → images d (seen d) };

    /// An image at this moment is an image since any earlier moment.
    ghost counts_now: { (d : Self) (t : ℕ) (c : List ℕ) → IsTrue (tells d)
        → t ≤ moment d → images d c → images_since d t c };

    /// The images since this moment are those at this moment.
    ghost only_now: { (d : Self) (c : List ℕ) → IsTrue (tells d)
        → images_since d (moment d) c → images d c };
}
