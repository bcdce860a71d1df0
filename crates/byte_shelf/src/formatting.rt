//! Makes a shelf.

ghost use Rattle.std.specs.Prelude.{◌≡◌, ◌<◌, ◌^◌, IsTrue, OnOk, IfOk, IsErr, IsErrOf, length};
ghost use Rattle.byte_disk.specs.Disk.{Only};
ghost use Rattle.byte_shelf.specs.Shelf.{IsSize, IsShelfOf, fresh};
ghost use Rattle.byte_shelf.specs.Keep.{CountsFault};

use crate::fault::ShelfFault;
use crate::head::is_size;
use byte_disk::{Disk, write_through};
use std::alloc::{AllocError, Global};

// The gate, the size, and the first slot.
fn image_of(alloc: Global, size: u32, bytes: &[u8]) -> Result<Vec<u8>, AllocError>
    requires { length bytes.now < 2 ^ 32 }
    ensures { IfOk result (λ v. v.items ≡ fresh size bytes.now) }
{
    let mut image = Vec::with_capacity(alloc, bytes.len() + 9)?;
    image.push(0)?;
    image.extend_from_slice(&size.to_be_bytes())?;
    image.extend_from_slice(&(bytes.len() as u32).to_be_bytes())?;
    image.extend_from_slice(bytes)?;
    Ok(image)
}

/// Makes a shelf of these bytes, with slots of up to `size` bytes. A stop during the call may leave any bytes.
pub fn format<D: Disk>(
    alloc: Global,
    disk: &mut D,
    size: u32,
    bytes: &[u8],
) -> Result<(), ShelfFault>
    ensures done { IsTrue (D.tells disk.old)
        → OnOk result (Only (D.seen disk.new) (D.images disk.new)
        × IsShelfOf (D.seen disk.new) size bytes.now) }
    ensures bad_size { IsErrOf result ShelfFault.BadSize → IsSize size → ⊥ }
    ensures sized { OnOk result (IsSize size) }
    ensures too_large { IsErrOf result ShelfFault.TooLarge → size < length bytes.now }
    ensures not_shelf { IsErrOf result ShelfFault.NotShelf → ⊥ }
    ensures refused { D.failures disk.new ≡ D.failures disk.old → IsErr result
        → disk.new ≡ disk.old }
    ensures counts { CountsFault result (D.failures disk.old) (D.failures disk.new) }
    ensures tells { D.tells disk.new ≡ D.tells disk.old }
{
    if !is_size(size) {
        return Err(ShelfFault::BadSize);
    }
    if bytes.len() > size as usize {
        return Err(ShelfFault::TooLarge);
    }
    let Ok(image) = image_of(alloc, size, bytes) else {
        return Err(ShelfFault::Memory);
    };
    if write_through(disk, 0, &image).is_err() {
        return Err(ShelfFault::DiskFailed);
    }
    Ok(())
}
