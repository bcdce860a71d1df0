//! The block of bytes that definitions of a file share.

use bytes::Bytes;
use reg_state::Register;
use std::alloc::AllocError;

/// The block of which the texts of a file become parts: its bytes, or none if there are known registers. A file that is read
/// beside others often has few definitions that they lack, and one of them would keep all bytes of its file in memory. So those are
/// copied.
pub fn block_of(known: &[Register], file: &Bytes) -> Result<Bytes, AllocError> {
    if known.is_empty() {
        return file.clone();
    }
    Ok(Bytes::new())
}
