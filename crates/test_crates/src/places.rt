//! Tests of files that are replaced over a system in memory, beside a second process.

mod calls;
mod protocol;

use byte_system::{Act, Does};
use std::alloc::{AllocError, Global};

// The second process does this before the call with this number.
fn act(acts: &mut Vec<Act>, before: usize, does: Does) -> Result<(), AllocError> {
    let act = Act {
        before,
        by: 2,
        does,
    };
    if let Err(_) = acts.push(act) {
        return Err(AllocError);
    }
    Ok(())
}

// It makes the file "out" with the bytes "old" before the first call. This is the file 0.
fn makes_out(alloc: Global, acts: &mut Vec<Act>) -> Result<(), AllocError> {
    act(acts, 0, Does::Make(b"out".to_vec(alloc)?))?;
    act(acts, 0, Does::Write(0, b"old".to_vec(alloc)?))
}

// The numbers of the calls that fail: one, or none.
fn failing(alloc: Global, call: Option<usize>) -> Result<Vec<usize>, AllocError> {
    match call {
        Some(call) => [call].to_vec(alloc),
        None => Ok(Vec::new(alloc)),
    }
}
