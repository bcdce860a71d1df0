//! How faults print, name by name.

mod engines;
mod registers;
mod texts;

use std::alloc::Global;
use std::fmt::Display;
use std::process::Abort;

fn prints<D: Display>(rt: &impl Abort, alloc: Global, printed: &D, line: &[u8]) -> bool {
    printed.to_string(alloc).expect(rt, "a line").as_bytes() == line
}
