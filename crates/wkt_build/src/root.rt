//! The value of a whole text.

ghost use Rattle.wkt_tree.specs.Cut.{cut};
ghost use Rattle.wkt_build.specs.Whole.{BuildsParts};

use crate::built::Built;
use crate::reader::Reader;
use crs_part::CrsParts;
use std::alloc::{AllocError, Global};
use wkt_tree::Outline;

/// The parts that a text without a slot fault denotes.
///
/// # Errors
///
/// An allocation failed.
pub fn build_parts(alloc: Global, outline: &Outline<'_>) -> Result<CrsParts, AllocError>
    ensures { BuildsParts (cut 0 outline.now) result }
{
    let mut reader = Reader::new(outline.cursor());
    CrsParts::build(alloc, &mut reader)
}
