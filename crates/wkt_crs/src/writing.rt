//! The writer of texts.

ghost use Rattle.std.specs.Prelude.{◌≡◌, IfOk};
ghost use Rattle.wkt_crs.specs.Spells.{canon, pretty};

use crs_value::Crs;
use std::alloc::{AllocError, Global};

/// The canonical text.
pub fn write_crs(alloc: Global, crs: &Crs) -> Result<Vec<u8>, AllocError>
    ensures { IfOk result (λ text. text.items ≡ canon crs.now) }
{
    wkt_write::write_crs(alloc, crs.parts())
}

/// The indented text: the canonical one with a new line before the keyword of each node but the root.
pub fn write_pretty(alloc: Global, crs: &Crs) -> Result<Vec<u8>, AllocError>
    ensures { IfOk result (λ text. text.items ≡ pretty crs.now) }
{
    wkt_write::write_pretty(alloc, crs.parts())
}
