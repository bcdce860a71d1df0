//! The sizes that a shelf may have.

ghost use Rattle.std.specs.Prelude.{◌≡◌, true, ◌↔◌};
ghost use Rattle.byte_shelf.specs.Shelf.{IsSize};

use byte_shelf::{LEAST, MOST};

/// Whether a shelf may have slots of this size.
pub fn is_size(size: u32) -> bool
    ensures { (result ≡ true) ↔ IsSize size }
{
    LEAST <= size && size <= MOST
}
