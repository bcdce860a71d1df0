//! The laws of shelves. The functions do nothing: their contracts are the laws.

ghost use Rattle.std.specs.Prelude.{◌≡◌, ℕ, List};
ghost use Rattle.byte_shelf.specs.Shelf.{IsShelf};

/// A shelf has one content.
pub fn one_content()
    ensures { (image bytes others : List ℕ) → IsShelf image bytes → IsShelf image others → bytes ≡ others }
{}
