//! The laws of shelves. The functions do nothing: their contracts are the laws.

ghost use Rattle.std.specs.Prelude.{◌≡◌, ◌≤◌, List, ℕ, length};
ghost use Rattle.byte_shelf.specs.Shelf.{IsSize};
ghost use Rattle.reg_file.specs.Contents.{Content};
ghost use Rattle.reg_file.specs.Files.{Holds};
ghost use Rattle.reg_shelf.specs.Shelf.{IsShelf, IsShelfOf};

/// A shelf has one content, and one size.
pub fn one_shelf()
    ensures content { (image : List ℕ) (x y : Content) → IsShelf image x → IsShelf image y → x ≡ y }
    ensures size { (image : List ℕ) (m n : ℕ) (x y : Content) → IsShelfOf image m x → IsShelfOf image n y → m ≡ n }
{}

/// Each content whose file fits has a shelf of that size.
pub fn each_has_a_shelf()
    ensures { (x : Content) (bytes : List ℕ) (size : ℕ) → Holds bytes x → IsSize size → length bytes ≤ size → (image : List ℕ) × IsShelfOf image size x }
{}
