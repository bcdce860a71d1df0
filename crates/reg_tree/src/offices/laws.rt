//! Laws of what is joined of some offices. The functions do nothing: their contracts are the laws.

ghost use Rattle.std.specs.Prelude.{◌≡◌, ◌⊎◌, true, List, ℕ};
ghost use Rattle.reg_op.specs.Set as set;
ghost use Rattle.reg_op.specs.Ids.{Id};
ghost use Rattle.reg_op.specs.Operations.{Op};
ghost use Rattle.reg_op.specs.Contents.{Content, IsContent, merged};
ghost use Rattle.reg_tree.specs.Offices.{is_theirs, from_offices};

/// A content that is joined with what another one has of some offices gains no operation and no number of any other office.
pub fn no_other_office_speaks()
    ensures operations { (us : List (List ℕ)) (x y : Content) (o : Op) → set.contains (merged x (from_offices us y)).ops o ≡ true
        → (set.contains x.ops o ≡ true) ⊎ ((is_theirs us o.id ≡ true) × (set.contains y.ops o ≡ true)) }
    ensures numbers { (us : List (List ℕ)) (x y : Content) (i : Id) → set.contains (merged x (from_offices us y)).seen i ≡ true
        → (set.contains x.seen i ≡ true) ⊎ (is_theirs us i ≡ true) }
{}

/// What a content has of some offices is a content, and has each operation of theirs that the content keeps.
pub fn all_of_theirs_is_there()
    ensures content { (us : List (List ℕ)) (x : Content) → IsContent x → IsContent (from_offices us x) }
    ensures all { (us : List (List ℕ)) (x : Content) (o : Op) → IsContent x → set.contains x.ops o ≡ true → is_theirs us o.id ≡ true
        → set.contains (from_offices us x).ops o ≡ true }
{}
