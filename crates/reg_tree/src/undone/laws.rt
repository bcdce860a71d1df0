//! Laws of what a join undoes. The functions do nothing: their contracts are the laws.

ghost use Rattle.std.specs.Prelude.{◌≡◌, ◌↔◌, ◌||◌, ◌⊎◌, true, false, List, [], ◌∷◌, Ok, Contains};
ghost use Rattle.std.specs.List.{list_any};
ghost use Rattle.reg_op.specs.Set as set;
ghost use Rattle.reg_op.specs.declared.operation.OpBody.{OpBody as Body};
ghost use Rattle.reg_op.specs.Ids.{Ids};
ghost use Rattle.reg_op.specs.Operations.{Op, Ops, OneBody, ids, kept};
ghost use Rattle.reg_op.specs.Contents.{Content, state, nothing, joined, IsContent};
ghost use Rattle.reg_op.specs.Joining.{all_joined, SameMembers};
ghost use Rattle.reg_op.specs.Pieces.{Piece, joined_piece};
ghost use Rattle.reg_report.specs.Conflicts.{KeyBytes};
ghost use Rattle.reg_tree.specs.Over.{over, piece_over};
ghost use Rattle.reg_tree.specs.Sayings.{IsSaidBy, IsWithdrawnBy, Keys, Saying, By, Withdrawn, tells, says, undone, is_link};

/// A content says that X is superseded by Y by each supersession of an entry of X by an entry of Y, both entered, neither
/// retired, if the second is no entry of X; and that X is withdrawn, by each retirement of an entry of X, if each entry of X is
/// retired. Pruning changes nothing of this.
pub fn what_is_said()
    ensures by { (has : Keys KeyBytes) (s : Ops) (old newer : KeyBytes) (b : Body) →
        (tells has s (By old newer) b ≡ true) ↔ IsSaidBy has s old newer b }
    ensures withdrawn { (has : Keys KeyBytes) (s : Ops) (key : KeyBytes) (b : Body) →
        (tells has s (Withdrawn key) b ≡ true) ↔ IsWithdrawnBy has s key b }
    ensures pruned { (has : Keys KeyBytes) (s : Ops) (seen : Ids) (saying : Saying KeyBytes) →
        says has (record { ops = kept s; seen = seen }) saying ≡ says has (record { ops = s; seen = seen }) saying }
{}

/// What is undone is said by an input and not by the join. What an input says by an operation that no other input has seen is
/// said by the join, or undone; it is enough that the others that have seen the operation say it too. What, for each operation by
/// which an input says it, an input has seen without saying it, is not undone.
pub fn met_by_accident()
    ensures lost { (has : Keys KeyBytes) (xs : List Content) (z : Content) (s : Saying KeyBytes) → undone has xs z s ≡ true →
        (says has z s ≡ false) × (list_any (λ x. says has x s) xs ≡ true) }
    ensures alone { (has : Keys KeyBytes) (xs : List Content) (z x : Content) (s : Saying KeyBytes) (o : Op) → Contains xs x → set.contains x.ops o ≡ true →
        tells has x.ops s o.body ≡ true → ((y : Content) → Contains xs y → (y ≡ x) ⊎ (set.contains y.seen o.id ≡ false)) →
        (says has z s || undone has xs z s) ≡ true }
    ensures all_say { (has : Keys KeyBytes) (xs : List Content) (z x : Content) (s : Saying KeyBytes) (o : Op) → Contains xs x → set.contains x.ops o ≡ true →
        tells has x.ops s o.body ≡ true → ((y : Content) → Contains xs y → set.contains y.seen o.id ≡ true → says has y s ≡ true) →
        (says has z s || undone has xs z s) ≡ true }
    ensures taken_back { (has : Keys KeyBytes) (xs : List Content) (z : Content) (s : Saying KeyBytes) →
        ((x : Content) (o : Op) → Contains xs x → set.contains x.ops o ≡ true → tells has x.ops s o.body ≡ true →
        (y : Content) × Contains xs y × (set.contains y.seen o.id ≡ true) × (says has y s ≡ false)) →
        undone has xs z s ≡ false }
{}

/// Where the join is an input that has seen all, nothing is undone. So between the contents of a set of operations and of a part
/// of it, and between a join and what was joined.
pub fn old_files_are_silent()
    ensures all_seen { (has : Keys KeyBytes) (xs : List Content) (z : Content) (s : Saying KeyBytes) → Contains xs z →
        ((x : Content) (o : Op) → Contains xs x → set.contains x.ops o ≡ true → set.contains z.seen o.id ≡ true) →
        undone has xs z s ≡ false }
    ensures part { (has : Keys KeyBytes) (whole part : Ops) (z : Content) (s : Saying KeyBytes) →
        ((o : Op) → set.contains part o ≡ true → set.contains whole o ≡ true) → joined (state whole) (state part) ≡ Ok z →
        undone has (state whole ∷ state part ∷ []) z s ≡ false }
    ensures once { (has : Keys KeyBytes) (x y z w : Content) (s : Saying KeyBytes) → IsContent x → IsContent y → joined x y ≡ Ok z → joined z x ≡ Ok w →
        undone has (z ∷ x ∷ []) w s ≡ false }
{}

/// The order of the inputs is nothing, nor is their number.
pub fn order_is_nothing()
    ensures { (has : Keys KeyBytes) (xs ys : List Content) (z w : Content) (s : Saying KeyBytes) → SameMembers xs ys →
        all_joined joined (Ok nothing) xs ≡ Ok z → all_joined joined (Ok nothing) ys ≡ Ok w →
        undone has xs z s ≡ undone has ys w s }
{}

/// A piece read over the content that it is joined to gives the same join. The whole content of a set of operations, read so,
/// is itself.
pub fn pieces_are_read_over()
    ensures join { (x z : Content) (p : Piece) → joined_piece x p ≡ Ok z → joined x (piece_over x p) ≡ Ok z }
    ensures itself { (s t : Ops) → OneBody (set.union s t) → over (state s) (kept t) (ids t) ≡ state t }
{}

/// What an operation of a set says, its content says. Where two add supersessions to the same operations at once, their join says
/// what either says, and nothing is undone between them.
pub fn done_again_at_once()
    ensures accepted { (has : Keys KeyBytes) (s : Ops) (o : Op) (saying : Saying KeyBytes) → set.contains s o ≡ true → tells has s saying o.body ≡ true →
        says has (state s) saying ≡ true }
    ensures at_once { (has : Keys KeyBytes) (s a b : Ops) (z : Content) (saying : Saying KeyBytes) → ((o : Op) → set.contains a o ≡ true → is_link o.body ≡ true) →
        ((o : Op) → set.contains b o ≡ true → is_link o.body ≡ true) → joined (state (set.union s a)) (state (set.union s b)) ≡ Ok z →
        ((says has (state (set.union s a)) saying || says has (state (set.union s b)) saying) ≡ true → says has z saying ≡ true)
        × (undone has (state (set.union s a) ∷ state (set.union s b) ∷ []) z saying ≡ false) }
{}
