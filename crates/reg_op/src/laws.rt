//! The laws of sets of operations. The functions do nothing: their contracts are the laws.

ghost use Rattle.std.specs.Prelude.{◌≡◌, ◌↔◌, ℕ, Bool, true, List, Some, None, Ok, Err};
ghost use Rattle.reg_op.specs.Set as set;
ghost use Rattle.reg_op.specs.Ids.{Id, IsId, Ids};
ghost use Rattle.reg_op.specs.Operations.{Ops, OneBody, ids, kept, first_clash};
ghost use Rattle.reg_op.specs.Contents.{Content, state, nothing, joined, joined_both, AreOperations, IsContent};
ghost use Rattle.reg_op.specs.Status.{status, retires, is_replaced_by};
ghost use Rattle.reg_op.specs.Rows.{rows, awaited, IsInConflict};
ghost use Rattle.reg_op.specs.Kept.{entering, superseding, retiring, first_dropped, IsLeastRetirement, IsLeastSupersession, IsLeastClash, IsLeastDropped};
ghost use Rattle.reg_op.specs.Pieces.{Piece, Basis, Clash, part_of, piece_for, IsPiece, IsHeld, first_missing, IsLeastMissing, joined_piece};

/// Pruning a union is pruning the union of the pruned parts.
pub fn kept_of_union()
    ensures { (s t : Ops) → kept (set.union s t) ≡ kept (set.union (kept s) (kept t)) }
{}

/// The kept operations are all Enters, the least retirement of an entry, and the least supersession of a pair whose
/// old entry is not retired. Each keeps its own note.
pub fn least_are_kept()
    ensures enters { (s : Ops) (i : Id) (text note : List ℕ) →
        set.contains (kept s) (entering i text note) ≡ set.contains s (entering i text note) }
    ensures retirements { (s : Ops) (i e : Id) (note : List ℕ) →
        (set.contains (kept s) (retiring i e note) ≡ true) ↔ IsLeastRetirement s i e note }
    ensures supersessions { (s : Ops) (i old newer : Id) (note : List ℕ) →
        (set.contains (kept s) (superseding i old newer note) ≡ true) ↔ IsLeastSupersession s i old newer note }
{}

/// Pruning does not change statuses, rows, keys in conflict and awaited ids. The keys of a text are a parameter.
pub fn status_of_kept()
    ensures status { (s : Ops) (e : Id) → status (kept s) e ≡ status s e }
    ensures replaced_by { (s : Ops) (e n : Id) → is_replaced_by (kept s) e n ≡ is_replaced_by s e n }
    ensures rows { (s : Ops) → rows (kept s) ≡ rows s }
    ensures conflicts { (has : List ℕ → List ℕ → Bool) (s : Ops) (key : List ℕ) →
        IsInConflict (λ text k. has text k ≡ true) (rows (kept s)) key ↔ IsInConflict (λ text k. has text k ≡ true) (rows s) key }
    ensures awaited { (s : Ops) → awaited (kept s) ≡ awaited s }
{}

/// A clash of a set is at the least id with two bodies; without a clash, no id has two.
pub fn clash_is_least()
    ensures least { (s : Ops) (i : Id) → (first_clash s ≡ Some i) ↔ IsLeastClash s i }
    ensures none { (s : Ops) → (first_clash s ≡ None) ↔ OneBody s }
{}

/// `first_dropped` is the least redundant operation. If there is none, pruning changes nothing.
pub fn dropped_is_least()
    ensures least { (s : Ops) (i : Id) → (first_dropped s ≡ Some i) ↔ IsLeastDropped s i }
    ensures none { (s : Ops) → (first_dropped s ≡ None) ↔ (kept s ≡ s) }
{}

/// The join of contents is commutative, clashes included. It is idempotent, the empty content is neutral, and it is
/// associative if the three have one body for each id.
pub fn join_of_contents()
    ensures commutative { (x y : Content) → joined x y ≡ joined y x }
    ensures associative { (x y z : Content) → OneBody (set.union (set.union x.ops y.ops) z.ops) →
        joined_both (joined x y) (Ok z) ≡ joined_both (Ok x) (joined y z) }
    ensures idempotent { (x : Content) → IsContent x → joined x x ≡ Ok x }
    ensures neutral { (x : Content) → IsContent x → joined nothing x ≡ Ok x }
    ensures content { (x y z : Content) → IsContent x → IsContent y → joined x y ≡ Ok z → IsContent z }
    ensures retired { (x y z : Content) (e : Id) → joined x y ≡ Ok z → retires x.ops e ≡ true → retires z.ops e ≡ true }
{}

/// The contents of two sets of operations join to that of the union.
pub fn join_of_states()
    ensures of_union { (s t : Ops) → OneBody (set.union s t) → joined (state s) (state t) ≡ Ok (state (set.union s t)) }
    ensures content { (s : Ops) → AreOperations s → OneBody s → IsContent (state s) }
{}

/// The piece of a content is a piece. The first missing id of a basis is the least; if there is none, the basis is
/// held.
pub fn pieces_are()
    ensures piece { (x : Content) (basis : Ids) → IsContent x → ((i : Id) → set.contains basis i ≡ true → IsId i) →
        IsPiece (piece_for x basis) }
    ensures missing { (basis seen : Ids) (i : Id) → (first_missing basis seen ≡ Some i) ↔ IsLeastMissing basis seen i }
    ensures held { (basis seen : Ids) → (first_missing basis seen ≡ None) ↔ IsHeld basis seen }
{}

/// A piece whose basis is held joins like a content. Another piece is refused with the least id of its basis that was
/// not seen. The join is a content.
pub fn join_of_piece()
    ensures ok { (x z : Content) (p : Piece) →
        (joined_piece x p ≡ Ok z) ↔ (IsHeld p.basis x.seen × (joined x (part_of p) ≡ Ok z)) }
    ensures basis { (x : Content) (p : Piece) (i : Id) →
        (joined_piece x p ≡ Err (Basis i)) ↔ IsLeastMissing p.basis x.seen i }
    ensures clash { (x : Content) (p : Piece) (i : Id) →
        (joined_piece x p ≡ Err (Clash i)) ↔ (IsHeld p.basis x.seen × (joined x (part_of p) ≡ Err i)) }
    ensures content { (x z : Content) (p : Piece) → IsContent x → IsPiece p → joined_piece x p ≡ Ok z → IsContent z }
{}

/// The piece of one set of operations, joined to the content of another set that holds its basis, gives the content
/// of the union.
pub fn pieces_join()
    ensures { (s t : Ops) (basis : Ids) → OneBody (set.union s t) → IsHeld basis (ids t) →
        joined_piece (state t) (piece_for (state s) basis) ≡ Ok (state (set.union s t)) }
{}
