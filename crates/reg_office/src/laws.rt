//! The laws of commands, of reports, and of every world. The functions do nothing: their contracts are the laws.

ghost use Rattle.std.specs.Prelude.{◌≡◌, ◌≢◌, ◌↔◌, ◌⊎◌, ◌+◌, ◌++◌, ◌<◌, ◌≤◌, ℕ, List, [], ◌∷◌, map, length, slice_get, true, false, None, Some, Ok, Err};
ghost use Rattle.reg_op.specs.Set as set;
ghost use Rattle.reg_op.specs.Ids.{Id, Ids};
ghost use Rattle.reg_op.specs.Lists.{has, ById};
ghost use Rattle.reg_op.specs.Operations.{Op, op_cmp, one, ids, OneBody};
ghost use Rattle.reg_op.specs.declared.operation.OpBody.{OpBody as Body};
ghost use Rattle.reg_op.specs.declared.operation.OpBody.TheVariants.{Enter};
ghost use Rattle.reg_op.specs.Contents.{Content, state, merged, joined, IsContent};
ghost use Rattle.reg_op.specs.declared.status.Status.TheVariants.{Retired};
ghost use Rattle.reg_op.specs.Status.{status};
ghost use Rattle.reg_state.specs.Runs.{ids_from, IsGreatest};
ghost use Rattle.reg_state.specs.ManyLaws.{all_of};
ghost use Rattle.reg_file.specs.Files.{Holds, HoldsSeen, HoldsPiece, ReadsAs, ReadsAsSeen, ReadsAsPiece};
ghost use Rattle.reg_shelf.specs.Shelf.{IsShelf};
ghost use Rattle.reg_office.specs.declared.fault.OfficeFault.{OfficeFault};
ghost use Rattle.reg_office.specs.declared.fault.OfficeFault.TheVariants as fault;
ghost use Rattle.reg_office.specs.Commands.{retirements, supersessions};
ghost use Rattle.reg_report.specs.Exports.{export};
ghost use Rattle.reg_office.specs.Making.{greatest, numbered, objections, made};
ghost use Rattle.reg_report.specs.declared.writing.ReportKind.{ReportKind};
ghost use Rattle.reg_report.specs.Reports.{IsReport, IsOpsReport};
ghost use Rattle.reg_op.specs.Pieces.{Piece, piece_for, IsHeld};
ghost use Rattle.reg_office.specs.Pooled.{Pooled, ReadsAsAny, ops_in, TellsOf};
ghost use Rattle.reg_office.specs.Reached.{Reaches, WasMade};
ghost use Rattle.reg_office.specs.World.{World, start, Event, Make, Send, SendSeen, SendPiece, SendFirst, Take, TakeOne, Restart, Upgrade, Stop, office_of, Sent, Outcome, Clashes, IsEvent, IsKept, IsTooMuch, IsWorld, ComesOf, After, pooled, Happens, Leads};

/// New operations have the effects of the command in order, numbered consecutively from the greatest own count seen
/// plus one. None of their ids was seen before, and so they join the content without a clash.
pub fn numbers_are_new()
    ensures greatest { (replica : List ℕ) (seen : Ids) → IsGreatest seen replica (greatest replica seen) }
    ensures bodies { (x : Content) (replica note : List ℕ) (bodies : List Body) (os : List Op) → made x replica note bodies ≡ Ok os → map (λ o. o.body) os ≡ bodies }
    ensures notes { (x : Content) (replica note : List ℕ) (bodies : List Body) (os : List Op) (o : Op) → made x replica note bodies ≡ Ok os → has os o ≡ true → o.note ≡ note }
    ensures numbers { (x : Content) (replica note : List ℕ) (bodies : List Body) (os : List Op) → made x replica note bodies ≡ Ok os → map (λ o. o.id) os ≡ ids_from replica (greatest replica x.seen + 1) (length bodies) }
    ensures unseen { (x : Content) (replica note : List ℕ) (bodies : List Body) (os : List Op) (o : Op) → made x replica note bodies ≡ Ok os → has os o ≡ true → set.contains x.seen o.id ≡ false }
    ensures once { (x : Content) (replica note : List ℕ) (bodies : List Body) (os : List Op) (p o : Op) → made x replica note bodies ≡ Ok os → has os p ≡ true → has os o ≡ true → p.id ≡ o.id → p ≡ o }
    ensures joined { (x : Content) (replica note : List ℕ) (bodies : List Body) (os : List Op) → IsContent x → made x replica note bodies ≡ Ok os
        → joined x (state (set.from_list {R = op_cmp} os)) ≡ Ok (merged x (state (set.from_list {R = op_cmp} os))) }
{}

/// A note of more than 200 bytes is refused before anything else, even if the command names nothing.
pub fn long_notes_are_refused_first()
    ensures { (x : Content) (replica note : List ℕ) (bodies : List Body) → (made x replica note bodies ≡ Err fault.NoteTooLong) ↔ (200 < length note) }
{}

/// `CountSpent` is returned exactly if there is no other refusal, and the number of the last operation would exceed
/// 4,294,967,295.
pub fn counts_are_spent_last()
    ensures { (x : Content) (replica note : List ℕ) (bodies : List Body) → (made x replica note bodies ≡ Err fault.CountSpent)
        ↔ ((length note ≤ 200) × (objections x (numbered replica (greatest replica x.seen + 1) note bodies) ≡ None) × (0 < length bodies) × (4294967295 < greatest replica x.seen + length bodies)) }
{}

/// Each operation that a command makes is kept, since its effect is new.
pub fn effects_are_kept()
    ensures entered { (x : Content) (replica note text : List ℕ) (os : List Op) (o : Op) → made x replica note (Enter text ∷ []) ≡ Ok os → has os o ≡ true
        → set.contains (merged x (state (set.from_list {R = op_cmp} os))).ops o ≡ true }
    ensures retired { (x : Content) (replica note : List ℕ) (entries : List Id) (os : List Op) (o : Op) → made x replica note (retirements entries) ≡ Ok os → has os o ≡ true
        → set.contains (merged x (state (set.from_list {R = op_cmp} os))).ops o ≡ true }
    ensures superseded { (x : Content) (replica note : List ℕ) (old : Id) (newer : List Id) (os : List Op) (o : Op) → made x replica note (supersessions old newer) ≡ Ok os → has os o ≡ true
        → set.contains (merged x (state (set.from_list {R = op_cmp} os))).ops o ≡ true }
{}

/// The theorem on every world: any number of offices, each with its own UUID, after any list of events. Files are lost,
/// late, repeated and out of order. Offices restart from their last files, or from the bytes that a stop leaves on their
/// shelves. Some may still keep and send files of version 1.
pub fn every_world()
    // ---- The promise.
    // The content of an office is the state of all operations that it made and received, although some were pruned on the
    // way.
    ensures content { (w : World) → IsWorld w → (i : List ℕ) → (w.offices i).content ≡ state (w.offices i).reached }
    // Its last file is the file of that content.
    ensures last { (w : World) → IsWorld w → (i : List ℕ) → Holds (w.offices i).last (state (w.offices i).reached) }
    // Each sent file holds the state of the operations that its sender had reached, or their ids, or a piece of the state.
    ensures pool { (w : World) → IsWorld w → (place : ℕ) (sent : Sent) → slice_get w.pool place ≡ Some sent
        → (what : Pooled) × ReadsAsAny sent.bytes what × TellsOf sent.reached what }
    // Offices that reached the same have the same content, and the same file, byte for byte.
    ensures same { (w : World) → IsWorld w → (i j : List ℕ) → (w.offices i).reached ≡ (w.offices j).reached
        → ((w.offices i).content ≡ (w.offices j).content) × ((w.offices i).last ≡ (w.offices j).last) }
    // Their reports and exports are the same too.
    ensures same_reports { (w : World) → IsWorld w → (i j : List ℕ) → (w.offices i).reached ≡ (w.offices j).reached → (kind : ReportKind) (text other : List ℕ)
        → IsReport kind (w.offices i).content text → IsReport kind (w.offices j).content other → text ≡ other }
    ensures same_ops_reports { (w : World) → IsWorld w → (i j : List ℕ) → (w.offices i).reached ≡ (w.offices j).reached → (text other : List ℕ)
        → IsOpsReport (w.offices i).content text → IsOpsReport (w.offices j).content other → text ≡ other }
    ensures same_exports { (w : World) → IsWorld w → (i j : List ℕ) → (w.offices i).reached ≡ (w.offices j).reached
        → export (w.offices i).content.ops ≡ export (w.offices j).content.ops }
    // An entry that is retired at an office stays retired there.
    ensures stays_retired { (w v : World) (later : List Event) → IsWorld w → Leads w later v → (i : List ℕ) (entry : Id)
        → status (w.offices i).content.ops entry ≡ Some Retired → status (v.offices i).content.ops entry ≡ Some Retired }
    // Apart from worlds, it stays retired in every join.
    ensures retired_in_joins { (x y z : Content) (entry : Id) → (joined x y ≡ Ok z) ⊎ (joined y x ≡ Ok z)
        → status x.ops entry ≡ Some Retired → status z.ops entry ≡ Some Retired }
    // ---- What reaching means.
    // An office reaches what it makes; a refused command changes nothing.
    ensures made_is_reached { (w v : World) → IsWorld w → (i : List ℕ) (effects : List Body) (note : List ℕ) (os : List Op) → made (w.offices i).content i note effects ≡ Ok os
        → Happens w (Make i effects note) v → Reaches w i (set.from_list os) v }
    ensures refused_makes_nothing { (w v : World) (i : List ℕ) (effects : List Body) (note : List ℕ) (f : OfficeFault) → made (w.offices i).content i note effects ≡ Err f
        → Happens w (Make i effects note) v → v ≡ w }
    // A sent last file is in the pool, and stays there.
    ensures sent_is_pooled { (w v : World) (i : List ℕ) → Happens w (Send i) v
        → v ≡ pooled w (record { bytes = (w.offices i).last; reached = (w.offices i).reached }) }
    ensures pool_stays { (w v : World) (later : List Event) → Leads w later v → (newer : List Sent) × (v.pool ≡ newer ++ w.pool) }
    // So is a summary of what the office has seen, and its piece for a summary; there is no piece for another file.
    ensures seen_is_pooled { (w v : World) → IsWorld w → (i : List ℕ) → Happens w (SendSeen i) v
        → (bytes : List ℕ) × HoldsSeen bytes (ids (w.offices i).reached) × (v ≡ pooled w (record { bytes = bytes; reached = (w.offices i).reached })) }
    ensures piece_is_pooled { (w v : World) → IsWorld w → (i : List ℕ) (place : ℕ) (sent : Sent) (seen : Ids) → slice_get w.pool place ≡ Some sent
        → ReadsAsSeen sent.bytes seen → Happens w (SendPiece i place) v
        → (bytes : List ℕ) × HoldsPiece bytes (piece_for (state (w.offices i).reached) seen) × (v ≡ pooled w (record { bytes = bytes; reached = (w.offices i).reached })) }
    ensures no_piece_is_pooled { (w v : World) → IsWorld w → (i : List ℕ) (place : ℕ) (sent : Sent) → slice_get w.pool place ≡ Some sent
        → ((seen : Ids) → ¬ (ReadsAsSeen sent.bytes seen)) → Happens w (SendPiece i place) v → v ≡ w }
    // The same for a file of version 1.
    ensures first_is_pooled { (w v : World) (i : List ℕ) (what : Pooled) (bytes : List ℕ) → Happens w (SendFirst i what bytes) v
        → v ≡ pooled w (record { bytes = bytes; reached = (w.offices i).reached }) }
    // By taking a register's file, an office reaches all that the sender had reached.
    ensures taken_is_reached { (w v : World) → IsWorld w → (i : List ℕ) (place : ℕ) (sent : Sent) (x : Content) → slice_get w.pool place ≡ Some sent
        → ReadsAs sent.bytes x → Happens w (Take i place) v → Reaches w i sent.reached v }
    // The same for a piece whose basis it has reached; another piece, or a summary, changes nothing.
    ensures piece_is_reached { (w v : World) → IsWorld w → (i : List ℕ) (place : ℕ) (sent : Sent) (piece : Piece) → slice_get w.pool place ≡ Some sent
        → ReadsAsPiece sent.bytes piece → IsHeld piece.basis (ids (w.offices i).reached) → Happens w (Take i place) v → Reaches w i sent.reached v }
    ensures piece_is_refused { (w v : World) → IsWorld w → (i : List ℕ) (place : ℕ) (sent : Sent) (piece : Piece) → slice_get w.pool place ≡ Some sent
        → ReadsAsPiece sent.bytes piece → ¬ (IsHeld piece.basis (ids (w.offices i).reached)) → Happens w (Take i place) v → v ≡ w }
    ensures summary_is_refused { (w v : World) → IsWorld w → (i : List ℕ) (place : ℕ) (sent : Sent) (seen : Ids) → slice_get w.pool place ≡ Some sent
        → ReadsAsSeen sent.bytes seen → Happens w (Take i place) v → v ≡ w }
    // By taking one operation, it reaches that operation if the file has it, and otherwise nothing.
    ensures one_is_reached { (w v : World) → IsWorld w → (i : List ℕ) (place : ℕ) (id : Id) (sent : Sent) (what : Pooled) (o : Op) → slice_get w.pool place ≡ Some sent
        → ReadsAsAny sent.bytes what → set.contains (ops_in what) o ≡ true → o.id ≡ id → Happens w (TakeOne i place id) v → Reaches w i (one o) v }
    ensures none_is_reached { (w v : World) → IsWorld w → (i : List ℕ) (place : ℕ) (id : Id) (sent : Sent) (what : Pooled) → slice_get w.pool place ≡ Some sent
        → ReadsAsAny sent.bytes what → ((o : Op) → set.contains (ops_in what) o ≡ true → o.id ≢ id) → Happens w (TakeOne i place id) v → v ≡ w }
    // At an index of the pool without a file, taking and answering change nothing.
    ensures nothing_to_take { (w v : World) (i : List ℕ) (place : ℕ) → slice_get w.pool place ≡ None → Happens w (Take i place) v → v ≡ w }
    ensures nothing_to_find { (w v : World) (i : List ℕ) (place : ℕ) (id : Id) → slice_get w.pool place ≡ None → Happens w (TakeOne i place id) v → v ≡ w }
    ensures nothing_to_answer { (w v : World) (i : List ℕ) (place : ℕ) → slice_get w.pool place ≡ None → Happens w (SendPiece i place) v → v ≡ w }
    // A restart changes nothing, nor does one from the file that a program of version 1 kept.
    ensures restart_keeps { (w v : World) → IsWorld w → (i : List ℕ) → Happens w (Restart i) v → v ≡ w }
    ensures upgrade_keeps { (w v : World) → IsWorld w → (i : List ℕ) (bytes : List ℕ) → Happens w (Upgrade i bytes) v → v ≡ w }
    // A stop leaves all of its event or nothing of it, and the office restarts with the content of the bytes that are left.
    // If they are a shelf of the new content, the event has happened; otherwise it has changed nothing.
    ensures stop_is_all_or_nothing { (w v : World) → IsWorld w → (e : Event) (left : List ℕ) → Happens w (Stop e left) v → Happens w e v ⊎ (v ≡ w) }
    ensures stop_leaves_a_shelf { (w v : World) → IsWorld w → (e : Event) (left : List ℕ) → Happens w (Stop e left) v
        → IsShelf left (v.offices (office_of e)).content }
    ensures stop_leaves_the_new { (w u v : World) → IsWorld w → (e : Event) (left : List ℕ) → Happens w (Stop e left) v → Happens w e u
        → IsShelf left (u.offices (office_of e)).content → v ≡ u }
    // ---- Nothing is lost or made twice.
    // Every operation that an office reached was made in an earlier event.
    ensures was_made { (w : World) (events : List Event) → Leads start events w → (i : List ℕ) (o : Op) → set.contains (w.offices i).reached o ≡ true → WasMade start events o }
    // The operations that offices reached have one body for each id.
    ensures one_body { (w : World) → IsWorld w → (offices : List (List ℕ)) → OneBody (all_of (map (λ i. (w.offices i).reached) offices)) }
    // New operations have ids that no office has reached, and that differ from each other.
    ensures new_ids { (w : World) → IsWorld w → (i j : List ℕ) (effects : List Body) (note : List ℕ) (os : List Op) (o p : Op) → made (w.offices i).content i note effects ≡ Ok os
        → has os o ≡ true → set.contains (w.offices j).reached p ≡ true → p.id ≢ o.id }
    ensures own_ids { (w : World) → IsWorld w → (i : List ℕ) (effects : List Body) (note : List ℕ) (os : List Op) → made (w.offices i).content i note effects ≡ Ok os → ById os }
    // Operations that an office has reached stay reached.
    ensures grows { (w v : World) (later : List Event) → IsWorld w → Leads w later v → (i : List ℕ) (o : Op)
        → set.contains (w.offices i).reached o ≡ true → set.contains (v.offices i).reached o ≡ true }
    // If the events of a list make two operations with one id, these are one operation, and one event makes it.
    ensures made_once { (events : List Event) (o p : Op) (one : WasMade start events o) (other : WasMade start events p) → o.id ≡ p.id → (o ≡ p) × (one.before ≡ other.before) }
    // No event ends in a clash.
    ensures no_clash { (w : World) → IsWorld w → (e : Event) (id : Id) → IsEvent w e → ¬ (ComesOf w e (Clashes id)) }
    // ---- Every event has one outcome.
    // Each event has an outcome, and leads to a world unless a file would be too large.
    ensures goes_on { (w : World) → IsWorld w → (e : Event) → IsEvent w e
        → (out : Outcome) × ComesOf w e out × (((v : World) × After w out v) ⊎ IsTooMuch out) }
    // It leads to at most one world.
    ensures one_world { (w u v : World) (e : Event) → Happens w e u → Happens w e v → u ≡ v }
    // An event in which an office makes or takes operations can be stopped. The bytes that are left can be a shelf of the old
    // content, and a shelf of the new one.
    ensures stop_may_leave_the_old { (w : World) → IsWorld w → (e : Event) → IsKept e → IsEvent w e → (left : List ℕ) × IsEvent w (Stop e left) × IsShelf left (w.offices (office_of e)).content }
    ensures stop_may_leave_the_new { (w v : World) → IsWorld w → (e : Event) → IsKept e → Happens w e v → (left : List ℕ) × IsEvent w (Stop e left) × IsShelf left (v.offices (office_of e)).content }
{}
