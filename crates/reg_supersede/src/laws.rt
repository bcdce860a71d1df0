//! The laws of lists of supersessions. The functions do nothing: their contracts are the laws.

ghost use Rattle.std.specs.Prelude.{◌≡◌, ◌↔◌, ◌≤◌, ℕ, Bool, List, [], ◌∷◌, length, Err};
ghost use Rattle.reg_op.specs.Ids.{Id};
ghost use Rattle.reg_op.specs.Operations.{Ops};
ghost use Rattle.reg_op.specs.Contents.{Content, IsContent};
ghost use Rattle.reg_op.specs.Rows.{rows};
ghost use Rattle.reg_engine.specs.declared.fault.CliFault.{CliFault};
ghost use Rattle.reg_engine.specs.declared.fault.CliFault.TheVariants.{Memory};
ghost use Rattle.reg_keys.specs.declared.fault.KeyFault.{KeyFault};
ghost use Rattle.reg_keys.specs.Every.{StandsForEvery, StandForEach, FailsAt};
ghost use Rattle.reg_office.specs.declared.fault.OfficeFault.{OfficeFault};
ghost use Rattle.reg_office.specs.Making.{made};
ghost use Rattle.reg_office.specs.Commands.{supersessions, Does};
ghost use Rattle.reg_supersede.specs.declared.fault.LineFault.TheVariants as line;
ghost use Rattle.reg_supersede.specs.declared.fault.RefusedLine.{RefusedLine};
ghost use Rattle.reg_supersede.specs.Engine.{task, DoesList, CannotDoList};
ghost use Rattle.reg_supersede.specs.Lines.{words};
ghost use Rattle.reg_supersede.specs.Lists.{Task, pairs_of, lacking, effects_of, DoesAll, StopsAt};

/// A list of one line, whose words stand for old entries and for entries that supersede them, is one command with the pairs that are
/// not there yet: it does the same, and is refused for the same reasons. With one old entry and none of its pairs there, this is the
/// command `supersede`.
pub fn one_line()
    ensures does { (t : Task) (x y : Content) (text w v : List ℕ) (ws : List (List ℕ)) (olds newer ids : List Id)
        → words text ≡ w ∷ v ∷ ws → StandsForEvery t.rows w olds → StandForEach t.rows (v ∷ ws) newer
        → DoesAll t 1 x (text ∷ []) y ids [] ↔ Does x t.replica t.note (effects_of x.ops olds newer) y ids }
    ensures refuses { (t : Task) (x : Content) (text w v : List ℕ) (ws : List (List ℕ)) (olds newer : List Id) (f : OfficeFault)
        → words text ≡ w ∷ v ∷ ws → StandsForEvery t.rows w olds → StandForEach t.rows (v ∷ ws) newer
        → StopsAt t 1 x (text ∷ []) (record { line = 1; fault = line.Office f }) ↔ (made x t.replica t.note (effects_of x.ops olds newer) ≡ Err f) }
    ensures command { (ops : Ops) (old : Id) (newer : List Id) → lacking ops [] (pairs_of (old ∷ []) newer) ≡ pairs_of (old ∷ []) newer
        → effects_of ops (old ∷ []) newer ≡ supersessions old newer }
{}

/// A list all of whose lines were done, run again on the register that it left, makes nothing: the register stays as it is, no id is
/// printed, and no line is left out. It is not refused, unless memory runs out. This is so whichever office runs it again, with any
/// note that is not too long, and whether refused lines would be left out or not.
pub fn a_list_run_again()
    ensures again { (r n s m bytes text : List ℕ) (keys g h : Bool) (x y : Content) → IsContent y → length m ≤ 200 → DoesList (task r n keys g x) bytes x y text []
        → DoesList (task s m keys h y) bytes y y [] [] }
    ensures nothing { (r n s m bytes text more : List ℕ) (keys g h : Bool) (x y z : Content) (left : List RefusedLine) → IsContent y → DoesList (task r n keys g x) bytes x y text []
        → DoesList (task s m keys h y) bytes y z more left → (z ≡ y) × (more ≡ []) × (left ≡ []) }
    ensures refused { (r n s m bytes text : List ℕ) (keys g h : Bool) (x y : Content) (before told : List RefusedLine) (f : CliFault) → IsContent y → length m ≤ 200
        → DoesList (task r n keys g x) bytes x y text [] → CannotDoList (task s m keys h y) bytes y before told f → f ≡ Memory }
{}

/// A list changes nothing about what words stand for, so it makes no difference whether they are looked up before the list, as they
/// are, or after any of its lines.
pub fn words_stay()
    ensures every { (t : Task) (n : ℕ) (x y : Content) (texts : List (List ℕ)) (ids : List Id) (left : List RefusedLine) (word : List ℕ) (es : List Id) → DoesAll t n x texts y ids left
        → StandsForEvery (rows x.ops) word es ↔ StandsForEvery (rows y.ops) word es }
    ensures each { (t : Task) (n : ℕ) (x y : Content) (texts : List (List ℕ)) (ids : List Id) (left : List RefusedLine) (ws : List (List ℕ)) (es : List Id) → DoesAll t n x texts y ids left
        → StandForEach (rows x.ops) ws es ↔ StandForEach (rows y.ops) ws es }
    ensures fault { (t : Task) (n : ℕ) (x y : Content) (texts : List (List ℕ)) (ids : List Id) (left : List RefusedLine) (ws : List (List ℕ)) (k : ℕ) (f : KeyFault) → DoesAll t n x texts y ids left
        → FailsAt (rows x.ops) 0 ws k f ↔ FailsAt (rows y.ops) 0 ws k f }
{}
