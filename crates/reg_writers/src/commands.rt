//! What the engines do with a register is a list of steps. The functions do nothing: their contracts are the laws.

ghost use Rattle.std.specs.Prelude.{◌≡◌, ◌∷◌, ◌++◌, ℕ, Bool, List, [], Ok};
ghost use Rattle.reg_op.specs.Ids.{Id};
ghost use Rattle.reg_op.specs.Contents.{Content, IsContent, nothing, joined};
ghost use Rattle.reg_op.specs.Pieces.{Piece};
ghost use Rattle.reg_op.specs.Joining.{all_joined};
ghost use Rattle.reg_commands.specs.Merge.{begun, with_pieces};
ghost use Rattle.reg_supersede.specs.Lists.{Task, DoesAll};
ghost use Rattle.reg_supersede.specs.declared.fault.RefusedLine.{RefusedLine};
ghost use Rattle.reg_disorder.specs.declared.linking.link.Link.{Link};
ghost use Rattle.reg_disorder.specs.Passing.{PassesOn};
ghost use Rattle.reg_disorder.specs.Retiring.{RetiresFor};
ghost use Rattle.reg_import.specs.declared.reading.ReadText.{ReadText};
ghost use Rattle.reg_import.specs.declared.action.Differs.{Differs};
ghost use Rattle.reg_import.specs.declared.action.TextAction.{TextAction};
ghost use Rattle.reg_import.specs.Plans.{Imports};
ghost use Rattle.reg_writers.specs.Registers.{IsReached};

/// A list of supersessions: a step for each line that is not blank, without the lines that are left out.
pub fn a_list_is_steps()
    ensures { (t : Task) (n : ℕ) (x : Content) (lines : List (List ℕ)) (y : Content) (ids : List Id) (left : List RefusedLine) →
        DoesAll t n x lines y ids left → IsReached x y ids }
{}

/// Entries that are retired for others: the retirements, and then the links that pass on.
pub fn retiring_is_steps()
    ensures { (x : Content) (replica note : List ℕ) (entries : List Id) (y : Content) (ids : List Id) →
        RetiresFor x replica note entries y ids → IsReached x y ids }
{}

/// Texts that are imported, and then the links that pass on.
pub fn an_import_is_steps()
    ensures { (x : Content) (replica note : List ℕ) (differs : Differs) (keep_going : Bool) (readings : List ReadText) (m : Content) (ts : List TextAction) (before links : List Link) (y : Content) (ids : List Id) →
        (i : Imports x replica note differs keep_going readings m ts) → PassesOn before m replica note y links ids →
        IsReached x y (i.ids ++ ids) }
{}

/// Registers and pieces that are joined to a register: those that are left out are not among them.
pub fn a_merge_is_steps()
    ensures { (x : Content) (others : List Content) (pieces : List Piece) (y : Content) → IsContent x →
        with_pieces (begun (all_joined joined (Ok nothing) (x ∷ others))) pieces ≡ Ok y → IsReached x y [] }
{}
