//! Laws of takes. The functions do nothing: their contracts are the laws.

ghost use Rattle.std.specs.Prelude.{◌≡◌, ℕ, List, [], ◌∷◌, Some};
ghost use Rattle.reg_op.specs.Contents.{Content, IsContent};
ghost use Rattle.reg_file.specs.declared.parts.Part.{Part};
ghost use Rattle.reg_file.specs.declared.parts.Part.TheVariants as part;
ghost use Rattle.reg_commands.specs.Merge.{JoinTo, join_of, IsUnjoined};
ghost use Rattle.reg_journal.specs.Journal.{Journal, IsOffice};
ghost use Rattle.reg_journal.specs.Standing.{Admits};
ghost use Rattle.reg_take.specs.declared.options.TakeOptions.{TakeOptions};
ghost use Rattle.reg_take.specs.declared.taking.LeftOut.{LeftOut};
ghost use Rattle.reg_take.specs.Files.{FileState, judged};
ghost use Rattle.reg_take.specs.Take.{Takes};
ghost use Rattle.reg_take.specs.Own.{HasOnlyGiven};
ghost use Rattle.reg_take.specs.Taken.{fault_of, parts_given, all_taken};

/// If every file gave a part, then a take that leaves none out has the result of a merge of the register and the files; otherwise
/// the first file that is left out has the fault of that merge.
pub fn a_take_is_a_merge()
    ensures joins { (x : Content) (ps : List Part) → IsContent x → (all_taken x (parts_given ps)).left ≡ [] → JoinTo (part.Register x ∷ ps) (all_taken x (parts_given ps)).content }
    ensures refused { (x : Content) (ps : List Part) (l : LeftOut) (ls : List LeftOut) → IsContent x → (all_taken x (parts_given ps)).left ≡ l ∷ ls → IsUnjoined (join_of (part.Register x ∷ ps)) (fault_of l) }
{}

/// With an office file, nobody speaks in the office's name: the register to which files are joined has only numbers that the office gave,
/// and so has the result, whatever the files are.
pub fn nobody_speaks_in_an_office_s_name()
    ensures admitted { (f : Journal) (x z : Content) → IsOffice f → Admits f x z → HasOnlyGiven f z }
    ensures taken { (f : Journal) (how : TakeOptions) (next : ℕ) (old new : List FileState) (x y : Content) (left : List LeftOut)
        → judged how ≡ Some f → Takes how next old new x y left → HasOnlyGiven f x → HasOnlyGiven f y }
{}
