//! The laws of merges, of exports, and of commands on words. The functions do nothing: their contracts are the laws.

ghost use Rattle.std.specs.Prelude.{◌≡◌, ◌↔◌, ◌⊎◌, ◌∷◌, [], ℕ, List, map, Contains};
ghost use Rattle.crs_value.specs.declared.crs.Crs.{Crs};
ghost use Rattle.wkt_crs.specs.Definition.{IsCrsOf};
ghost use Rattle.reg_op.specs.Ids.{Id};
ghost use Rattle.reg_op.specs.Operations.{Ops, OneBody};
ghost use Rattle.reg_op.specs.Contents.{Content, state, nothing};
ghost use Rattle.reg_op.specs.Rows.{Row, rows};
ghost use Rattle.reg_file.specs.Files.{Holds, IsTooLarge, ReadsAs};
ghost use Rattle.reg_state.specs.ManyLaws.{all_ops, all_seen, all_of};
ghost use Rattle.reg_file.specs.declared.parts.Part.{Part};
ghost use Rattle.reg_file.specs.declared.parts.Part.TheVariants as part;
ghost use Rattle.reg_keys.specs.Named.{StandsFor};
ghost use Rattle.reg_keys.specs.declared.fault.KeyFault.{KeyFault};
ghost use Rattle.reg_office.specs.Commands.{supersessions};
ghost use Rattle.reg_engine.specs.declared.fault.CliFault.{CliFault};
ghost use Rattle.reg_engine.specs.declared.fault.CliFault.TheVariants.{Memory};
ghost use Rattle.reg_commands.specs.Merge.{IsMergeOf, brought};
ghost use Rattle.reg_commands.specs.Change.{Makes, CannotMake};
ghost use Rattle.reg_commands.specs.Meaning.{MeanBoth, AreMeaningless, StandForBoth, FailForBoth};
ghost use Rattle.reg_commands.specs.Keyed.{PrintsFor, RefusesFor, MakesFor, CannotMakeFor, SupersedesEach, CannotSupersedeEach};

use crate::words::{ChangeOf, PrintOf};

/// Two lists of registers and pieces that bring the same operations and the same ids merge to the same bytes if both can be
/// merged, in any order and with any repeats. If all are registers of offices that took sets of operations with one body for
/// each id, the result is the file of an office that took all operations.
pub fn merge_of_many()
    ensures order { (ps qs : List Part) (bytes others : List ℕ) → all_ops (brought ps) ≡ all_ops (brought qs)
        → all_seen (brought ps) ≡ all_seen (brought qs) → IsMergeOf ps bytes → IsMergeOf qs others → bytes ≡ others }
    ensures states { (ss : List Ops) (bytes : List ℕ) → OneBody (all_of ss) → IsMergeOf (map part.Register (map state ss)) bytes → Holds bytes (state (all_of ss)) }
{}

/// Each entry of a register that is read from a file has a definition that is the canonical text of a value. So the texts
/// that an export of the file prints are read back as these values.
pub fn exported_is_read()
    ensures { (bytes : List ℕ) (x : Content) → ReadsAs bytes x → (r : Row) → Contains (rows x.ops) r → (v : Crs) × IsCrsOf v r.definition }
{}

/// The file of the empty register is within the limit.
pub fn nothing_is_small()
    ensures { IsTooLarge nothing → ⊥ }
{}

/// With a word that names an entry, a command prints exactly the text that it prints for the entry, and is refused for exactly
/// the reasons for which it refuses the entry; or memory runs out.
pub fn a_word_is_its_entry<C: PrintOf>(command: &C)
    ensures prints { (word : List ℕ) (x : Content) (entry : Id) (text : List ℕ) → StandsFor (rows x.ops) word entry
        → PrintsFor (C.prints command.now) word x text ↔ C.prints command.now entry x text }
    ensures refuses { (word : List ℕ) (x : Content) (entry : Id) (fault : CliFault) → StandsFor (rows x.ops) word entry
        → RefusesFor (C.refuses command.now) word x fault ↔ (C.refuses command.now entry x fault ⊎ (fault ≡ Memory)) }
{}

/// With words that mean entries, a command makes exactly the register and lines that it makes for these lists of entries, and is
/// refused for exactly the reasons for which it refuses them; or memory runs out. The register x was read, and it works on z.
pub fn words_are_their_entries<C: ChangeOf>(command: &C)
    ensures makes { (every each : List (List ℕ)) (x z y : Content) (es fs : List Id) (lines : List ℕ) → MeanBoth (rows x.ops) (rows z.ops) every each es fs
        → MakesFor (C.makes command.now) every each x z y lines ↔ C.makes command.now es fs x z y lines }
    ensures refuses { (every each : List (List ℕ)) (x z : Content) (es fs : List Id) (fault : CliFault) → MeanBoth (rows x.ops) (rows z.ops) every each es fs
        → CannotMakeFor (C.refuses command.now) every each x z fault ↔ (C.refuses command.now es fs x z fault ⊎ (fault ≡ Memory)) }
{}

/// Without an office file a command works on the register that was read, and words mean exactly the entries for which they stand in it.
pub fn words_without_an_office_file()
    ensures mean { (rs : List Row) (every each : List (List ℕ)) (es fs : List Id) → MeanBoth rs rs every each es fs ↔ StandForBoth rs every each es fs }
    ensures fail { (rs : List Row) (every each : List (List ℕ)) (fault : KeyFault) → AreMeaningless rs rs every each fault ↔ FailForBoth rs every each fault }
{}

/// For one old entry, `supersede` by words is `supersede`.
pub fn one_old_entry()
    ensures makes { (replica note : List ℕ) (old : Id) (newer : List Id) (x y : Content) (lines : List ℕ)
        → SupersedesEach replica note (old ∷ []) newer x y lines ↔ Makes replica note (supersessions old newer) x y lines }
    ensures refuses { (replica note : List ℕ) (old : Id) (newer : List Id) (x : Content) (fault : CliFault)
        → CannotSupersedeEach replica note (old ∷ []) newer x fault ↔ CannotMake replica note (supersessions old newer) x fault }
{}
