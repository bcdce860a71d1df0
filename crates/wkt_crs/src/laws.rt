//! The laws of texts and values.

ghost use Rattle.std.specs.Prelude.{◌≡◌, ◌≤◌, length, List, ℕ, Some};
ghost use Rattle.crs_part.specs.declared.crs.CrsParts.{CrsParts};
ghost use Rattle.crs_value.specs.declared.crs.Crs.{Crs};
ghost use Rattle.wkt_tree.specs.Tree.{Tok};
ghost use Rattle.wkt_tree.specs.Faults.{IsOutline};
ghost use Rattle.wkt_grammar.specs.declared.table.Edition.TheVariants as editions;
ghost use Rattle.wkt_grammar.specs.declared.table.Takes.TheVariants as kinds;
ghost use Rattle.wkt_grammar.specs.Slots.{IsClean};
ghost use Rattle.wkt_grammar.specs.Bare.{Bare};
ghost use Rattle.wkt_write.specs.WellFormed.{WellFormed};
ghost use Rattle.wkt_grammar.specs.SecondEdition.{Fitting};
ghost use Rattle.wkt_grammar.specs.Denotes.{DenotesParts};
ghost use Rattle.wkt_crs.specs.declared.fault.ReadFault.{ReadFault};
ghost use Rattle.wkt_crs.specs.declared.fault.ReadFault.TheVariants as fault;
ghost use Rattle.wkt_grammar.specs.FirstEdition.{NothingAdded};
ghost use Rattle.wkt_crs.specs.Spells.{FirstSpells, Spells, canon, pretty};
ghost use Rattle.wkt_crs.specs.Faults.{FirstFault};
ghost use Rattle.wkt_crs.specs.Verdict.{HasVerdict};

use wkt_grammar::{Edition, check_slots};
use wkt_tree::scan;

/// A tree denotes a value if its leaves are tokens, and its arguments fit the rows at every level.
pub fn fitting_denotes()
    ensures { (depth : ℕ) (x : Bare) → WellFormed depth x → Fitting kinds.AnyCrs x → (v : CrsParts) × DenotesParts x v }
{}

/// A text without a fault of its tokens or of its slots spells a value, or one of the conditions is the first that
/// fails.
pub fn clean_text()
    ensures { (text : List ℕ) (toks : List Tok) → IsOutline text toks → IsClean editions.Second toks → HasVerdict text }
{}

/// Each text spells a value, or has a first fault. So a reader whose memory does not run out always has a result other
/// than `Memory`.
pub fn each_text(text: &[u8])
    ensures { HasVerdict text.now }
{
    let Ok(outline) = scan(text) else {
        return;
    };
    if let Err(_) = check_slots(Edition::Second, &outline) {
        return;
    }
}

/// A text spells at most one value.
pub fn one_value()
    ensures { (text : List ℕ) (v w : Crs) → Spells text v → Spells text w → v ≡ w }
{}

/// A text that spells a value has no fault but `Memory`.
pub fn value_or_fault()
    ensures { (text : List ℕ) (v : Crs) (f : ReadFault) → Spells text v → FirstFault text f → f ≡ fault.Memory }
{}

/// A text has one first fault, apart from `Memory`.
pub fn one_first_fault()
    ensures { (text : List ℕ) (f g : ReadFault) → ¬ (f ≡ fault.Memory) → ¬ (g ≡ fault.Memory) → FirstFault text f → FirstFault text g → f ≡ g }
{}

/// The written texts of a value are read back, if they are within the limit of a text.
pub fn written_is_read()
    ensures canonical { (v : Crs) → length (canon v) ≤ 1048576 → Spells (canon v) v }
    ensures indented { (v : Crs) → length (pretty v) ≤ 1048576 → Spells (pretty v) v }
{}

/// A text of the first edition of the grammar spells the same value in the second, without geoid models and vertical
/// extents. A value without these is spelled by the same texts in both.
pub fn editions()
    ensures still { (text : List ℕ) (v : Crs) → FirstSpells text v → Spells text v × NothingAdded v.parts }
    ensures before { (text : List ℕ) (v : Crs) → Spells text v → NothingAdded v.parts → FirstSpells text v }
{}
