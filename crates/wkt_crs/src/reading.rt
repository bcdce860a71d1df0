//! The reader of texts.

ghost use Rattle.std.specs.Prelude.{◌≡◌, ◌⊎◌, Ok, Err, IfOk, IfErr};
ghost use Rattle.crs_value.specs.declared.crs.Crs.{Crs};
ghost use Rattle.wkt_tree.specs.declared.fault.TextFault.{TextFault};
ghost use Rattle.wkt_tree.specs.Faults as tree;
ghost use Rattle.wkt_grammar.specs.declared.fault.SlotFault.{SlotFault};
ghost use Rattle.wkt_crs.specs.declared.fault.ReadFault.TheVariants as fault;
ghost use Rattle.wkt_crs.specs.Spells.{Spells};
ghost use Rattle.wkt_crs.specs.Faults.{FirstFault, FirstSlot};

use crate::fault::ReadFault;
use crate::places::keyword_place;
use crs_value::Crs;
use std::alloc::{AllocError, Global};
use wkt_build::build_parts;
use wkt_grammar::{Edition, check_slots};
use wkt_tree::scan;

/// The value that the text spells, or its first fault. Faults of the text and of its slots are reported before
/// anything is allocated.
pub fn read_crs(alloc: Global, text: &[u8]) -> Result<Crs, ReadFault>
    ensures found { IfOk result (Spells text.now) }
    ensures only { (v : Crs) → Spells text.now v → (result ≡ Ok v) ⊎ (result ≡ Err fault.Memory) }
    ensures fault { IfErr result (FirstFault text.now) }
    // These faults are reported without allocating.
    ensures text { (f : TextFault) → tree.FirstFault text.now f → result ≡ Err (fault.Text f) }
    ensures slot { (f : SlotFault) → FirstSlot text.now f → result ≡ Err (fault.Slot f) }
{
    let outline = match scan(text) {
        Ok(outline) => outline,
        Err(fault) => return Err(ReadFault::Text(fault)),
    };
    if let Err(fault) = check_slots(Edition::Second, &outline) {
        return Err(ReadFault::Slot(fault));
    }
    let parts = match build_parts(alloc, &outline) {
        Ok(parts) => parts,
        Err(_) => return Err(ReadFault::Memory),
    };
    match Crs::check(parts) {
        Ok(crs) => Ok(crs),
        Err(broken) => Err(ReadFault::Broken {
            condition: broken.condition,
            place: keyword_place(&outline, broken.whose),
        }),
    }
}

/// The value of a text that spells one. Its slots are not checked, since such a text has no fault.
pub(crate) fn read_spelled(alloc: Global, text: &[u8]) -> Result<Crs, AllocError>
    requires { (v : Crs) × Spells text.now v }
    ensures { IfOk result (Spells text.now) }
{
    let outline = match scan(text) {
        Ok(outline) => outline,
        // The text has the tokens of a tree.
        Err(_) => unreachable!(),
    };
    let parts = match build_parts(alloc, &outline) {
        Ok(parts) => parts,
        Err(_) => return Err(AllocError),
    };
    match Crs::check(parts) {
        Ok(crs) => Ok(crs),
        // The value meets all conditions.
        Err(_) => unreachable!(),
    }
}
