//! The canonical text of the value that a text spells.

ghost use Rattle.std.specs.Prelude.{◌≡◌, true, IfOk, IfErr, IfSome};
ghost use Rattle.crs_value.specs.declared.crs.Crs.{Crs};
ghost use Rattle.wkt_tree.specs.declared.fault.TextFault.{TextFault};
ghost use Rattle.wkt_tree.specs.Faults as tree;
ghost use Rattle.wkt_grammar.specs.declared.fault.SlotFault.{SlotFault};
ghost use Rattle.wkt_crs.specs.declared.fault.ReadFault.TheVariants as fault;
ghost use Rattle.wkt_crs.specs.Spells.{Spells, SpellsCanon};
ghost use Rattle.wkt_crs.specs.Faults.{FirstFault, FirstSlot};

use crate::fault::ReadFault;
use crate::reading::read_crs;
use crate::writing::write_crs;
use std::alloc::Global;
use wkt_canonical::is_canonical;
use wkt_tree::MAX_TEXT;
use wkt_write::condense;

/// The canonical text of the value that the text spells, or the first fault of the text. No value is built if the text, or
/// its condensed form, is recognized as canonical, as most are.
pub fn canonical_text(alloc: Global, text: &[u8]) -> Result<Vec<u8>, ReadFault>
    ensures found { IfOk result (λ canonical. SpellsCanon text.now canonical.items) }
    ensures only { (v : Crs) → Spells text.now v → IfErr result (λ f. f ≡ fault.Memory) }
    ensures fault { IfErr result (FirstFault text.now) }
    // These faults are reported even if an allocation fails.
    ensures text { (f : TextFault) → tree.FirstFault text.now f → IfErr result (λ g. g ≡ fault.Text f) }
    ensures slot { (f : SlotFault) → FirstSlot text.now f → IfErr result (λ g. g ≡ fault.Slot f) }
{
    if is_seen(text) {
        let Ok(copy) = Vec::from_slice(alloc, text) else {
            return Err(ReadFault::Memory);
        };
        return Ok(copy);
    }
    rewritten(alloc, text)
}

/// The same for a text that is not recognized as canonical. If its condensed form is not recognized either, the value is
/// read and written.
pub(crate) fn rewritten(alloc: Global, text: &[u8]) -> Result<Vec<u8>, ReadFault>
    ensures found { IfOk result (λ canonical. SpellsCanon text.now canonical.items) }
    ensures only { (v : Crs) → Spells text.now v → IfErr result (λ f. f ≡ fault.Memory) }
    ensures fault { IfErr result (FirstFault text.now) }
    ensures text { (f : TextFault) → tree.FirstFault text.now f → IfErr result (λ g. g ≡ fault.Text f) }
    ensures slot { (f : SlotFault) → FirstSlot text.now f → IfErr result (λ g. g ≡ fault.Slot f) }
{
    if let Some(canonical) = condensed(alloc, text) {
        return Ok(canonical);
    }
    let crs = match read_crs(alloc, text) {
        Ok(crs) => crs,
        Err(fault) => return Err(fault),
    };
    match write_crs(alloc, &crs) {
        Ok(canonical) => Ok(canonical),
        Err(_) => Err(ReadFault::Memory),
    }
}

/// The condensed text, if it is recognized as canonical.
fn condensed(alloc: Global, text: &[u8]) -> Option<Vec<u8>>
    ensures { IfSome result (λ canonical. SpellsCanon text.now canonical.items) }
{
    let condensed = condense(alloc, text)?;
    if is_seen(&condensed) {
        Some(condensed)
    } else {
        None
    }
}

/// Whether the text is recognized as its own canonical text.
pub(crate) fn is_seen(text: &[u8]) -> bool
    ensures { result ≡ true → SpellsCanon text.now text.now }
{
    if text.len() > MAX_TEXT {
        return false;
    }
    is_canonical(text)
}
