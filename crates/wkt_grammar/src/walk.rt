//! A walk along a row.

ghost use Rattle.std.specs.Prelude.{◌≡◌, ◌≤◌, length, drop, Some, None, MatchOption, true};
ghost use Rattle.wkt_grammar.specs.Rows.{is_required};
ghost use Rattle.wkt_grammar.specs.Walk.{is_many, missing, next};

use crate::choice::takes;
use crate::table::{Argument, Often, Slot, SlotName};

/// The position in a row: the next slot, and whether it has an argument already.
#[derive(Clone, Copy, Debug)]
pub struct RowPosition {
    pub slot: usize,
    pub filled: bool,
}

fn is_required(often: Often) -> bool
    ensures { result ≡ is_required often }
{
    matches!(often, Often::Once | Often::AtLeastOnce)
}

fn is_many(often: Often) -> bool
    ensures { result ≡ is_many often }
{
    matches!(often, Often::Any | Often::AtLeastOnce)
}

/// The position in the row after the argument.
pub fn step(row: &[Slot], place: RowPosition, argument: Argument) -> Option<RowPosition>
    requires { place.slot ≤ length row.now }
    ensures { MatchOption result (next (drop place.slot row.now) place.filled argument ≡ None)
        (λ p. (next (drop place.slot row.now) place.filled argument ≡ Some (drop p.slot row.now)) × (p.slot ≤ length row.now) × (p.filled ≡ true)) }
{
    let mut slot = place.slot;
    let mut filled = place.filled;
    while slot < row.len() {
        let often = row[slot].often;
        if takes(row[slot].takes, argument) && (!filled || is_many(often)) {
            return Some(RowPosition { slot, filled: true });
        }
        if is_required(often) && !filled {
            return None;
        }
        slot += 1;
        filled = false;
    }
    None
}

/// The first required slot that has no argument.
pub fn first_missing(row: &[Slot], place: RowPosition) -> Option<SlotName>
    requires { place.slot ≤ length row.now }
    ensures { result ≡ missing (drop place.slot row.now) place.filled }
{
    let mut slot = place.slot;
    let mut filled = place.filled;
    while slot < row.len() {
        if is_required(row[slot].often) && !filled {
            return Some(row[slot].name);
        }
        slot += 1;
        filled = false;
    }
    None
}
