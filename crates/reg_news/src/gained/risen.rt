//! Offices whose numbers rose by more than their operations that came.

ghost use Rattle.std.specs.Prelude.{◌≡◌, ◌++◌, [], IfOk, OnOk};
ghost use Rattle.std.specs.List.{flat_map};
ghost use Rattle.reg_news.specs.Hidden.{rise_of, risen_of, AreRisen};

use reg_office::last_count;
use reg_query::{OfficeFigures, offices};
use reg_state::{Register, Seen};
use std::alloc::{AllocError, Global};
use uuid::Uuid;

/// An office whose greatest number rose by more than its operations that came.
#[derive(Clone, Copy, Debug, PartialEq, Eq)]
pub struct Risen {
    pub office: Uuid,
    /// By how much it rose.
    pub rise: u32,
    /// How many of its operations came.
    pub came: usize,
}

// By how much the greatest number of an office rose.
fn rise_of(seen: &Seen, office: &OfficeFigures) -> u32
    ensures { result ≡ rise_of seen.now office.now }
{
    let before = last_count(seen, office.replica);
    office.greatest.saturating_sub(before)
}

// Appends the office, if it rose by more than what came of it.
fn push_risen(made: &mut Vec<Risen>, seen: &Seen, office: &OfficeFigures) -> Result<(), AllocError>
    ensures { OnOk result (made.new.items ≡ made.old.items ++ risen_of seen.now office.now) }
{
    let rise = rise_of(seen, office);
    if (rise as usize) <= office.kept {
        return Ok(());
    }
    made.push(Risen {
        office: office.replica,
        rise,
        came: office.kept,
    })?;
    Ok(())
}

// Of some offices, those that rose by more than what came of them.
fn risen_among(
    alloc: Global,
    seen: &Seen,
    figures: &[OfficeFigures],
) -> Result<Vec<Risen>, AllocError>
    ensures { IfOk result (λ made. made.items ≡ flat_map (risen_of seen.now) figures.now) }
{
    let mut made = Vec::new(alloc);
    let mut rest = figures;
    while let Some((office, others)) = rest.split_first() {
        push_risen(&mut made, seen, office)?;
        rest = others;
    }
    Ok(made)
}

/// Of what came to a register that had seen some ids: the offices whose greatest number rose by more than their operations.
pub(crate) fn offices_risen(
    alloc: Global,
    seen: &Seen,
    came: &Register,
) -> Result<Vec<Risen>, AllocError>
    ensures { IfOk result (λ made. AreRisen seen.now came.now made.items) }
{
    let figures = offices(alloc, came)?;
    risen_among(alloc, seen, &figures)
}
