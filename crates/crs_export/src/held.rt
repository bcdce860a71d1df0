//! The places of entries in PROJ's tables, and the texts that are there already.

ghost use Rattle.std.specs.Prelude.{◌≡◌, OnOk};
ghost use Rattle.crs_export.specs.Places.{unless_number, place_of};
ghost use Rattle.crs_export.specs.Held.{place_bytes, text_in, At, Holds, with_text};

use crate::filed::EntryText;
use crs_number::Decimal;
use std::alloc::AllocError;
use std::collections::BTreeMap;

/// What identifies a row for SQLite: its authority, and the number that it reads in the code, or else the code.
#[derive(Clone, Copy, PartialEq, Eq, PartialOrd, Ord)]
pub struct RowPlace<'a> {
    pub authority: &'a [u8],
    pub number: Option<Decimal>,
    pub code: &'a [u8],
}

/// The text of an entry that is there already.
#[derive(Clone, Copy)]
pub struct HeldText<'a> {
    pub text: &'a [u8],
}

fn unless_number<'a>(number: Option<Decimal>, code: &'a [u8]) -> &'a [u8]
    ensures { result.now ≡ unless_number number code.now }
{
    match number {
        Some(_) => b"",
        None => code,
    }
}

/// The place of an entry with this key.
pub fn place_of<'a>(keyed: &EntryText<'a>) -> RowPlace<'a>
    ensures { place_bytes result ≡ place_of keyed.now }
{
    RowPlace {
        authority: keyed.authority,
        number: keyed.number,
        code: unless_number(keyed.number, keyed.code),
    }
}

/// What is held in a place.
pub fn held_at<'a>(
    held: &BTreeMap<RowPlace<'a>, HeldText<'a>>,
    place: &RowPlace<'a>,
) -> Option<HeldText<'a>>
    ensures { (at : At) → Holds held.now at → text_in result ≡ at (place_bytes place.now) }
{
    match held.get(place) {
        Some(one) => Some(*one),
        None => None,
    }
}

/// Holds a text in a place.
pub fn hold<'a>(
    held: &mut BTreeMap<RowPlace<'a>, HeldText<'a>>,
    place: RowPlace<'a>,
    text: &'a [u8],
) -> Result<(), AllocError>
    ensures { (at : At) → Holds held.old at → OnOk result (Holds held.new (with_text (place_bytes place.entry) text.now at)) }
{
    held.insert(place, HeldText { text })?;
    Ok(())
}
