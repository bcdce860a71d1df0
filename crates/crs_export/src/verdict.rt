//! Whether an entry is inserted into PROJ's tables.

ghost use Rattle.std.specs.Prelude.{◌≡◌, ◌++◌, ◌∷◌, [], codes, List, Some, IfOk};
ghost use Rattle.crs_export.specs.declared.filed.Filed.{Filed as OneFiled};
ghost use Rattle.crs_export.specs.Held.{Holds};
ghost use Rattle.crs_export.specs.Sql.{is_same_text, has_rows, has_key, has_null, fits, text_at, by_text, judged};

use crate::filed::{EntryText, Filed};
use crate::held::{HeldText, RowPlace, held_at, hold, place_of};
use crate::markup::OWNER;
use crate::names::{has_zero, is_long, is_some_text};
use std::alloc::AllocError;
use std::collections::BTreeMap;

/// Whether an entry is inserted.
#[derive(Clone, Copy, Debug, PartialEq, Eq)]
pub enum Verdict {
    Insert,
    /// An earlier entry has its text.
    Again,
    /// The tables cannot hold it.
    LeftOut,
}

fn is_own(authority: &[u8]) -> bool
    ensures { result ≡ is_same_text (codes "crsreg") authority.now }
{
    OWNER == authority
}

fn has_key(keyed: &EntryText<'_>) -> bool
    ensures { result ≡ has_key keyed.now }
{
    is_some_text(keyed.authority) && !is_own(keyed.authority) && is_some_text(keyed.code)
}

fn has_rows(filed: &Filed<'_>) -> bool
    ensures { result ≡ has_rows filed.now }
{
    filed.table.is_some() || is_some_text(&filed.rows)
}

fn has_null(filed: &Filed<'_>) -> bool
    ensures { result ≡ has_null filed.now }
{
    has_zero(filed.keyed.authority)
        || has_zero(filed.keyed.code)
        || has_zero(filed.name)
        || has_zero(filed.keyed.text)
        || has_zero(&filed.rows)
}

fn fits(filed: &Filed<'_>) -> bool
    ensures { result ≡ fits filed.now }
{
    has_rows(filed) && has_key(&filed.keyed) && is_long(filed.name) && !has_null(filed)
}

fn by_text(text: &[u8], earlier: &[u8]) -> Verdict
    ensures { result ≡ by_text text.now (Some earlier.now) }
{
    if earlier == text {
        Verdict::Again
    } else {
        Verdict::LeftOut
    }
}

/// Whether an entry is inserted after others, whose texts these are. If it is, its text is held, too.
pub fn judge<'a>(
    held: &mut BTreeMap<RowPlace<'a>, HeldText<'a>>,
    filed: &Filed<'a>,
) -> Result<Verdict, AllocError>
    ensures { (before : List OneFiled) → Holds held.old (λ p. text_at p before)
        → IfOk result (λ verdict. (verdict ≡ judged before filed.now) × Holds held.new (λ p. text_at p (before ++ filed.now ∷ []))) }
{
    if !fits(filed) {
        return Ok(Verdict::LeftOut);
    }
    let place = place_of(&filed.keyed);
    match held_at(held, &place) {
        Some(earlier) => return Ok(by_text(filed.keyed.text, earlier.text)),
        None => {}
    }
    hold(held, place, filed.keyed.text)?;
    Ok(Verdict::Insert)
}
