//! Whether a text spells a decimal, without the decimal.

ghost use Rattle.std.specs.Prelude.{◌≡◌, ◌+◌, ◌≤◌, ◌↔◌, length, IsOk, IsTrue, IsErrOf, []};
ghost use Rattle.crs_number.specs.declared.decimals.Decimal.{Decimal};
ghost use Rattle.crs_number.specs.Numeral.{HasForm, Spells};

use crate::decimals::{Decimal, MAX_TEXT, NumberFault};
use crate::numerals::Numeral;

/// Tests whether the text spells a decimal, for the lexer, which needs no decimal.
pub fn check_numeral(text: &[u8]) -> Result<(), NumberFault>
    ensures ok { IsOk result ↔ ((d : Decimal) × Spells text.now d.coefficient d.exponent) }
    ensures bad { IsErrOf result NumberFault.BadNumber ↔ ¬ HasForm text.now }
    ensures range { IsErrOf result NumberFault.NumberRange → HasForm text.now }
{
    let Some(numeral) = Numeral::split(text) else {
        return Err(NumberFault::BadNumber);
    };
    if text.len() > MAX_TEXT {
        return Err(NumberFault::NumberRange);
    }
    if is_small(&numeral) {
        return Ok(());
    }
    match Decimal::from_parts(&numeral) {
        Some(_) => Ok(()),
        None => Err(NumberFault::NumberRange),
    }
}

/// A number of up to this many digits, with or without a period, is in range.
const SAFE_DIGITS: usize = 34;

/// Whether it has no exponent and so few digits that its value is in range.
fn is_small(numeral: &Numeral<'_>) -> bool
    ensures digits { IsTrue result → length numeral.now.whole.now + length numeral.now.fraction.now ≤ 34 }
    ensures power { IsTrue result → numeral.now.power.digits.now ≡ [] }
{
    numeral.power.digits.is_empty() && numeral.whole.len() + numeral.fraction.len() <= SAFE_DIGITS
}
