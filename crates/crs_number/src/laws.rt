//! The laws of numerals.

ghost use Rattle.std.specs.Prelude.{◌≡◌, List, ℕ, ℤ};
ghost use Rattle.crs_number.specs.Bytes.{HasNumeralBytes};
ghost use Rattle.crs_number.specs.Canonical.{canonical};
ghost use Rattle.crs_number.specs.Numeral.{HasForm, Spells};
ghost use Rattle.crs_number.specs.declared.decimals.Decimal.{Decimal};

/// A text spells at most one decimal.
pub fn one_decimal()
    ensures { (text : List ℕ) (c d e f : ℤ) → Spells text c e → Spells text d f → (c ≡ d) × (e ≡ f) }
{}

/// A text of the form of a numeral begins with a digit, a sign or a period, and has only these and the letter of an
/// exponent.
pub fn numeral_bytes()
    ensures { (text : List ℕ) → HasForm text → HasNumeralBytes text }
{}

/// The canonical text of a decimal spells it.
pub fn canonical_text()
    ensures { (d : Decimal) → Spells (canonical d.coefficient d.exponent) d.coefficient d.exponent }
{}
