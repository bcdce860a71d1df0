//! Decimals: read, written, compared.

ghost use Rattle.std.specs.Prelude.{◌≡◌, ℕ, ◌+◌, ◌++◌, ◌*◌, ◌%◌, ◌^◌, ◌<◌, ◌≤◌, ◌↔◌, ℤ, pos, negsuc, ◌+ℤ◌, ◌-ℤ◌, ◌≤ℤ◌, unsigned_abs, IfSome, IsSomeAnd, IfOk, OnOk, OnErr, IsErrOf, length, vec_len, vec_capacity};
ghost use Rattle.crs_number.specs.Numeral.{signed, IsNormalForm, IsInRange, HasForm, HasDigits, HasValue, Spells};
ghost use Rattle.crs_number.specs.Parts.{parts_of};
ghost use Rattle.crs_number.specs.Value.{IsWhole};
ghost use Rattle.crs_number.specs.Canonical.{canonical, Extends};

use crate::numerals::Numeral;
use crate::reduced::{Reduced, reduced_of, scaled};
use crate::text::push_plain;
use std::alloc::AllocError;
use std::fmt;

/// A text that does not spell a decimal.
#[derive(Clone, Copy, Debug, PartialEq, Eq)]
pub enum NumberFault {
    /// It does not have the form of a numeral.
    BadNumber,
    /// It is too long, or its value is out of range.
    NumberRange,
}

impl NumberFault {
    ghost use Rattle.crs_number.specs.Names.{name_of};

    /// The name that is printed.
    pub fn name(self) -> &'static str
        ensures { result.now ≡ name_of self }
    {
        match self {
            NumberFault::BadNumber => "BadNumber",
            NumberFault::NumberRange => "NumberRange",
        }
    }
}

impl fmt::Display for NumberFault {
    fn fmt<W: fmt::Write>(&self, f: &mut fmt::Formatter<W>) -> fmt::Result {
        f.write_str(self.name())
    }
}

/// A coefficient times a power of ten. The coefficient is not a multiple of ten; zero is 0 times ten to the 0.
#[derive(Clone, Copy, Debug, PartialEq, Eq)]
pub struct Decimal {
    coefficient: i128,
    exponent: i32,
    pub ghost small: { unsigned_abs coefficient < 10 ^ 34 },
    pub ghost low: { negsuc 39 ≤ℤ exponent },
    pub ghost high: { exponent ≤ℤ pos 40 },
    pub ghost tenless: { unsigned_abs coefficient % 10 ≡ 0 → (coefficient ≡ pos 0) × (exponent ≡ pos 0) },
}

impl Decimal {
    ghost use Rattle.crs_number.specs.declared.decimals.Decimal.{Decimal};

    /// 0 times ten to the 0.
    pub const ZERO: Decimal = Decimal {
        coefficient: 0,
        exponent: 0,
    };

    /// The coefficient, of at most 34 digits.
    pub fn coefficient(&self) -> i128
        ensures { result ≡ self.now.coefficient }
    {
        self.coefficient
    }

    /// The exponent of ten, from -40 to 40.
    pub fn exponent(&self) -> i32
        ensures { result ≡ self.now.exponent }
    {
        self.exponent
    }

    /// The decimal that the text spells.
    pub fn from_numeral(text: &[u8]) -> Result<Decimal, NumberFault>
        ensures found { IfOk result (λ d. Spells text.now d.coefficient d.exponent) }
        ensures only { (d : Decimal) → Spells text.now d.coefficient d.exponent → result ≡ Ok d }
        ensures bad { IsErrOf result NumberFault.BadNumber ↔ ¬ HasForm text.now }
        ensures range { IsErrOf result NumberFault.NumberRange → HasForm text.now }
    {
        let Some(numeral) = Numeral::split(text) else {
            return Err(NumberFault::BadNumber);
        };
        if text.len() > MAX_TEXT {
            return Err(NumberFault::NumberRange);
        }
        Decimal::from_parts(&numeral).ok_or(NumberFault::NumberRange)
    }

    /// The number of at most 18 digits with this many decimal places, at most 100.
    pub fn from_digits(negative: bool, digits: u64, places: u32) -> Option<Decimal>
        ensures found { IfSome result
            (λ d. IsNormalForm (signed negative digits) (pos 0 -ℤ pos places) d.coefficient d.exponent) }
        ensures only { digits < 10 ^ 18 → places ≤ 100 → (c e : ℤ)
            → IsNormalForm (signed negative digits) (pos 0 -ℤ pos places) c e → IsInRange c e
            → IsSomeAnd result (λ d. (d.coefficient ≡ c) × (d.exponent ≡ e)) }
    {
        if digits >= DIGITS_LIMIT || places > 100 {
            return None;
        }
        Decimal::from_reduced(
            negative,
            Reduced::of_small(digits),
            lowered(0, places as usize),
        )
    }

    /// The value as a count, from 0 to 4,294,967,295.
    pub fn as_count(&self) -> Option<u32>
        ensures found { IfSome result (λ n. IsWhole self.now.coefficient self.now.exponent (pos n)) }
        ensures only { (n : ℕ) → n < 2 ^ 32 → IsWhole self.now.coefficient self.now.exponent (pos n)
            → result ≡ Some n }
    {
        if self.coefficient < 0 || self.exponent < 0 {
            return None;
        }
        let size = self.coefficient.unsigned_abs();
        let whole = scaled(size, self.exponent.unsigned_abs())?;
        u32::try_from(whole).ok()
    }

    /// Appends the canonical text, or nothing.
    pub fn write_to(&self, out: &mut Vec<u8>) -> Result<(), AllocError>
        ensures ok { OnOk result (out.new.items ≡ out.old.items ++ canonical self.now.coefficient self.now.exponent) }
        ensures err { OnErr result (out.new.items ≡ out.old.items) }
        ensures full { OnErr result (vec_capacity out.old
            < vec_len out.old + length (canonical self.now.coefficient self.now.exponent)) }
        ensures reads_back { Spells
            (canonical self.now.coefficient self.now.exponent)
            self.now.coefficient
            self.now.exponent }
    {
        let before = out.len();
        let written = self.push_text(out);
        if written.is_err() {
            out.truncate(before);
        }
        written
    }

    /// Appends the canonical text, or a part of it.
    fn push_text(&self, out: &mut Vec<u8>) -> Result<(), AllocError>
        ensures ok { OnOk result (out.new.items ≡ out.old.items ++ canonical self.now.coefficient self.now.exponent) }
        ensures err { OnErr result (Extends out.old.items out.new.items) }
        ensures full { OnErr result (vec_capacity out.old
            < vec_len out.old + length (canonical self.now.coefficient self.now.exponent)) }
    {
        if self.coefficient < 0 {
            out.push(b'-')?;
        }
        push_plain(out, self.coefficient.unsigned_abs(), self.exponent)
    }

    /// The value of the parts, if it is in range.
    pub(crate) fn from_parts(numeral: &Numeral<'_>) -> Option<Decimal>
        requires digits { HasDigits (parts_of numeral.now) }
        requires short { length numeral.now.whole.now + length numeral.now.fraction.now ≤ 100 }
        ensures found { IfSome result (λ d. HasValue (parts_of numeral.now) d.coefficient d.exponent) }
        ensures only { (c e : ℤ) → HasValue (parts_of numeral.now) c e
            → IsSomeAnd result (λ d. (d.coefficient ≡ c) × (d.exponent ≡ e)) }
    {
        let exponent = numeral.power.exponent()?;
        let number = reduced_of(numeral.whole, numeral.fraction)?;
        let power = lowered(exponent, numeral.fraction.len());
        Decimal::from_reduced(numeral.negative, number, power)
    }

    /// The decimal that is this number times ten to the power, if it is in range.
    fn from_reduced(negative: bool, reduced: Reduced, power: i32) -> Option<Decimal>
        requires low { negsuc 99999 ≤ℤ power }
        requires high { power ≤ℤ pos 99999 }
        requires zeros { reduced.zeros ≤ 100 }
        ensures found { let n = signed negative (reduced.coefficient * 10 ^ reduced.zeros)
            in IfSome result (λ d. IsNormalForm n power d.coefficient d.exponent) }
        ensures only { let n = signed negative (reduced.coefficient * 10 ^ reduced.zeros)
            in (c e : ℤ) → IsNormalForm n power c e → IsInRange c e
            → IsSomeAnd result (λ d. (d.coefficient ≡ c) × (d.exponent ≡ e)) }
    {
        if reduced.coefficient == 0 {
            return Some(Decimal::ZERO);
        }
        let exponent = raised(power, reduced.zeros);
        if exponent < MIN_EXPONENT || exponent > MAX_EXPONENT {
            return None;
        }
        Some(Decimal {
            coefficient: with_sign(negative, reduced.coefficient),
            exponent,
        })
    }
}

fn with_sign(negative: bool, size: u128) -> i128
    requires { size < 10 ^ 34 }
    ensures { result ≡ signed negative size }
{
    if negative {
        -(size as i128)
    } else {
        size as i128
    }
}

fn lowered(power: i32, places: usize) -> i32
    requires low { negsuc 65535 ≤ℤ power }
    requires places { places ≤ 100 }
    ensures { result ≡ power -ℤ pos places }
{
    power - places as i32
}

fn raised(power: i32, zeros: u32) -> i32
    requires low { negsuc 99999 ≤ℤ power }
    requires high { power ≤ℤ pos 99999 }
    requires zeros { zeros ≤ 100 }
    ensures { result ≡ power +ℤ pos zeros }
{
    power + zeros as i32
}

/// A longer numeral spells no decimal.
pub(crate) const MAX_TEXT: usize = 100;

/// Numbers below this one have at most 18 digits.
const DIGITS_LIMIT: u64 = 1_000_000_000_000_000_000;

const MIN_EXPONENT: i32 = -40;

const MAX_EXPONENT: i32 = 40;
