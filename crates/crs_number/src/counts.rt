//! Counts: whole numbers of 32 bits, as texts spell them.

ghost use Rattle.std.specs.Prelude.{◌≡◌, ℕ, ◌^◌, ◌<◌, ◌≤◌, List, length, true, decimal, IsTrue};
ghost use Rattle.std.specs.Str.Parse.{AllDigits};
ghost use Rattle.crs_number.specs.Count.{SpellsWhole, IsCount, is_count};

use crate::decimals::Decimal;
use crate::numerals::split_digits;

/// Whether the text spells a whole number from 0 to 4,294,967,295.
pub fn is_count(numeral: &[u8]) -> bool
    ensures { result ≡ is_count numeral.now }
{
    if has_few_digits(numeral) {
        return true;
    }
    match Decimal::from_numeral(numeral) {
        Ok(decimal) => decimal.as_count().is_some(),
        Err(_) => false,
    }
}

/// Whether the text is up to nine digits, and nothing else.
fn has_few_digits(text: &[u8]) -> bool
    ensures digits { IsTrue result → AllDigits 10 text.now }
    ensures few { IsTrue result → (0 < length text.now) × (length text.now ≤ 9) }
{
    let (digits, rest) = split_digits(text);
    rest.is_empty() && !digits.is_empty() && digits.len() <= 9
}

/// The law of counts: the test decides what a count is, and a text spells at most one.
pub fn count_laws()
    ensures sound { (text : List ℕ) → is_count text ≡ true → IsCount text }
    ensures complete { (text : List ℕ) → IsCount text → is_count text ≡ true }
    ensures once { (text : List ℕ) (m n : ℕ) → SpellsWhole text m → SpellsWhole text n → m ≡ n }
    ensures spelled { (n : ℕ) → n < 2 ^ 32 → SpellsWhole (decimal n) n }
    ensures passes { (n : ℕ) → n < 2 ^ 32 → is_count (decimal n) ≡ true }
{}
