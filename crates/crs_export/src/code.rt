//! Codes as SQLite compares them: as numbers, if they have the form of a number.

ghost use Rattle.std.specs.Prelude.{◌≡◌, List, ℕ, reverse};
ghost use Rattle.crs_export.specs.Codes.{is_blank, after_blanks, trimmed, IsNumberOf};

use crs_number::Decimal;

fn is_blank(byte: u8) -> bool
    ensures { result ≡ is_blank byte }
{
    byte == b' ' || (byte >= 9 && byte <= 13)
}

fn after_blanks(text: &[u8]) -> &[u8]
    ensures { result.now ≡ after_blanks text.now }
{
    let mut rest = text;
    while let Some((byte, others)) = rest.split_first() {
        if !is_blank(*byte) {
            return rest;
        }
        rest = others;
    }
    rest
}

fn before_blanks(text: &[u8]) -> &[u8]
    ensures { reverse result.now ≡ after_blanks (reverse text.now) }
{
    let mut rest = text;
    while let Some((byte, others)) = rest.split_last() {
        if !is_blank(*byte) {
            return rest;
        }
        rest = others;
    }
    rest
}

/// The number that SQLite reads in a code, if it reads one.
pub fn number_of(code: &[u8]) -> Option<Decimal>
    ensures { IsNumberOf code.now result }
{
    let text = before_blanks(after_blanks(code));
    match Decimal::from_numeral(text) {
        Ok(decimal) => Some(decimal),
        Err(_) => None,
    }
}
