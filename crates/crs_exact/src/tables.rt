//! Tables as texts: a row on each line, and its fields with a semicolon between two.

ghost use Rattle.std.specs.Prelude.{◌≡◌, ◌∷◌, [], IfSome, IfNone};
ghost use Rattle.std.specs.List.{prefix_len};
ghost use Rattle.std.specs.Option.{option_map};
ghost use Rattle.crs_exact.specs.Tables.{goes_on, pieces, before, past, EndsPiece, row_of, row_coded};

use crate::names::is_named;
use crate::numerals::is_code;
use crs_number::Decimal;

/// The first row of the table whose first field is this name.
pub fn row_of<'a>(table: &'a [u8], name: &[u8]) -> Option<&'a [u8]>
    ensures { option_map (λ row. row.now) result ≡ row_of table.now name.now }
{
    let mut rest = table;
    while let Some((row, others)) = split_piece(rest, b'\n') {
        if is_named(name, before(row, b';')) {
            return Some(row);
        }
        rest = others;
    }
    if is_named(name, before(rest, b';')) {
        return Some(rest);
    }
    None
}

/// The first row of the table whose first field is this number.
pub fn row_coded(table: &[u8], code: Decimal) -> Option<&[u8]>
    ensures { option_map (λ row. row.now) result ≡ row_coded table.now code }
{
    let mut rest = table;
    while let Some((row, others)) = split_piece(rest, b'\n') {
        if is_code(before(row, b';'), code) {
            return Some(row);
        }
        rest = others;
    }
    if is_code(before(rest, b';'), code) {
        return Some(rest);
    }
    None
}

/// The first piece of a text with marks between its pieces, and the text after the mark, if there is one.
pub fn split_piece(text: &[u8], mark: u8) -> Option<(&[u8], &[u8])>
    ensures some { IfSome result (λ r. EndsPiece mark text.now r.0.now r.1.now) }
    ensures none { IfNone result (pieces mark text.now ≡ text.now ∷ []) }
{
    let (piece, rest) = text.split_at(piece_len(text, mark));
    let Some((_, others)) = rest.split_first() else {
        return None;
    };
    Some((piece, others))
}

/// What stands before the mark.
pub fn before(text: &[u8], mark: u8) -> &[u8]
    ensures { result.now ≡ before mark text.now }
{
    let (piece, _) = text.split_at(piece_len(text, mark));
    piece
}

/// What stands after the mark.
pub fn past(text: &[u8], mark: u8) -> &[u8]
    ensures { result.now ≡ past mark text.now }
{
    let (_, rest) = text.split_at(piece_len(text, mark));
    match rest.split_first() {
        Some((_, others)) => others,
        None => rest,
    }
}

fn piece_len(text: &[u8], mark: u8) -> usize
    ensures { result ≡ prefix_len (goes_on mark) text.now }
{
    text.iter().take_while(|b| goes_on(mark, **b)).count()
}

fn goes_on(mark: u8, byte: u8) -> bool
    ensures { result ≡ goes_on mark byte }
{
    byte != mark
}
