//! Texts, numbers and words.

ghost use Rattle.std.specs.Prelude.{◌≡◌, ◌≤◌, length, false, drop, IfOk, IfSome};
ghost use Rattle.crs_number.specs.Numeral.{Spells};
ghost use Rattle.wkt_tree.specs.Tokens.{IsQuoted, IsNumber};
ghost use Rattle.wkt_grammar.specs.declared.table.Takes.TheVariants as kinds;
ghost use Rattle.wkt_grammar.specs.Leaves.{DenotesCount, DenotesText, DenotesNumber, undoubled};
ghost use Rattle.wkt_grammar.specs.Denotes.{DenotesCode};
ghost use Rattle.wkt_build.specs.Leaves.{TakesCount, TakesNumber, TakesText, next_is_number};

use crate::built::Built;
use crate::reader::Reader;
use crs_number::Decimal;
use crs_part::{Many, NumberOrText, Text};
use std::alloc::{AllocError, Global};
use wkt_grammar::Takes;
use wkt_tree::{TokenKind, first_mark};

// ---- numbers

impl Built<Decimal> for Decimal {
    ghost slot_kind = { kinds.Number };

    ghost Denotes = { DenotesNumber };

    fn kind() -> Takes {
        Takes::Number
    }

    fn build(alloc: Global, cursor: &mut Reader<'_>) -> Result<Decimal, AllocError> {
        Ok(take_number(cursor))
    }
}

/// The next number.
pub(crate) fn take_number(cursor: &mut Reader<'_>) -> Decimal
    ensures takes { TakesNumber cursor.old cursor.new result }
    ensures shorter { length cursor.new ≤ length cursor.old }
{
    let Some(token) = cursor.peek() else {
        return Decimal::ZERO;
    };
    cursor.advance();
    match token.kind {
        TokenKind::Number => decimal_of(token.bytes),
        _ => Decimal::ZERO,
    }
}

// ---- counts

impl Built<u32> for u32 {
    ghost slot_kind = { kinds.Count };

    ghost Denotes = { DenotesCount };

    fn kind() -> Takes {
        Takes::Count
    }

    fn build(alloc: Global, cursor: &mut Reader<'_>) -> Result<u32, AllocError> {
        Ok(take_count(cursor))
    }
}

/// The next count.
fn take_count(cursor: &mut Reader<'_>) -> u32
    ensures takes { TakesCount cursor.old cursor.new result }
    ensures shorter { length cursor.new ≤ length cursor.old }
{
    let number = take_number(cursor);
    match number.as_count() {
        Some(count) => count,
        None => 0,
    }
}

/// The decimal that the bytes spell.
fn decimal_of(bytes: &[u8]) -> Decimal
    requires { IsNumber bytes.now }
    ensures { Spells bytes.now result.coefficient result.exponent }
{
    match Decimal::from_numeral(bytes) {
        Ok(decimal) => decimal,
        Err(_) => unreachable!(),
    }
}

// ---- texts

impl Built<Text> for Text {
    ghost slot_kind = { kinds.Text };

    ghost Denotes = { DenotesText };

    fn kind() -> Takes {
        Takes::Text
    }

    fn build(alloc: Global, cursor: &mut Reader<'_>) -> Result<Text, AllocError> {
        take_text(alloc, cursor)
    }
}

/// The next text.
pub(crate) fn take_text(alloc: Global, cursor: &mut Reader<'_>) -> Result<Text, AllocError>
    ensures takes { IfOk result (TakesText cursor.old cursor.new) }
    ensures shorter { length cursor.new ≤ length cursor.old }
{
    let Some(token) = cursor.peek() else {
        return Text::copied(alloc, "");
    };
    cursor.advance();
    match token.kind {
        TokenKind::Quoted => text_of(alloc, token.bytes),
        _ => Text::copied(alloc, ""),
    }
}

/// The text between the marks.
fn text_of(alloc: Global, bytes: &[u8]) -> Result<Text, AllocError>
    requires { IsQuoted bytes.now }
    ensures { IfOk result (λ text. text.bytes ≡ undoubled false (drop 1 bytes.now)) }
{
    let content = undoubled(alloc, bytes)?;
    match Text::from_utf8(content) {
        Some(text) => Ok(text),
        None => unreachable!(),
    }
}

/// The bytes between the marks, without the first of two marks.
fn undoubled(alloc: Global, bytes: &[u8]) -> Result<Many<u8>, AllocError>
    ensures { IfOk result (λ content. content ≡ undoubled false (drop 1 bytes.now)) }
{
    let Some((_, others)) = bytes.split_first() else {
        return Ok(Many::new(alloc));
    };
    match plain(others) {
        Some(content) => Many::copied(alloc, content),
        None => each_undoubled(alloc, others),
    }
}

/// The bytes before the closing mark, if there is no other mark.
fn plain(bytes: &[u8]) -> Option<&[u8]>
    ensures { IfSome result (λ content. content.now ≡ undoubled false bytes.now) }
{
    let mark = first_mark(bytes)?;
    if mark + 1 != bytes.len() {
        return None;
    }
    Some(&bytes[..mark])
}

/// The bytes up to the mark that closes them, without the first of two marks.
fn each_undoubled(alloc: Global, bytes: &[u8]) -> Result<Many<u8>, AllocError>
    ensures { IfOk result (λ content. content ≡ undoubled false bytes.now) }
{
    let mut content = Many::new(alloc);
    content.reserve(bytes.len())?;
    let mut marked = false;
    for byte in bytes {
        if marked || *byte != b'"' {
            content.push(*byte)?;
            marked = false;
        } else {
            marked = true;
        }
    }
    Ok(content)
}

// ---- a number or a text

impl Built<NumberOrText> for NumberOrText {
    ghost slot_kind = { kinds.NumberOrText };

    ghost Denotes = { DenotesCode };

    fn kind() -> Takes {
        Takes::NumberOrText
    }

    fn build(alloc: Global, cursor: &mut Reader<'_>) -> Result<NumberOrText, AllocError> {
        if number_comes(cursor) {
            return Ok(NumberOrText::Number(take_number(cursor)));
        }
        let text = take_text(alloc, cursor)?;
        Ok(NumberOrText::Text(text))
    }
}

fn number_comes(cursor: &Reader<'_>) -> bool
    ensures { result ≡ next_is_number cursor.now }
{
    match cursor.peek() {
        Some(token) => match token.kind {
            TokenKind::Number => true,
            _ => false,
        },
        None => false,
    }
}
