//! Reads one token from the front of some bytes.
//!
//! Every function of this module, of `machine` and of `stack` is inlined into the loops that call
//! them: that halves the time of a scan.

ghost use Rattle.std.specs.Prelude.{◌≡◌, ◌+◌, ◌<◌, ◌≤◌, ◌^◌, length, take, drop, IfSome, IfNone, OnOk, IfErr};
ghost use Rattle.std.specs.List.{prefix_len, AllPass};
ghost use Rattle.wkt_tree.specs.Bytes.{is_blank, is_word_byte, is_number_byte, begun_by};
ghost use Rattle.wkt_tree.specs.Tokens.{Follow, Ends, IsUnclosed, Stops, IsReadable};
ghost use Rattle.wkt_tree.specs.Faults.{Lexes, Reads, Misread};

use crate::bytes::{BEGINNINGS, BLANKS, NUMBER_BYTES, WORD_BYTES};
use crate::fault::TextFault;
use crate::marks::first_mark;
use crate::token::{Token, TokenKind};
use crs_number::{NumberFault, check_numeral};

#[inline(always)]
fn is_blank(b: u8) -> bool
    ensures { result ≡ is_blank b }
{
    BLANKS[b as usize]
}

#[inline(always)]
fn is_word_byte(b: u8) -> bool
    ensures { result ≡ is_word_byte b }
{
    WORD_BYTES[b as usize]
}

#[inline(always)]
fn is_number_byte(b: u8) -> bool
    ensures { result ≡ is_number_byte b }
{
    NUMBER_BYTES[b as usize]
}

#[tactic(auto, unfolding(crate::specs::Bytes::begun_by))]
#[inline(always)]
fn kind_of(b: u8) -> Option<TokenKind>
    ensures { result ≡ begun_by b }
{
    BEGINNINGS[b as usize]
}

#[inline(always)]
fn blank_count(bytes: &[u8]) -> usize
    ensures { result ≡ prefix_len is_blank bytes.now }
{
    bytes.iter().take_while(|b| is_blank(**b)).count()
}

/// The number of leading blanks.
#[inline(always)]
fn blank_len(bytes: &[u8]) -> usize
    ensures within { result ≤ length bytes.now }
    ensures blank { AllPass is_blank (take result bytes.now) }
    ensures stops { Stops is_blank (drop result bytes.now) }
{
    blank_count(bytes)
}

#[inline(always)]
fn word_len(bytes: &[u8]) -> usize
    ensures { result ≡ prefix_len is_word_byte bytes.now }
{
    bytes.iter().take_while(|b| is_word_byte(**b)).count()
}

#[inline(always)]
fn number_len(bytes: &[u8]) -> usize
    ensures { result ≡ prefix_len is_number_byte bytes.now }
{
    bytes.iter().take_while(|b| is_number_byte(**b)).count()
}

/// The number of bytes after the opening mark that belong to the text, the closing mark included.
#[inline(always)]
fn quoted_len(bytes: &[u8]) -> Option<usize>
    ensures within { IfSome result (λ n. n ≤ length bytes.now) }
    ensures follow { IfSome result (λ n. Follow TokenKind.Quoted (take n bytes.now)) }
    ensures ends { IfSome result (λ n. Ends TokenKind.Quoted (drop n bytes.now)) }
    ensures none { IfNone result (IsUnclosed bytes.now) }
{
    let mut i = 0;
    while i < bytes.len() {
        let (_, rest) = bytes.split_at(i);
        let Some(plain) = first_mark(rest) else {
            return None;
        };
        let mark = i + plain;
        if mark + 1 < bytes.len() && bytes[mark + 1] == b'"' {
            i = mark + 2;
        } else {
            return Some(mark + 1);
        }
    }
    None
}

/// The number of bytes of a token of this kind after its first one.
#[inline(always)]
fn follow_len(kind: TokenKind, bytes: &[u8]) -> Option<usize>
    ensures within { IfSome result (λ n. n ≤ length bytes.now) }
    ensures follow { IfSome result (λ n. Follow kind (take n bytes.now)) }
    ensures ends { IfSome result (λ n. Ends kind (drop n bytes.now)) }
    ensures quoted { IfNone result (kind ≡ TokenKind.Quoted) }
    ensures none { IfNone result (IsUnclosed bytes.now) }
{
    match kind {
        TokenKind::Word => Some(word_len(bytes)),
        TokenKind::Number => Some(number_len(bytes)),
        TokenKind::Quoted => quoted_len(bytes),
        TokenKind::Comma => Some(0),
        TokenKind::Open(_) => Some(0),
        TokenKind::Close(_) => Some(0),
    }
}

/// Whether the token can be read, if it is a number.
#[inline(always)]
fn check_number(token: &Token<'_>) -> Result<(), TextFault>
    ensures ok { OnOk result (IsReadable token.now.kind token.now.bytes.now) }
    ensures err { IfErr result (Misread token.now.kind token.now.bytes.now token.now.place) }
{
    match token.kind {
        TokenKind::Number => check_numeral_at(token.bytes, token.place),
        TokenKind::Word => Ok(()),
        TokenKind::Quoted => Ok(()),
        TokenKind::Comma => Ok(()),
        TokenKind::Open(_) => Ok(()),
        TokenKind::Close(_) => Ok(()),
    }
}

#[inline(always)]
fn check_numeral_at(token: &[u8], place: usize) -> Result<(), TextFault>
    ensures ok { OnOk result (IsReadable TokenKind.Number token.now) }
    ensures err { IfErr result (Misread TokenKind.Number token.now place) }
{
    match check_numeral(token) {
        Ok(()) => Ok(()),
        Err(NumberFault::BadNumber) => Err(TextFault::BadNumber(place)),
        Err(NumberFault::NumberRange) => Err(TextFault::NumberRange(place)),
    }
}

/// The token at the front of the bytes, which do not begin with a blank. A number need not be readable.
#[inline(always)]
fn token_at<'a>(place: usize, bytes: &'a [u8]) -> Result<Option<Token<'a>>, TextFault>
    requires { Stops is_blank bytes.now }
    ensures { Lexes place bytes.now result }
{
    let Some((first, others)) = bytes.split_first() else {
        return Ok(None);
    };
    let Some(kind) = kind_of(*first) else {
        return Err(TextFault::BadByte(place));
    };
    let Some(follow) = follow_len(kind, others) else {
        return Err(TextFault::TextOpen(place));
    };
    Ok(Some(Token {
        kind,
        place,
        bytes: &bytes[..1 + follow],
    }))
}

/// The first token from this place on. A number need not be readable.
#[inline(always)]
pub(crate) fn lex<'a>(place: usize, bytes: &'a [u8]) -> Result<Option<Token<'a>>, TextFault>
    requires { place + length bytes.now < 2 ^ 64 }
    ensures { Lexes place bytes.now result }
{
    let blanks = blank_len(bytes);
    let (_, from) = bytes.split_at(blanks);
    token_at(place + blanks, from)
}

/// The first token from this place on.
#[inline(always)]
pub(crate) fn read<'a>(place: usize, bytes: &'a [u8]) -> Result<Option<Token<'a>>, TextFault>
    requires { place + length bytes.now < 2 ^ 64 }
    ensures { Reads place bytes.now result }
{
    let Some(token) = lex(place, bytes)? else {
        return Ok(None);
    };
    check_number(&token)?;
    Ok(Some(token))
}
