//! Pieces of a text, which are kept or left out as a whole.

ghost use Rattle.std.specs.Prelude.{◌≡◌, ◌<◌, ◌≤◌, length, take, slice_index, IfSome};
ghost use Rattle.std.specs.List.{AllPass};
ghost use Rattle.wkt_write.specs.Pieces.{is_plain, IsPiece};

use crate::condensing::bytes::{blank_len, is_delimiter, plain_len, shuts};
use wkt_tree::first_mark;

/// A run of bytes at the front: its length, whether it is kept, and whether its last non-blank byte is a delimiter.
#[derive(Clone, Copy)]
pub(crate) struct FrontRun {
    pub len: usize,
    pub kept: bool,
    pub shut: bool,
}

/// The next piece of the text, or none if it can be neither kept nor left out.
#[inline(always)]
pub(crate) fn next_piece(shut: bool, bytes: &[u8]) -> Option<FrontRun>
    requires { 0 < length bytes.now }
    ensures { IfSome result (λ piece. IsPiece shut bytes.now piece) }
{
    let len = plain_len(bytes);
    if len > 0 {
        return Some(plain_piece(shut, bytes, len));
    }
    if bytes[0] == b'"' {
        quoted_piece(shut, bytes)
    } else {
        blank_piece(shut, bytes)
    }
}

/// A word, a numeral, delimiters.
#[inline(always)]
fn plain_piece(shut: bool, bytes: &[u8], len: usize) -> FrontRun
    requires some { 0 < len }
    requires within { len ≤ length bytes.now }
    requires plain { AllPass is_plain (take len bytes.now) }
    ensures { IsPiece shut bytes.now result }
{
    FrontRun {
        len,
        kept: true,
        shut: is_delimiter(bytes[len - 1]),
    }
}

/// A quotation mark, up to the next.
#[inline(always)]
fn quoted_piece(shut: bool, bytes: &[u8]) -> Option<FrontRun>
    requires some { 0 < length bytes.now }
    requires mark { slice_index bytes.now 0 ≡ 34 }
    ensures { IfSome result (λ piece. IsPiece shut bytes.now piece) }
{
    let (_, others) = bytes.split_at(1);
    let inside = first_mark(others)?;
    Some(FrontRun {
        len: inside + 2,
        kept: true,
        shut: false,
    })
}

/// Blanks that may be left out.
#[inline(always)]
fn blank_piece(shut: bool, bytes: &[u8]) -> Option<FrontRun>
    ensures { IfSome result (λ piece. IsPiece shut bytes.now piece) }
{
    let len = blank_len(bytes);
    if len == 0 {
        return None;
    }
    let (_, others) = bytes.split_at(len);
    if shut || shuts(others) {
        return Some(FrontRun {
            len,
            kept: false,
            shut,
        });
    }
    None
}
