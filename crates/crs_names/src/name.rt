//! Names that are empty, or have odd blanks or hidden characters.

ghost use Rattle.std.specs.Prelude.{◌≡◌, true};
ghost use Rattle.crs_exact.specs.Said.{sentence};
ghost use Rattle.crs_names.specs.Name.{is_blank, begins_hidden, is_text_odd, name_said};

use crs_exact::{END, Finding, Piece};
use crs_part::Text;
use text_hidden::hidden_at;

/// The sentence of a name.
pub(crate) fn name_said(name: &Text) -> Finding<'_>
    ensures { sentence result ≡ name_said name.now }
{
    Finding::of_words([
        Piece::Text(b"the name \""),
        Piece::Text(name.as_bytes()),
        Piece::Text(
            b"\" is empty, or has a blank at an end, two blanks in a row, or a hidden character",
        ),
        END,
        END,
        END,
        END,
        END,
        END,
        END,
        END,
        END,
    ])
}

/// Whether a text is empty, has a blank at an end or two in a row, or a hidden character.
pub(crate) fn is_text_odd(text: &[u8]) -> bool
    ensures { result ≡ is_text_odd text.now }
{
    let mut rest = text;
    let mut blank = true;
    while let Some((byte, others)) = rest.split_first() {
        if begins_hidden(*byte, others) || (blank && is_blank(*byte)) {
            return true;
        }
        blank = is_blank(*byte);
        rest = others;
    }
    blank
}

fn is_blank(byte: u8) -> bool
    ensures { result ≡ is_blank byte }
{
    byte == b' '
}

#[tactic(auto, unfolding(crate::specs::Name::begins_hidden))]
fn begins_hidden(byte: u8, rest: &[u8]) -> bool
    ensures { result ≡ begins_hidden byte rest.now }
{
    hidden_at(byte, rest).is_some()
}
