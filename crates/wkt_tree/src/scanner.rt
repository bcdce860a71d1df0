//! Tests that a text is written with the tokens of one tree.

ghost use Rattle.std.specs.Prelude.{◌≤◌, length, List, OnOk, IfErr};
ghost use Rattle.wkt_tree.specs.Tree.{Tok, IsTree};
ghost use Rattle.wkt_tree.specs.Tokens.{Cut};
ghost use Rattle.wkt_tree.specs.Faults.{FirstFault, IsOutline, TokenFault};

use crate::fault::TextFault;
use crate::lexer::read;
use crate::machine::{Phase, take_token};
use crate::stack::Stack;

/// The most bytes of a text that is read.
pub const MAX_TEXT: usize = 1_048_576;

fn scan_tokens(text: &[u8]) -> Result<(), TextFault>
    requires { length text.now ≤ 1048576 }
    ensures ok { OnOk result ((ts : List Tok) × Cut 0 text.now ts × IsTree 16 ts) }
    ensures err { IfErr result (TokenFault text.now) }
{
    let mut phase = Phase::Begin;
    let mut stack = Stack::new();
    let mut place = 0;
    while let Some(token) = read(place, &text[place..])? {
        phase = take_token(phase, &mut stack, token.kind, token.place)?;
        place = token.place + token.bytes.len();
    }
    match phase {
        Phase::Past => {
            if stack.is_empty() {
                Ok(())
            } else {
                Err(TextFault::EndEarly(text.len()))
            }
        }
        Phase::Begin => Err(TextFault::EndEarly(text.len())),
        Phase::Named => Err(TextFault::EndEarly(text.len())),
    }
}

/// Tests that the text is written with the tokens of one tree.
pub(crate) fn check_text(text: &[u8]) -> Result<(), TextFault>
    ensures ok { OnOk result ((ts : List Tok) × IsOutline text.now ts) }
    ensures err { IfErr result (FirstFault text.now) }
{
    if text.len() > MAX_TEXT {
        return Err(TextFault::TooLong);
    }
    if let Err(error) = simdutf8::compat::from_utf8(text) {
        return Err(TextFault::NotUtf8(error.valid_up_to()));
    }
    scan_tokens(text)
}
