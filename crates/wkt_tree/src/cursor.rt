//! A text that has passed the scan, and its tokens in order.

ghost use Rattle.std.specs.Prelude.{◌≡◌, List, ℕ, [], All, drop, slice_get, Err, IsOk, IfSome, IfOk, IfErr};
ghost use Rattle.std.specs.Option.{option_map};
ghost use Rattle.wkt_tree.specs.declared.fault.TextFault.{TextFault};
ghost use Rattle.wkt_tree.specs.Tree.{Tok};
ghost use Rattle.wkt_tree.specs.Tokens.{IsSound};
ghost use Rattle.wkt_tree.specs.Cut.{cut};
ghost use Rattle.wkt_tree.specs.Faults.{view, FirstFault, IsOutline};
ghost use Rattle.wkt_tree.specs.Cursor.{IsSoundToken, IsStand, IsSoundCut, tokens_from};

use crate::fault::TextFault;
use crate::lexer::lex;
use crate::scanner::check_text;
use crate::token::Token;
use std::marker::Model;

/// The tokens of a text from a place on, one after another.
#[derive(Drop)]
pub struct Cursor<'a> {
    text: &'a [u8],
    behind: usize,
    token: Option<Token<'a>>,
}

impl<'a> Model for Cursor<'a> {
    ghost Value = { List Tok };

    ghost view = { λ c. tokens_from c.token c.behind c.text.now };

    ghost invariant = { λ c. IsStand c.token c.behind c.text.now };
}

impl<'a> Cursor<'a> {
    /// A cursor before the first token from this place on.
    #[inline(always)]
    fn at(text: &'a [u8], place: usize) -> Cursor<'a>
        requires { IsSoundCut place text.now }
        ensures { result ≡ cut place (drop place text.now) }
    {
        match lex(place, &text[place..]) {
            Ok(Some(token)) => Cursor {
                text,
                behind: token.place + token.bytes.len(),
                token: Some(token),
            },
            Ok(None) => Cursor {
                text,
                behind: place,
                token: None,
            },
            Err(_) => unreachable!(),
        }
    }

    /// The next token.
    #[inline(always)]
    pub fn peek(&self) -> Option<Token<'a>>
        ensures comes { option_map view result ≡ slice_get self.now 0 }
        ensures sound { IfSome result (λ token. IsSound token.kind token.bytes.now) }
    {
        self.token
    }

    /// Another cursor with the same next token.
    #[inline(always)]
    pub fn fork(&self) -> Cursor<'a>
        ensures { result ≡ self.now }
    {
        Cursor {
            text: self.text,
            behind: self.behind,
            token: self.token,
        }
    }

    /// Skips the next token, if there is one.
    #[inline(always)]
    pub fn advance(&mut self)
        ensures { self.new ≡ drop 1 self.old }
    {
        if self.token.is_some() {
            *self = Cursor::at(self.text, self.behind);
        }
    }
}

/// A text that is written with the tokens of one tree.
#[derive(Drop)]
pub struct Outline<'a> {
    text: &'a [u8],
}

impl<'a> Model for Outline<'a> {
    ghost Value = { List ℕ };

    ghost view = { λ o. o.text.now };

    ghost invariant = { λ o. IsOutline o.text.now (cut 0 o.text.now) };
}

impl<'a> Outline<'a> {
    /// Its tokens from the first on.
    #[inline(always)]
    pub fn cursor(&self) -> Cursor<'a>
        ensures tokens { result ≡ cut 0 self.now }
        ensures outline { IsOutline self.now (cut 0 self.now) }
        ensures sound { All IsSoundToken (cut 0 self.now) }
    {
        Cursor::at(self.text, 0)
    }
}

/// Tests that a text is written with the tokens of one tree.
pub fn scan<'a>(text: &'a [u8]) -> Result<Outline<'a>, TextFault>
    ensures ok { IfOk result (λ outline. (outline ≡ text.now) × IsOutline text.now (cut 0 text.now)) }
    ensures err { IfErr result (FirstFault text.now) }

    // A text with an outline is never refused. Any other text gives its first fault.
    ensures passes { (ts : List Tok) → IsOutline text.now ts → IsOk result }
    ensures fails { (fault : TextFault) → FirstFault text.now fault → result ≡ Err fault }
{
    check_text(text)?;
    Ok(Outline { text })
}
