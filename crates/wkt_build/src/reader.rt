//! The next tokens, and the argument after a comma.

ghost use Rattle.std.specs.Prelude.{◌≡◌, drop, slice_get, IfSome};
ghost use Rattle.std.specs.Bool.{OnTrue};
ghost use Rattle.std.specs.Option.{option_map};
ghost use Rattle.wkt_tree.specs.declared.token.TokenKind.TheVariants.{Word};
ghost use Rattle.wkt_tree.specs.Tokens.{IsSound};
ghost use Rattle.wkt_tree.specs.Faults.{view};
ghost use Rattle.wkt_grammar.specs.Rows.{takes};
ghost use Rattle.wkt_grammar.specs.Next.{coming};
ghost use Rattle.wkt_build.specs.Ahead.{IsAhead, IsKnown, IsTold};
ghost use Rattle.wkt_build.specs.Choices.{next_keyword};
ghost use Rattle.wkt_build.specs.Reads.{comes};

use crs_number::is_count;
use std::marker::Model;
use wkt_grammar::{
    Argument, Keyword, Takes, coming, enters, keyword_of, next_is_comma, next_is_open, takes,
};
use wkt_tree::{Cursor, Token, TokenKind};

/// The argument after a comma, as far as it was looked up.
#[derive(Clone, Copy)]
pub(crate) enum Ahead {
    /// No comma follows.
    NoComma,
    /// A node with this keyword.
    Node(Keyword),
    /// Any argument.
    Anything,
}

/// A cursor that looks up what follows a comma once, and not for each slot.
#[derive(Drop)]
pub(crate) struct Reader<'a> {
    cursor: Cursor<'a>,
    /// The next keyword, if it was looked up.
    keyword: Option<Keyword>,
    behind: Cursor<'a>,
    ahead: Ahead,
}

impl<'a> Model for Reader<'a> {
    ghost use Rattle.std.specs.Prelude.{List};
    ghost use Rattle.wkt_tree.specs.Tree.{Tok};
    ghost use Rattle.wkt_build.specs.Ahead.{IsAhead, IsKnown};

    ghost Value = { List Tok };

    ghost view = { λ r. r.cursor };

    ghost invariant = { λ r. IsAhead r.ahead r.behind r.cursor × IsKnown r.keyword r.cursor };
}

/// The kind of the argument that begins here, if it is a node. Other words are not looked up.
#[inline(always)]
fn told(behind: &Cursor<'_>) -> Ahead
    ensures { IsTold result behind.now }
{
    let Some(token) = behind.peek() else {
        return Ahead::Anything;
    };
    if !is_word(token.kind) {
        return Ahead::Anything;
    }
    let mut inside = behind.fork();
    inside.advance();
    if !next_is_open(&inside) {
        return Ahead::Anything;
    }
    match keyword_of(token.bytes) {
        Some(keyword) => Ahead::Node(keyword),
        None => Ahead::Anything,
    }
}

fn is_word(kind: TokenKind) -> bool
    ensures { OnTrue result (kind ≡ Word) }
{
    matches!(kind, TokenKind::Word)
}

/// Whether a slot of this kind takes the next argument.
#[inline(always)]
fn is_taken(kind: Takes, cursor: &Cursor<'_>) -> bool
    ensures { result ≡ takes kind (coming cursor.now) }
{
    let Some(token) = cursor.peek() else {
        return takes(kind, Argument::OtherNode);
    };
    match token.kind {
        TokenKind::Quoted => takes(kind, Argument::Text),
        // For a slot that takes any number, it is not checked whether it is a count.
        TokenKind::Number => {
            takes(kind, Argument::Number) || takes(kind, Argument::Count) && is_count(token.bytes)
        }
        _ => takes(kind, coming(cursor)),
    }
}

impl<'a> Reader<'a> {
    #[inline(always)]
    pub(crate) fn new(cursor: Cursor<'a>) -> Reader<'a>
        ensures { result ≡ cursor.entry }
    {
        let mut behind = cursor.fork();
        if !next_is_comma(&cursor) {
            return Reader {
                cursor,
                keyword: None,
                behind,
                ahead: Ahead::NoComma,
            };
        }
        behind.advance();
        let ahead = told(&behind);
        Reader {
            cursor,
            keyword: None,
            behind,
            ahead,
        }
    }

    /// The next token.
    #[inline(always)]
    pub(crate) fn peek(&self) -> Option<Token<'a>>
        ensures comes { option_map view result ≡ slice_get self.now 0 }
        ensures sound { IfSome result (λ token. IsSound token.kind token.bytes.now) }
    {
        self.cursor.peek()
    }

    /// The keyword of the next token.
    #[inline(always)]
    pub(crate) fn next_keyword(&self) -> Option<Keyword>
        ensures { result ≡ next_keyword self.now }
    {
        if self.keyword.is_some() {
            return self.keyword;
        }
        match self.cursor.peek() {
            Some(token) => keyword_of(token.bytes),
            None => None,
        }
    }

    /// Skips the next token, if there is one.
    #[inline(always)]
    pub(crate) fn advance(&mut self)
        ensures { self.new ≡ drop 1 self.old }
    {
        self.keyword = None;
        match self.ahead {
            Ahead::NoComma => self.cursor.advance(),
            Ahead::Node(keyword) => {
                self.cursor = self.behind.fork();
                self.keyword = Some(keyword);
            }
            Ahead::Anything => self.cursor = self.behind.fork(),
        }
        if next_is_comma(&self.cursor) {
            self.behind = self.cursor.fork();
            self.behind.advance();
            self.ahead = told(&self.behind);
        } else {
            self.ahead = Ahead::NoComma;
        }
    }

    /// Whether a comma follows, and then an argument that a slot of this kind takes.
    #[inline(always)]
    pub(crate) fn comes(&self, kind: Takes) -> bool
        ensures { result ≡ comes kind self.now }
    {
        match self.ahead {
            Ahead::NoComma => false,
            Ahead::Node(keyword) => enters(kind, keyword).is_some(),
            Ahead::Anything => is_taken(kind, &self.behind),
        }
    }
}
