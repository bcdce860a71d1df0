//! What a rule finds, and its sentence.

ghost use Rattle.std.specs.Prelude.{◌≡◌, ◌++◌, ◌∷◌, [], IfOk, OnOk};
ghost use Rattle.std.specs.List.{concat};
ghost use Rattle.crs_exact.specs.Said.{piece_said, pieces_said, sentence, parameter_said};

use crate::parts::unit_said;
use crs_number::Decimal;
use crs_part::Parameter;
use itoa::Buffer;
use std::alloc::{AllocError, Global};

/// A piece of a sentence.
#[derive(Clone, Copy)]
pub enum Piece<'a> {
    Text(&'a [u8]),
    Number(&'a Decimal),
    Count(u128),
}

/// What stands in the place of a piece where there are no more.
pub const END: Piece<'static> = Piece::Text(b"");

/// What a rule finds in a system, as the pieces of a sentence.
#[derive(Clone, Copy)]
pub struct Finding<'a> {
    /// The parameter that the pieces are about, which the sentence names first with its value and its unit.
    pub parameter: Option<&'a Parameter>,
    pub pieces: [Piece<'a>; 12],
}

impl<'a> Finding<'a> {
    /// A finding in so many words.
    pub fn of_words(pieces: [Piece<'a>; 12]) -> Finding<'a>
        ensures { sentence result ≡ pieces_said pieces.entry }
    {
        Finding {
            parameter: None,
            pieces,
        }
    }

    /// A finding in one text.
    pub fn of_text(text: &'a [u8]) -> Finding<'a>
        ensures { sentence result ≡ concat (text.now ∷ []) }
    {
        Finding {
            parameter: None,
            pieces: [
                Piece::Text(text),
                END,
                END,
                END,
                END,
                END,
                END,
                END,
                END,
                END,
                END,
                END,
            ],
        }
    }

    /// A parameter, and what is odd about it.
    pub fn of_parameter(parameter: &'a Parameter, what: &'a [u8]) -> Finding<'a>
        ensures { sentence result ≡ parameter_said parameter.now what.now }
    {
        Finding {
            parameter: Some(parameter),
            pieces: [
                Piece::Text(what),
                END,
                END,
                END,
                END,
                END,
                END,
                END,
                END,
                END,
                END,
                END,
            ],
        }
    }

    /// The sentence.
    pub fn said(&self, alloc: Global) -> Result<Vec<u8>, AllocError>
        ensures { IfOk result (λ text. text.items ≡ sentence self.now) }
    {
        let what = pieces_said(alloc, &self.pieces)?;
        match self.parameter {
            Some(parameter) => parameter_said(alloc, parameter, &what),
            None => Ok(what),
        }
    }
}

fn parameter_said<'x>(
    alloc: Global,
    parameter: &'x Parameter,
    what: &'x [u8],
) -> Result<Vec<u8>, AllocError>
    ensures { IfOk result (λ text. text.items ≡ parameter_said parameter.now what.now) }
{
    pieces_said(
        alloc,
        &[
            Piece::Text(b"\""),
            Piece::Text(parameter.name.as_bytes()),
            Piece::Text(b"\" is "),
            Piece::Number(&parameter.value),
            Piece::Text(b" "),
            Piece::Text(unit_said(&parameter.unit)),
            Piece::Text(b": "),
            Piece::Text(what),
        ],
    )
}

// The pieces, one after another.
fn pieces_said(alloc: Global, pieces: &[Piece<'_>]) -> Result<Vec<u8>, AllocError>
    ensures { IfOk result (λ text. text.items ≡ pieces_said pieces.now) }
{
    let mut text = Vec::new(alloc);
    for piece in pieces {
        push_piece(&mut text, piece)?;
    }
    Ok(text)
}

fn push_piece(text: &mut Vec<u8>, piece: &Piece<'_>) -> Result<(), AllocError>
    ensures { OnOk result (text.new.items ≡ text.old.items ++ piece_said piece.now) }
{
    match piece {
        Piece::Text(words) => text.extend_from_slice(words),
        Piece::Number(number) => number.write_to(text),
        Piece::Count(count) => {
            let mut buffer = Buffer::new();
            text.extend_from_slice(buffer.format(*count).as_bytes())
        }
    }
}
