//! The texts of a file.

ghost use Rattle.std.specs.Prelude.{◌≡◌, ◌+◌, ◌<◌, ◌≤◌, ◌^◌, map, length, take, drop, IfOk, IfSome, IfNone};
ghost use Rattle.std.specs.List.{prefix_len, AllPass};
ghost use Rattle.wkt_tree.specs.Bytes.{is_blank};
ghost use Rattle.wkt_tree.specs.Tokens.{Stops};
ghost use Rattle.wkt_compare.specs.Texts.{begin, piece_of, IsNext, IsCutInto};

use crate::splitting::counting::text_len;
use std::alloc::{AllocError, Global};

/// A text of a file, and the place of its first byte.
#[derive(Clone, Copy, Debug)]
pub struct Cut<'a> {
    pub place: usize,
    pub bytes: &'a [u8],
}

fn is_blank(b: u8) -> bool
    ensures { result ≡ is_blank b }
{
    matches!(b, b' ' | b'\t' | b'\r' | b'\n')
}

#[inline(always)]
fn blank_count(bytes: &[u8]) -> usize
    ensures { result ≡ prefix_len is_blank bytes.now }
{
    bytes.iter().take_while(|b| is_blank(**b)).count()
}

// The number of leading blanks.
fn blank_len(bytes: &[u8]) -> usize
    ensures within { result ≤ length bytes.now }
    ensures blank { AllPass is_blank (take result bytes.now) }
    ensures stops { Stops is_blank (drop result bytes.now) }
{
    blank_count(bytes)
}

/// The offset of the first text or blank, after a byte order mark if there is one.
pub fn begin(file: &[u8]) -> usize
    ensures is { result ≡ begin file.now }
    ensures within { result ≤ length file.now }
{
    if file.starts_with(b"\xef\xbb\xbf") {
        3
    } else {
        0
    }
}

/// The first text at or after a place in the file, and the rest. These bytes of the file begin at the place.
pub fn next_text<'a>(place: usize, bytes: &'a [u8]) -> Option<(Cut<'a>, &'a [u8])>
    requires { place + length bytes.now < 2 ^ 64 }
    ensures some { IfSome result (λ p. IsNext place bytes.now (piece_of p.0) p.1.now) }
    ensures none { IfNone result (AllPass is_blank bytes.now) }
{
    let blanks = blank_len(bytes);
    let (_, from) = bytes.split_at(blanks);
    if from.is_empty() {
        return None;
    }
    let (text, rest) = from.split_at(text_len(from));
    let cut = Cut {
        place: place + blanks,
        bytes: text,
    };
    Some((cut, rest))
}

/// The texts of a file, in order.
pub fn texts<'a>(alloc: Global, file: &'a [u8]) -> Result<Vec<Cut<'a>>, AllocError>
    ensures { IfOk result (λ cuts. IsCutInto file.now (map piece_of cuts.items)) }
{
    let mut cuts = Vec::new(alloc);
    let mut place = begin(file);
    let mut rest = &file[place..];
    while let Some((cut, later)) = next_text(place, rest) {
        place = cut.place + cut.bytes.len();
        rest = later;
        cuts.push(cut)?;
    }
    Ok(cuts)
}
