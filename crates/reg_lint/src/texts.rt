//! The texts of a file.

ghost use Rattle.std.specs.Prelude.{◌≡◌, ◌++◌, ◌∷◌, [], IfOk, IfErr, OnOk, map};
ghost use Rattle.wkt_crs.specs.Spells.{Spells};
ghost use Rattle.wkt_compare.specs.Texts.{piece_of};
ghost use Rattle.reg_lint.specs.declared.kept.KeptSubject.{KeptSubject as OneKept};
ghost use Rattle.reg_lint.specs.Texts.{label_of, IsTextKept, AreTextsKept, AreKeptOf, IsUnread, IsFirstUnread, IsFileUnread, why_of};

use crate::kept::{KeptSubject, Room, form_of_text};
use crs_value::Crs;
use itoa::Buffer;
use std::alloc::{AllocError, Global};
use wkt_compare::splitting::{Cut, texts};
use wkt_crs::{Unspelled, read_crs};

/// Why the texts of a file are not looked at.
#[derive(Clone, Copy, Debug, PartialEq, Eq)]
pub enum Unread {
    /// A text spells no reference system, for this reason.
    Refused {
        fault: Unspelled,
        /// The offset in the file of the text's first byte.
        place: usize,
        /// The length of the text in bytes.
        len: usize,
    },
    Memory,
}

/// Appends what is kept of a file's texts, in order. Each is named by the file and the offset of its text.
pub fn push_texts(
    alloc: Global,
    kept: &mut Vec<KeptSubject>,
    name: &[u8],
    file: &[u8],
) -> Result<(), Unread>
    ensures ok { OnOk result (AreKeptOf name.now file.now kept.old.items kept.new.items) }
    ensures fault { IfErr result (IsFileUnread file.now) }
{
    let Ok(cuts) = texts(alloc, file) else {
        return Err(Unread::Memory);
    };
    let mut room = Room::beside(kept.as_slice());
    match push_cuts(alloc, &mut room, kept, name, &cuts) {
        Ok(()) => Ok(()),
        Err(why) => Err(why),
    }
}

fn push_cuts(
    alloc: Global,
    room: &mut Room,
    kept: &mut Vec<KeptSubject>,
    name: &[u8],
    cuts: &[Cut<'_>],
) -> Result<(), Unread>
    ensures ok { OnOk result (AreTextsKept name.now (map piece_of cuts.now) kept.old.items kept.new.items) }
    ensures fault { IfErr result (IsFirstUnread (map piece_of cuts.now)) }
{
    for cut in cuts {
        push_text(alloc, room, kept, name, cut)?;
    }
    Ok(())
}

fn push_text(
    alloc: Global,
    room: &mut Room,
    kept: &mut Vec<KeptSubject>,
    name: &[u8],
    cut: &Cut<'_>,
) -> Result<(), Unread>
    ensures ok { OnOk result ((k : OneKept) × IsTextKept name.now (piece_of cut.now) k × (kept.new.items ≡ kept.old.items ++ k ∷ [])) }
    ensures fault { IfErr result (IsUnread (piece_of cut.now)) }
{
    let one = match kept_at(alloc, room, name, cut) {
        Ok(one) => one,
        Err(why) => return Err(why),
    };
    match kept.push(one) {
        Ok(()) => Ok(()),
        Err(_) => Err(Unread::Memory),
    }
}

fn kept_at(
    alloc: Global,
    room: &mut Room,
    name: &[u8],
    cut: &Cut<'_>,
) -> Result<KeptSubject, Unread>
    ensures ok { IfOk result (IsTextKept name.now (piece_of cut.now)) }
    ensures fault { IfErr result (IsUnread (piece_of cut.now)) }
{
    let crs = match read_at(alloc, cut) {
        Ok(crs) => crs,
        Err(why) => return Err(why),
    };
    let Ok(label) = label_of(alloc, name, cut.place) else {
        return Err(Unread::Memory);
    };
    let Ok(form) = form_of_text(alloc, room, cut.bytes, crs) else {
        return Err(Unread::Memory);
    };
    Ok(KeptSubject { label, form })
}

fn read_at(alloc: Global, cut: &Cut<'_>) -> Result<Crs, Unread>
    ensures ok { IfOk result (Spells cut.now.bytes.now) }
    ensures fault { IfErr result (IsUnread (piece_of cut.now)) }
{
    match read_crs(alloc, cut.bytes) {
        Ok(crs) => Ok(crs),
        Err(fault) => Err(why_of(cut, fault.unspelled())),
    }
}

// Why the text is refused.
fn why_of(cut: &Cut<'_>, fault: Option<Unspelled>) -> Unread
    ensures { result ≡ why_of (piece_of cut.now) fault }
{
    match fault {
        Some(fault) => Unread::Refused {
            fault,
            place: cut.place,
            len: cut.bytes.len(),
        },
        None => Unread::Memory,
    }
}

fn label_of(alloc: Global, name: &[u8], place: usize) -> Result<Vec<u8>, AllocError>
    ensures { IfOk result (λ label. label.items ≡ label_of name.now place) }
{
    let mut label = Vec::new(alloc);
    label.extend_from_slice(name)?;
    label.push(b':')?;
    let mut buffer = Buffer::new();
    label.extend_from_slice(buffer.format(place).as_bytes())?;
    Ok(label)
}
