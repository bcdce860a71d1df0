//! The nodes that are open at a place.

ghost use Rattle.std.specs.Prelude.{◌≡◌, true, [], map, IfOk, OnOk};
ghost use Rattle.wkt_tree.specs.Bytes.{is_blank, is_word_byte};
ghost use Rattle.wkt_explain.specs.Path.{piece_of, trail_seen, start, outside, takes, open_at, path_at};

use std::alloc::{AllocError, Global};
use std::mem;

/// The kind of a byte outside quotation marks.
#[derive(Clone, Copy, Debug, PartialEq, Eq)]
pub(crate) enum ByteKind {
    Mark,
    Opens,
    Closes,
    InWord,
    Blank,
    Other,
}

pub(crate) fn is_word_byte(b: u8) -> bool
    ensures { result ≡ is_word_byte b }
{
    b.is_ascii_alphabetic() || b.is_ascii_digit() || b == b'_'
}

pub(crate) fn is_blank(b: u8) -> bool
    ensures { result ≡ is_blank b }
{
    b == b' ' || b == b'\t' || b == b'\r' || b == b'\n'
}

fn piece_of(b: u8) -> ByteKind
    ensures { result ≡ piece_of b }
{
    if is_word_byte(b) {
        return ByteKind::InWord;
    }
    if is_blank(b) {
        return ByteKind::Blank;
    }
    match b {
        b'"' => ByteKind::Mark,
        b'[' => ByteKind::Opens,
        b'(' => ByteKind::Opens,
        b']' => ByteKind::Closes,
        b')' => ByteKind::Closes,
        _ => ByteKind::Other,
    }
}

/// The state at a place: whether it is in quotation marks, the word before it, whether that word is complete, and the
/// words before the open delimiters, the outermost first.
#[derive(Drop)]
pub(crate) struct PathTrail {
    quoted: bool,
    whole: bool,
    word: Vec<u8>,
    opened: Vec<Vec<u8>>,
}

impl PathTrail {
    fn new(alloc: Global) -> PathTrail
        ensures { trail_seen result ≡ start }
    {
        PathTrail {
            quoted: false,
            whole: true,
            word: Vec::new(alloc),
            opened: Vec::new(alloc),
        }
    }

    fn extend(&mut self, b: u8) -> Result<(), AllocError>
        ensures { OnOk result (trail_seen self.new ≡ outside ByteKind.InWord b (trail_seen self.old)) }
    {
        if self.whole {
            self.word.clear();
        }
        self.word.push(b)?;
        self.whole = false;
        Ok(())
    }

    fn begin(&mut self, alloc: Global, b: u8) -> Result<(), AllocError>
        ensures { OnOk result (trail_seen self.new ≡ outside ByteKind.Opens b (trail_seen self.old)) }
    {
        let word = mem::replace(&mut self.word, Vec::new(alloc));
        self.opened.push(word)?;
        self.whole = true;
        Ok(())
    }

    fn end(&mut self, b: u8)
        ensures { trail_seen self.new ≡ outside ByteKind.Closes b (trail_seen self.old) }
    {
        let _ = self.opened.pop();
        self.word.clear();
        self.whole = true;
    }

    fn forget(&mut self, quoted: bool)
        ensures { trail_seen self.new ≡ record (trail_seen self.old) { quoted = quoted; whole = true; word = [] } }
    {
        self.quoted = quoted;
        self.word.clear();
        self.whole = true;
    }

    fn take_outside(&mut self, alloc: Global, b: u8) -> Result<(), AllocError>
        ensures { OnOk result (trail_seen self.new ≡ outside (piece_of b) b (trail_seen self.old)) }
    {
        match piece_of(b) {
            ByteKind::InWord => self.extend(b),
            ByteKind::Opens => self.begin(alloc, b),
            ByteKind::Blank => {
                self.whole = true;
                Ok(())
            }
            ByteKind::Closes => {
                self.end(b);
                Ok(())
            }
            ByteKind::Mark => {
                self.forget(true);
                Ok(())
            }
            ByteKind::Other => {
                self.forget(false);
                Ok(())
            }
        }
    }

    fn take(&mut self, alloc: Global, b: u8) -> Result<(), AllocError>
        ensures { OnOk result (trail_seen self.new ≡ takes (trail_seen self.old) b) }
    {
        if !self.quoted {
            return self.take_outside(alloc, b);
        }
        if b == b'"' {
            self.forget(false);
        }
        Ok(())
    }
}

// The words before the delimiters that are open after the text.
fn open_at(alloc: Global, text: &[u8]) -> Result<Vec<Vec<u8>>, AllocError>
    ensures { IfOk result (λ words. map (λ w. w.items) words.items ≡ open_at text.now) }
{
    let mut trail = PathTrail::new(alloc);
    let mut rest = text;
    while let Some((b, others)) = rest.split_first() {
        trail.take(alloc, *b)?;
        rest = others;
    }
    let PathTrail {
        quoted: _,
        whole: _,
        word: _,
        opened,
    } = trail;
    Ok(opened)
}

/// The keywords of the nodes that are open after the text, the outermost first.
pub(crate) fn path_at(alloc: Global, text: &[u8]) -> Result<Vec<Vec<u8>>, AllocError>
    ensures { IfOk result (λ path. map (λ w. w.items) path.items ≡ path_at text.now) }
{
    let opened = open_at(alloc, text)?;
    let mut path = Vec::new(alloc);
    for word in opened {
        if !word.is_empty() {
            path.push(word)?;
        }
    }
    Ok(path)
}
