//! The two lines at the head of an office file.

ghost use Rattle.std.specs.Prelude.{◌≡◌, ◌++◌, ℕ, List, IfSome, IfNone, IsTrue, OnOk, ◌↔◌};
ghost use Rattle.uuid.specs.Text.{hyphenated_text, lower};
ghost use Rattle.reg_journal.specs.declared.head.Head.{Head as Lines};
ghost use Rattle.reg_journal.specs.Text.{head_text, BeginsOffice, IsHead, line_text};

use crate::numeral::line_of;
use crate::office_file::bytes_fit;
use itoa::Buffer;
use std::alloc::AllocError;
use uuid::Uuid;

/// The office, the last number that it gave, and the greatest that is known to have stood in a register.
#[derive(Clone, Copy)]
pub struct Head {
    pub replica: Uuid,
    pub last: u32,
    pub stood: u32,
}

/// The head of a text, and what follows it.
pub fn read_head(text: &[u8]) -> Option<(Head, &[u8])>
    ensures found { IfSome result (λ p. (text.now ≡ head_text p.0 ++ p.1.now) × IsHead p.0) }
    ensures none { IfNone result ((h : Lines) (rest : List ℕ) → IsHead h → ¬ (text.now ≡ head_text h ++ rest)) }
{
    if text.len() < 36 {
        return None;
    }
    let (front, back) = text.split_at(36);
    let Some(replica) = office_in(front) else {
        return None;
    };
    let Some((colon, lines)) = back.split_first() else {
        return None;
    };
    if *colon != b':' {
        return None;
    }
    let Some((last, second)) = line_of(lines) else {
        return None;
    };
    let Some((stood, rest)) = line_of(second) else {
        return None;
    };
    bytes_fit(replica.as_bytes());
    let head = Head {
        replica,
        last,
        stood,
    };
    Some((head, rest))
}

/// Whether a text begins as an office file does: with its two lines, and then with these bytes.
pub fn begins_office(text: &[u8], file: &[u8]) -> bool
    ensures { IsTrue result ↔ BeginsOffice file.now text.now }
{
    match read_head(text) {
        Some((_, rest)) => rest.starts_with(file),
        None => false,
    }
}

// The UUID that the text spells in small letters.
fn office_in(text: &[u8]) -> Option<Uuid>
    ensures found { IfSome result (λ u. text.now ≡ hyphenated_text lower u) }
    ensures none { IfNone result ((h : Lines) → IsHead h → ¬ (text.now ≡ hyphenated_text lower h.replica)) }
{
    let Ok(replica) = Uuid::try_parse_ascii(text) else {
        return None;
    };
    if !is_small(replica, text) {
        return None;
    }
    Some(replica)
}

// Whether the text is the UUID in small letters.
fn is_small(replica: Uuid, text: &[u8]) -> bool
    ensures { IsTrue result ↔ (text.now ≡ hyphenated_text lower replica) }
{
    let mut buffer = Uuid::encode_buffer();
    text == replica.hyphenated().encode_lower(&mut buffer).as_bytes()
}

/// Appends the head.
pub fn put_head(out: &mut Vec<u8>, head: Head) -> Result<(), AllocError>
    ensures { OnOk result (out.new.items ≡ out.old.items ++ head_text head) }
{
    let mut buffer = Uuid::encode_buffer();
    let replica = head.replica.hyphenated().encode_lower(&mut buffer);
    out.extend_from_slice(replica.as_bytes())?;
    out.push(b':')?;
    put_line(out, head.last)?;
    put_line(out, head.stood)?;
    Ok(())
}

// Appends a line with the number.
fn put_line(out: &mut Vec<u8>, number: u32) -> Result<(), AllocError>
    ensures { OnOk result (out.new.items ≡ out.old.items ++ line_text number) }
{
    let mut digits = Buffer::new();
    out.extend_from_slice(digits.format(number).as_bytes())?;
    out.push(b'\n')?;
    Ok(())
}
