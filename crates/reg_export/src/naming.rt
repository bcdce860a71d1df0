//! The name of the file of a key.

ghost use Rattle.std.specs.Prelude.{◌≡◌, ◌++◌, ◌<◌, IfOk, OnOk};
ghost use Rattle.reg_export.specs.KeyNames.{is_plain, is_capital, stays, hex_digit, named_byte, named, name_with};

use std::alloc::{AllocError, Global};

/// The end of each name.
pub const EXTENSION: &[u8] = b".wkt";

/// What a name has in the place of a capital letter, A to Z.
#[derive(Clone, Copy, Debug, PartialEq, Eq)]
pub enum Capitals {
    /// The letter.
    Stay,
    /// `%` and two digits, as in the place of other bytes. Two such names are never one name where case does not count.
    Escaped,
}

// An ASCII letter, a digit, `-` or `.`.
fn is_plain(byte: u8) -> bool
    ensures { result ≡ is_plain byte }
{
    match byte {
        b'A'..=b'Z' => true,
        b'a'..=b'z' => true,
        b'0'..=b'9' => true,
        b'-' => true,
        b'.' => true,
        _ => false,
    }
}

fn is_capital(byte: u8) -> bool
    ensures { result ≡ is_capital byte }
{
    match byte {
        b'A'..=b'Z' => true,
        _ => false,
    }
}

// Whether the byte stays in a name.
fn stays(capitals: Capitals, byte: u8) -> bool
    ensures { result ≡ stays capitals byte }
{
    match capitals {
        Capitals::Stay => is_plain(byte),
        Capitals::Escaped => is_plain(byte) && !is_capital(byte),
    }
}

fn hex_digit(number: u8) -> u8
    requires { number < 16 }
    ensures { result ≡ hex_digit number }
{
    if number < 10 {
        b'0' + number
    } else {
        b'7' + number
    }
}

fn push_byte(name: &mut Vec<u8>, capitals: Capitals, byte: u8) -> Result<(), AllocError>
    ensures { OnOk result (name.new.items ≡ name.old.items ++ named_byte capitals byte) }
{
    if stays(capitals, byte) {
        name.push(byte)?;
        return Ok(());
    }
    let escape = [b'%', hex_digit(byte / 16), hex_digit(byte % 16)];
    name.extend_from_slice(&escape)
}

fn push_part(name: &mut Vec<u8>, capitals: Capitals, text: &[u8]) -> Result<(), AllocError>
    ensures { OnOk result (name.new.items ≡ name.old.items ++ named capitals text.now) }
{
    let mut rest = text;
    while let Some((byte, others)) = rest.split_first() {
        push_byte(name, capitals, *byte)?;
        rest = others;
    }
    Ok(())
}

/// The name of the file of the key with this authority and code: both, with `_` between, and `.wkt`. Bytes other than ASCII
/// letters, digits, `.` and `-` become `%` and two hexadecimal digits; so do capital letters if they are escaped.
pub fn file_name(
    alloc: Global,
    capitals: Capitals,
    authority: &[u8],
    code: &[u8],
) -> Result<Vec<u8>, AllocError>
    ensures { IfOk result (λ name. name.items ≡ name_with capitals authority.now code.now) }
{
    let mut name = Vec::new(alloc);
    push_part(&mut name, capitals, authority)?;
    name.push(b'_')?;
    push_part(&mut name, capitals, code)?;
    name.extend_from_slice(EXTENSION)?;
    Ok(name)
}
