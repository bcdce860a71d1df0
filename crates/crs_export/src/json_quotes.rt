//! Strings of JSON.

ghost use Rattle.std.specs.Prelude.{◌≡◌, ◌++◌, ◌<◌, OnOk};
ghost use Rattle.crs_export.specs.JsonQuotes.{hex_digit, control, escaped_byte, escaped, quoted};

use std::alloc::AllocError;

fn hex_digit(value: u8) -> u8
    requires { value < 16 }
    ensures { result ≡ hex_digit value }
{
    if value < 10 {
        b'0' + value
    } else {
        b'W' + value
    }
}

fn push_control(text: &mut Vec<u8>, byte: u8) -> Result<(), AllocError>
    requires { byte < 32 }
    ensures { OnOk result (text.new.items ≡ text.old.items ++ control byte) }
{
    if byte < 16 {
        text.extend_from_slice(b"\\u000")?;
        text.push(hex_digit(byte))?;
        return Ok(());
    }
    text.extend_from_slice(b"\\u001")?;
    text.push(hex_digit(byte - 16))?;
    Ok(())
}

fn push_byte(text: &mut Vec<u8>, byte: u8) -> Result<(), AllocError>
    ensures { OnOk result (text.new.items ≡ text.old.items ++ escaped_byte byte) }
{
    if byte == b'"' {
        text.extend_from_slice(b"\\\"")?;
        return Ok(());
    }
    if byte == b'\\' {
        text.extend_from_slice(b"\\\\")?;
        return Ok(());
    }
    if byte < 32 {
        push_control(text, byte)?;
        return Ok(());
    }
    text.push(byte)?;
    Ok(())
}

fn push_escaped(text: &mut Vec<u8>, bytes: &[u8]) -> Result<(), AllocError>
    ensures { OnOk result (text.new.items ≡ text.old.items ++ escaped bytes.now) }
{
    let mut rest = bytes;
    while let Some((byte, others)) = rest.split_first() {
        push_byte(text, *byte)?;
        rest = others;
    }
    Ok(())
}

/// Appends a text as a string of JSON, with its quotation marks.
pub fn push_json(text: &mut Vec<u8>, bytes: &[u8]) -> Result<(), AllocError>
    ensures { OnOk result (text.new.items ≡ text.old.items ++ quoted bytes.now) }
{
    text.push(b'"')?;
    push_escaped(text, bytes)?;
    text.push(b'"')?;
    Ok(())
}
