//! Texts in statements of SQL.

ghost use Rattle.std.specs.Prelude.{◌≡◌, ◌++◌, OnOk};
ghost use Rattle.crs_export.specs.SqlQuotes.{escaped_byte, escaped, quoted};

use std::alloc::AllocError;

fn push_byte(text: &mut Vec<u8>, byte: u8) -> Result<(), AllocError>
    ensures { OnOk result (text.new.items ≡ text.old.items ++ escaped_byte byte) }
{
    match byte {
        b'\'' => text.extend_from_slice(b"''"),
        _ => {
            text.push(byte)?;
            Ok(())
        }
    }
}

fn push_escaped(text: &mut Vec<u8>, bytes: &[u8]) -> Result<(), AllocError>
    ensures { OnOk result (text.new.items ≡ text.old.items ++ escaped bytes.now) }
{
    let mut rest = bytes;
    while let Some((byte, others)) = rest.split_first() {
        push_byte(text, *byte)?;
        rest = others;
    }
    Ok(())
}

/// Appends a text of SQL, with its quotation marks.
pub fn push_sql(text: &mut Vec<u8>, bytes: &[u8]) -> Result<(), AllocError>
    ensures { OnOk result (text.new.items ≡ text.old.items ++ quoted bytes.now) }
{
    text.push(b'\'')?;
    push_escaped(text, bytes)?;
    text.push(b'\'')?;
    Ok(())
}
