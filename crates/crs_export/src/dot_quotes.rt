//! Texts in labels of DOT.

ghost use Rattle.std.specs.Prelude.{◌≡◌, ◌++◌, OnOk};
ghost use Rattle.crs_export.specs.DotQuotes.{escaped_byte, escaped, quoted};

use std::alloc::AllocError;

/// `⟨U+0000⟩`, in place of U+0000: `dot` ends a line there.
const NULL_MARK: [u8; 12] = [
    226, 159, 168, b'U', b'+', b'0', b'0', b'0', b'0', 226, 159, 169,
];

fn push_byte(text: &mut Vec<u8>, byte: u8) -> Result<(), AllocError>
    ensures { OnOk result (text.new.items ≡ text.old.items ++ escaped_byte byte) }
{
    match byte {
        b'"' => text.extend_from_slice(b"\\\""),
        b'\\' => text.extend_from_slice(b"\\\\"),
        b'\n' => text.extend_from_slice(b"\\n"),
        b'&' => text.extend_from_slice(b"&amp;"),
        0 => text.extend_from_slice(&NULL_MARK),
        _ => {
            text.push(byte)?;
            Ok(())
        }
    }
}

/// Appends a text of a label, without quotation marks.
pub fn push_dot(text: &mut Vec<u8>, bytes: &[u8]) -> Result<(), AllocError>
    ensures { OnOk result (text.new.items ≡ text.old.items ++ escaped bytes.now) }
{
    let mut rest = bytes;
    while let Some((byte, others)) = rest.split_first() {
        push_byte(text, *byte)?;
        rest = others;
    }
    Ok(())
}
