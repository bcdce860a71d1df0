//! Character references for the characters that have a meaning in HTML.

ghost use Rattle.std.specs.Prelude.{◌≡◌, ◌++◌, OnOk};
ghost use Rattle.html_page.specs.Escaped.{escaped_byte, escaped};

use std::alloc::AllocError;

/// Appends the byte, or its reference.
pub fn push_byte(page: &mut Vec<u8>, byte: u8) -> Result<(), AllocError>
    ensures { OnOk result (page.new.items ≡ page.old.items ++ escaped_byte byte) }
{
    match byte {
        b'&' => page.extend_from_slice(b"&amp;"),
        b'<' => page.extend_from_slice(b"&lt;"),
        b'>' => page.extend_from_slice(b"&gt;"),
        b'"' => page.extend_from_slice(b"&#34;"),
        b'\'' => page.extend_from_slice(b"&#39;"),
        _ => {
            page.push(byte)?;
            Ok(())
        }
    }
}

/// Appends the text, escaped.
pub fn push_escaped(page: &mut Vec<u8>, text: &[u8]) -> Result<(), AllocError>
    ensures { OnOk result (page.new.items ≡ page.old.items ++ escaped text.now) }
{
    let mut rest = text;
    while let Some((byte, others)) = rest.split_first() {
        push_byte(page, *byte)?;
        rest = others;
    }
    Ok(())
}
