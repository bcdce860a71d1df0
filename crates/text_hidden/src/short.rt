//! The first 200 characters of a text.

ghost use Rattle.std.specs.Prelude.{◌≡◌, ◌++◌, OnOk};
ghost use Rattle.text_hidden.specs.Short.{starts, first_characters, shortened, ellipsis_of, short};

use std::alloc::AllocError;

/// The most characters of a text that are shown.
const MOST: usize = 200;

// 1 for a byte at which a character begins, else 0.
fn starts(byte: u8) -> usize
    ensures { result ≡ starts byte }
{
    if byte < 128 || 191 < byte {
        return 1;
    }
    0
}

/// The first 200 characters of a text.
pub fn shortened(text: &[u8]) -> &[u8]
    ensures { result.now ≡ shortened text.now }
{
    let mut left = MOST;
    let mut at = 0;
    while at < text.len() {
        let start = starts(text[at]);
        if left < start {
            return &text[..at];
        }
        left -= start;
        at += 1;
    }
    text
}

/// Appends `…`, if a text has more than its first 200 characters.
pub fn push_ellipsis(out: &mut Vec<u8>, text: &[u8]) -> Result<(), AllocError>
    ensures { OnOk result (out.new.items ≡ out.old.items ++ ellipsis_of text.now) }
{
    if shortened(text).len() < text.len() {
        out.extend_from_slice(b"\xe2\x80\xa6")?;
    }
    Ok(())
}

/// Appends the first 200 characters of a text, and `…` if there are more.
pub fn push_short(out: &mut Vec<u8>, text: &[u8]) -> Result<(), AllocError>
    ensures { OnOk result (out.new.items ≡ out.old.items ++ short text.now) }
{
    out.extend_from_slice(shortened(text))?;
    push_ellipsis(out, text)?;
    Ok(())
}
