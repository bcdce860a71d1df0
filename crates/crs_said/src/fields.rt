//! Fields of a text.

ghost use Rattle.std.specs.Prelude.{◌≡◌, ◌≤◌, ◌++◌, [], length, take, drop, IfOk, OnOk};
ghost use Rattle.crs_said.specs.Fields.{ended, folded, name_field, label_field, count_field};
ghost use Rattle.crs_exact.specs.Names.{plain};

use crs_part::Text;
use itoa::Buffer;
use std::alloc::{AllocError, Global};

/// Ends a field.
const END: u8 = 255;

/// Appends a field.
pub(crate) fn push_field(out: &mut Vec<u8>, bytes: &[u8]) -> Result<(), AllocError>
    ensures { OnOk result (out.new.items ≡ out.old.items ++ ended bytes.now) }
{
    out.extend_from_slice(bytes)?;
    push_end(out)
}

/// Appends the end of a field.
pub(crate) fn push_end(out: &mut Vec<u8>) -> Result<(), AllocError>
    ensures { OnOk result (out.new.items ≡ out.old.items ++ ended []) }
{
    out.push(END)?;
    Ok(())
}

/// Appends a name that counts: as it is spelled, or folded.
pub(crate) fn push_name(exact: bool, name: &Text, out: &mut Vec<u8>) -> Result<(), AllocError>
    ensures { OnOk result (out.new.items ≡ out.old.items ++ name_field exact name.now.bytes) }
{
    if exact {
        return push_field(out, name.as_bytes());
    }
    push_folded(out, name.as_bytes())?;
    push_end(out)
}

/// Appends a name that counts only as it is spelled.
pub(crate) fn push_label(exact: bool, name: &Text, out: &mut Vec<u8>) -> Result<(), AllocError>
    ensures { OnOk result (out.new.items ≡ out.old.items ++ label_field exact name.now.bytes) }
{
    if exact {
        return push_field(out, name.as_bytes());
    }
    Ok(())
}

/// Appends a count.
pub(crate) fn push_count(out: &mut Vec<u8>, count: u32) -> Result<(), AllocError>
    ensures { OnOk result (out.new.items ≡ out.old.items ++ count_field count) }
{
    let mut buffer = Buffer::new();
    push_field(out, buffer.format(count).as_bytes())
}

/// Appends a name, folded.
pub(crate) fn push_folded(out: &mut Vec<u8>, name: &[u8]) -> Result<(), AllocError>
    ensures { OnOk result (out.new.items ≡ out.old.items ++ folded name.now) }
{
    let start = out.len();
    out.extend_from_slice(name)?;
    fold_from(out.as_mut_slice(), start);
    Ok(())
}

// Folds the bytes from this place on.
fn fold_from(bytes: &mut [u8], start: usize)
    requires { start ≤ length bytes.old }
    ensures { bytes.new ≡ take start bytes.old ++ folded (drop start bytes.old) }
{
    for i in start..bytes.len() {
        bytes[i] = plain(bytes[i]);
    }
}

/// The name, folded.
pub(crate) fn folded(alloc: Global, name: &[u8]) -> Result<Vec<u8>, AllocError>
    ensures { IfOk result (λ text. text.items ≡ folded name.now) }
{
    let mut text = Vec::with_capacity(alloc, name.len())?;
    push_folded(&mut text, name)?;
    Ok(text)
}

// A to Z as a to z, and the underscore as a blank.
fn plain(byte: u8) -> u8
    ensures { result ≡ plain byte }
{
    if byte == b'_' {
        b' '
    } else {
        byte.to_ascii_lowercase()
    }
}
