//! The texts of each key: whether it has one or several.

ghost use Rattle.std.specs.Prelude.{◌≡◌, map, IfOk, OnOk, Some};
ghost use Rattle.reg_report.specs.Conflicts.{KeyBytes};
ghost use Rattle.reg_report.specs.Keys.{key_bytes};
ghost use Rattle.reg_report.specs.Seen.{row_seen};
ghost use Rattle.reg_export.specs.Noted.{At, noted, Holds, noted_behind, has_several, with_text, with_note, Tells};

use reg_report::{KeyText, Row, key_of};
use std::alloc::{AllocError, Global};
use std::collections::BTreeMap;

/// A text of a key, and whether another row has the key with another text.
#[derive(Clone, Copy)]
pub struct TextOfKey<'a> {
    pub text: &'a [u8],
    pub several: bool,
}

// The note of a key after one more text of it.
fn with_text<'a>(before: Option<&TextOfKey<'a>>, text: &'a [u8]) -> TextOfKey<'a>
    ensures { noted (Some result) ≡ Some (with_text text.now (noted_behind before.entry)) }
{
    match before {
        Some(note) => TextOfKey {
            text: note.text,
            several: note.several || note.text != text,
        },
        None => TextOfKey {
            text,
            several: false,
        },
    }
}

// Notes the text of a row under its key.
fn put_text<'a>(
    notes: &mut BTreeMap<KeyText<'a>, TextOfKey<'a>>,
    key: KeyText<'a>,
    text: &'a [u8],
) -> Result<(), AllocError>
    ensures { (at : At) → Holds notes.old at → OnOk result (Holds notes.new (with_note (key_bytes key.entry) (with_text text.now (at (key_bytes key.entry))) at)) }
{
    let made = with_text(notes.get(&key), text);
    notes.insert(key, made)?;
    Ok(())
}

/// The texts of each key of these rows.
pub fn notes_of<'a>(
    alloc: Global,
    rows: &'a [Row],
) -> Result<BTreeMap<KeyText<'a>, TextOfKey<'a>>, AllocError>
    ensures { IfOk result (λ made. (at : At) × Holds made at × ((k : KeyBytes) → Tells (map row_seen rows.now) k (at k))) }
{
    let mut made = BTreeMap::new(alloc);
    let mut rest = rows;
    while let Some((row, others)) = rest.split_first() {
        put_text(&mut made, key_of(row), row.definition.as_bytes())?;
        rest = others;
    }
    Ok(made)
}

/// Whether the key has several texts.
pub fn is_contested<'a>(notes: &BTreeMap<KeyText<'a>, TextOfKey<'a>>, key: &KeyText<'a>) -> bool
    ensures { (at : At) → Holds notes.now at → result ≡ has_several (at (key_bytes key.now)) }
{
    match notes.get(key) {
        Some(note) => note.several,
        None => false,
    }
}
