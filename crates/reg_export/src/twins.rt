//! Names of files that differ by case alone.

ghost use Rattle.std.specs.Prelude.{◌≡◌, ℕ, List, map, IfOk, OnOk, Some};
ghost use Rattle.std.specs.Global.{Vec};
ghost use Rattle.reg_export.specs.Twins.{At, noted, noted_behind, has_several, Holds, with_name, with_note, Tells};

use std::alloc::{AllocError, Global};
use std::collections::BTreeMap;

/// A name, and whether another one differs from it by case alone.
#[derive(Clone, Copy)]
pub struct NameTwin<'a> {
    pub name: &'a [u8],
    pub several: bool,
}

// The note of a name in small letters after one more name.
fn with_name<'a>(before: Option<&NameTwin<'a>>, name: &'a [u8]) -> NameTwin<'a>
    ensures { noted (Some result) ≡ Some (with_name name.now (noted_behind before.entry)) }
{
    match before {
        Some(note) => NameTwin {
            name: note.name,
            several: note.several || note.name != name,
        },
        None => NameTwin {
            name,
            several: false,
        },
    }
}

// Notes a name under its small letters.
fn put_name<'a>(
    notes: &mut BTreeMap<Vec<u8>, NameTwin<'a>>,
    low: Vec<u8>,
    name: &'a [u8],
) -> Result<(), AllocError>
    ensures { (at : At) → Holds notes.old at → OnOk result (Holds notes.new (with_note low.items (with_name name.now (at low.items)) at)) }
{
    let made = with_name(notes.get(&low), name);
    let _ = notes.insert(low, made)?;
    Ok(())
}

/// These names, by their small letters.
pub fn notes_of<'a>(
    alloc: Global,
    names: &'a [Vec<u8>],
) -> Result<BTreeMap<Vec<u8>, NameTwin<'a>>, AllocError>
    ensures { IfOk result (λ made. (at : At) × Holds made at × ((k : List ℕ) → Tells (map (λ (n : Vec ℕ). n.items) names.now) k (at k))) }
{
    let mut made = BTreeMap::new(alloc);
    let mut rest = names;
    while let Some((name, others)) = rest.split_first() {
        let low = name.to_ascii_lowercase(alloc)?;
        put_name(&mut made, low, name)?;
        rest = others;
    }
    Ok(made)
}

/// Whether several names have these small letters.
pub fn has_several<'a>(notes: &BTreeMap<Vec<u8>, NameTwin<'a>>, low: &Vec<u8>) -> bool
    ensures { (at : At) → Holds notes.now at → result ≡ has_several (at low.now.items) }
{
    match notes.get(low) {
        Some(note) => note.several,
        None => false,
    }
}
