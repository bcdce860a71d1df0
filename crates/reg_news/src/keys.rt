//! Keys that are new.

ghost use Rattle.std.specs.Prelude.{◌≡◌, ◌++◌, ◌∷◌, [], not, map, filter, IfOk, OnOk};
ghost use Rattle.std.specs.List.{dedup, list_any};
ghost use Rattle.reg_report.specs.Conflicts.{bytes_of};
ghost use Rattle.reg_report.specs.Keys.{key_bytes};
ghost use Rattle.reg_disorder.specs.Keys.{has_key, PutsKey};
ghost use Rattle.reg_news.specs.Keys.{same_key, fresh_keys, HasKeys};

use crs_part::{Many, Text, TryClone};
use crs_value::Key;
use reg_report::KeyText;
use std::alloc::{AllocError, Global};
use std::collections::BTreeSet;

fn text_of(key: &Key) -> KeyText<'_>
    ensures { key_bytes result ≡ bytes_of key.now }
{
    KeyText {
        authority: key.authority.as_bytes(),
        code: key.code.as_bytes(),
    }
}

fn has_same_key(left: &Key, right: &Key) -> bool
    ensures { result ≡ same_key (bytes_of left.now) (bytes_of right.now) }
{
    left.authority
        .as_bytes()
        .cmp(right.authority.as_bytes())
        .then(left.code.as_bytes().cmp(right.code.as_bytes()))
        .is_eq()
}

/// Appends the key with this authority and this code.
pub fn push_key(
    alloc: Global,
    keys: &mut Vec<Key>,
    authority: &Text,
    code: &Text,
) -> Result<(), AllocError>
    ensures { OnOk result (map bytes_of keys.new.items ≡ map bytes_of keys.old.items ++ record { authority = authority.now.bytes; code = code.now.bytes } ∷ []) }
{
    keys.push(Key {
        authority: authority.try_clone(alloc)?,
        code: code.try_clone(alloc)?,
    })?;
    Ok(())
}

fn text_from(alloc: Global, bytes: &[u8]) -> Result<Text, AllocError>
    ensures { IfOk result (λ text. text.bytes ≡ bytes.now) }
{
    let Some(text) = Text::from_utf8(Many::copied(alloc, bytes)?) else {
        return Err(AllocError);
    };
    Ok(text)
}

/// A copy of a key.
pub fn key_from(alloc: Global, key: &KeyText<'_>) -> Result<Key, AllocError>
    ensures { IfOk result (λ made. bytes_of made ≡ key_bytes key.now) }
{
    Ok(Key {
        authority: text_from(alloc, key.authority)?,
        code: text_from(alloc, key.code)?,
    })
}

fn put_key<'a>(known: &mut BTreeSet<KeyText<'a>>, key: &'a Key) -> Result<(), AllocError>
    ensures { OnOk result (PutsKey (bytes_of key.now) known.old known.new) }
{
    known.insert(text_of(key))?;
    Ok(())
}

fn known_keys<'a>(alloc: Global, keys: &'a [Key]) -> Result<BTreeSet<KeyText<'a>>, AllocError>
    ensures { IfOk result (HasKeys (map bytes_of keys.now)) }
{
    let mut known = BTreeSet::new(alloc);
    for key in keys {
        put_key(&mut known, key)?;
    }
    Ok(known)
}

fn is_fresh<'a>(known: &BTreeSet<KeyText<'a>>, key: &'a Key) -> bool
    ensures { result ≡ not (has_key known.now (bytes_of key.now)) }
{
    !known.contains(&text_of(key))
}

// Each of the keys once, where they are in order.
fn distinct(keys: Vec<Key>) -> Vec<Key>
    ensures { map bytes_of result.items ≡ dedup same_key (map bytes_of keys.items) }
{
    let mut made = keys;
    made.dedup_by(|later, kept| has_same_key(later, kept));
    made
}

// Appends a copy of the key, if it is none of the known ones.
fn push_fresh<'a>(
    alloc: Global,
    keys: &mut Vec<Key>,
    known: &BTreeSet<KeyText<'a>>,
    key: &'a Key,
) -> Result<(), AllocError>
    ensures { OnOk result (map bytes_of keys.new.items ≡ map bytes_of keys.old.items ++ filter (λ k. not (has_key known.now k)) (bytes_of key.now ∷ [])) }
{
    if !is_fresh(known, key) {
        return Ok(());
    }
    push_key(alloc, keys, &key.authority, &key.code)
}

// Those of the later keys that are none of the earlier ones.
fn unknown<'a>(alloc: Global, earlier: &'a [Key], later: &'a [Key]) -> Result<Vec<Key>, AllocError>
    ensures { IfOk result (λ made. map bytes_of made.items ≡ filter (λ k. not (list_any (same_key k) (map bytes_of earlier.now))) (map bytes_of later.now)) }
{
    let known = known_keys(alloc, earlier)?;
    let mut made = Vec::new(alloc);
    for key in later {
        push_fresh(alloc, &mut made, &known, key)?;
    }
    Ok(made)
}

/// Of the later keys, which are in order, those that are none of the earlier ones, each once.
pub fn fresh(alloc: Global, earlier: &[Key], later: Vec<Key>) -> Result<Vec<Key>, AllocError>
    ensures { IfOk result (λ made. map bytes_of made.items ≡ fresh_keys (map bytes_of earlier.now) (map bytes_of later.items)) }
{
    let later = distinct(later);
    unknown(alloc, earlier, &later)
}
