//! Codes that stand otherwise after a change.

ghost use Rattle.std.specs.Prelude.{◌≡◌, ◌↔◌, ◌⊎◌, ◌++◌, ◌∷◌, ◌&&◌, [], true, if◌then◌else◌, List, Contains, IsTrue, map, IfOk, OnOk};
ghost use Rattle.reg_op.specs.Rows.{Row as OneRow};
ghost use Rattle.reg_op.specs.Set.{Ascends};
ghost use Rattle.reg_report.specs.Conflicts.{KeyBytes};
ghost use Rattle.reg_report.specs.Keys.{key_bytes};
ghost use Rattle.reg_report.specs.Rows.{row_cmp};
ghost use Rattle.reg_report.specs.Seen.{row_seen};
ghost use Rattle.reg_disorder.specs.Keys.{has_key};
ghost use Rattle.reg_disorder.specs.Marks.{mark_cmp, by_bytes, mark_seen, AreMarks};
ghost use Rattle.reg_news.specs.Codes.{is_off, WasOff, IsTold, told_by, AreTold, IsMissing, HasSaidByOne, key_in, code_seen};

use crate::keys::key_from;
use crs_value::Key;
use reg_disorder::{Mark, Standing, has_mark, marks, standing_of};
use reg_report::{KeyText, Row};
use std::alloc::{AllocError, Global};
use std::collections::BTreeSet;

/// A code that is in use again; or one that is superseded and was not, or not by the same keys: one such says that it is, and one for
/// each key by which it is follows.
#[derive(Drop)]
pub struct Code {
    pub key: Key,
    pub superseded: bool,
    pub by: Option<Key>,
}

fn is_off(standing: Standing) -> bool
    ensures { result ≡ is_off standing }
{
    match standing {
        Standing::Absent => false,
        Standing::Withdrawn => true,
        Standing::Valid => false,
        Standing::Superseded => true,
    }
}

// Whether the key had an entry, and was not valid.
fn was_off(before: &[Mark<'_>], key: KeyText<'_>) -> bool
    requires { Ascends mark_cmp (map mark_seen before.now) }
    ensures { (rs : List OneRow) → AreMarks rs (map mark_seen before.now) → IsTrue result ↔ WasOff rs (key_bytes key.entry) }
{
    let standing = standing_of(before, key);
    is_off(standing)
}

// Puts the key of the mark, if its entry is superseded and the mark is none of the others.
fn put_if_missing<'a>(
    keys: &mut BTreeSet<KeyText<'a>>,
    mark: &Mark<'a>,
    others: &[Mark<'a>],
) -> Result<(), AllocError>
    requires { Ascends mark_cmp (map mark_seen others.now) }
    ensures { OnOk result ((k : KeyBytes) → (has_key keys.new k ≡ true) ↔ ((has_key keys.old k ≡ true) ⊎ IsMissing (mark_seen mark.now ∷ []) (map mark_seen others.now) k)) }
{
    if !mark.superseded {
        return Ok(());
    }
    if has_mark(others, mark) {
        return Ok(());
    }
    keys.insert(mark.key)?;
    Ok(())
}

// Puts the keys whose marks of superseded entries are not all among the others.
fn put_missing<'a>(
    keys: &mut BTreeSet<KeyText<'a>>,
    marks: &[Mark<'a>],
    others: &[Mark<'a>],
) -> Result<(), AllocError>
    requires { Ascends mark_cmp (map mark_seen others.now) }
    ensures { OnOk result ((k : KeyBytes) → (has_key keys.new k ≡ true) ↔ ((has_key keys.old k ≡ true) ⊎ IsMissing (map mark_seen marks.now) (map mark_seen others.now) k)) }
{
    for mark in marks {
        put_if_missing(keys, mark, others)?;
    }
    Ok(())
}

// The keys of which one says that they are superseded, or by whom, and the other does not.
fn said_by_one<'a>(
    alloc: Global,
    before: &[Mark<'a>],
    after: &[Mark<'a>],
) -> Result<BTreeSet<KeyText<'a>>, AllocError>
    requires before { Ascends mark_cmp (map mark_seen before.now) }
    requires after { Ascends mark_cmp (map mark_seen after.now) }
    ensures { (rs ss : List OneRow) → AreMarks rs (map mark_seen before.now) → AreMarks ss (map mark_seen after.now) → IfOk result (HasSaidByOne rs ss) }
{
    let mut keys = BTreeSet::new(alloc);
    put_missing(&mut keys, before, after)?;
    put_missing(&mut keys, after, before)?;
    Ok(keys)
}

// Whether the mark is of a superseded entry whose key is among these.
fn is_anew<'a>(changed: &BTreeSet<KeyText<'a>>, mark: &Mark<'a>) -> bool
    ensures { result ≡ (mark.now.superseded && has_key changed.now (key_bytes mark.now.key)) }
{
    mark.superseded && changed.contains(&mark.key)
}

// Whether a live mark of a key with this standing is told.
fn told_by(standing: Standing, again: bool, anew: bool) -> bool
    ensures { result ≡ told_by standing again anew }
{
    match standing {
        Standing::Absent => false,
        Standing::Withdrawn => false,
        Standing::Valid => again,
        Standing::Superseded => anew,
    }
}

// Whether the mark, one of those afterwards, is told.
fn is_told<'a>(
    before: &[Mark<'a>],
    after: &[Mark<'a>],
    changed: &BTreeSet<KeyText<'a>>,
    mark: &Mark<'a>,
) -> bool
    requires before { Ascends mark_cmp (map mark_seen before.now) }
    requires after { Ascends mark_cmp (map mark_seen after.now) }
    ensures { (rs ss : List OneRow) → AreMarks rs (map mark_seen before.now) → AreMarks ss (map mark_seen after.now) → HasSaidByOne rs ss changed.now
        → IsTrue result ↔ IsTold rs ss (mark_seen mark.now) }
{
    if !mark.live {
        return false;
    }
    let standing = standing_of(after, mark.key);
    let again = was_off(before, mark.key);
    let anew = is_anew(changed, mark);
    told_by(standing, again, anew)
}

fn key_in(alloc: Global, key: &Option<KeyText<'_>>) -> Result<Option<Key>, AllocError>
    ensures { IfOk result (λ made. key_in made ≡ by_bytes key.now) }
{
    match key {
        Some(key) => {
            let made = key_from(alloc, key)?;
            Ok(Some(made))
        }
        None => Ok(None),
    }
}

// The code of a mark.
fn code_of(alloc: Global, mark: &Mark<'_>) -> Result<Code, AllocError>
    ensures { IfOk result (λ code. (mark.now.live ≡ true) → code_seen code ≡ mark_seen mark.now) }
{
    let key = key_from(alloc, &mark.key)?;
    let by = key_in(alloc, &mark.by)?;
    Ok(Code {
        key,
        superseded: mark.superseded,
        by,
    })
}

// Appends the code of the mark, if it is told.
fn push_told(
    alloc: Global,
    made: &mut Vec<Code>,
    told: bool,
    mark: &Mark<'_>,
) -> Result<(), AllocError>
    ensures { OnOk result ((told ≡ true → mark.now.live ≡ true) → map code_seen made.new.items ≡ map code_seen made.old.items ++ (if told then mark_seen mark.now ∷ [] else [])) }
{
    if !told {
        return Ok(());
    }
    let code = code_of(alloc, mark)?;
    made.push(code)?;
    Ok(())
}

fn told_among<'a>(
    alloc: Global,
    before: &[Mark<'a>],
    after: &[Mark<'a>],
    changed: &BTreeSet<KeyText<'a>>,
) -> Result<Vec<Code>, AllocError>
    requires before { Ascends mark_cmp (map mark_seen before.now) }
    requires after { Ascends mark_cmp (map mark_seen after.now) }
    ensures { (rs ss : List OneRow) → AreMarks rs (map mark_seen before.now) → AreMarks ss (map mark_seen after.now) → HasSaidByOne rs ss changed.now
        → IfOk result (λ made. AreTold rs ss (map code_seen made.items)) }
{
    let mut made = Vec::new(alloc);
    for mark in after {
        let told = is_told(before, after, changed, mark);
        push_told(alloc, &mut made, told, mark)?;
    }
    Ok(made)
}

/// The codes that are in use again, and those that are superseded anew, by key.
pub fn codes_between(alloc: Global, earlier: &[Row], later: &[Row]) -> Result<Vec<Code>, AllocError>
    requires earlier { Ascends row_cmp (map row_seen earlier.now) }
    requires later { Ascends row_cmp (map row_seen later.now) }
    ensures { IfOk result (λ made. AreTold (map row_seen earlier.now) (map row_seen later.now) (map code_seen made.items)) }
{
    let before = marks(alloc, earlier)?;
    let after = marks(alloc, later)?;
    let changed = said_by_one(alloc, &before, &after)?;
    told_among(alloc, &before, &after, &changed)
}
