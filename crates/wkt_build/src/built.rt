//! Building values from arguments.

ghost use Rattle.std.specs.Prelude.{◌≡◌, ◌≤◌, length, false, true, drop, IfOk, OnOk, None, Ok};
ghost use Rattle.wkt_grammar.specs.declared.table.Takes as declared;
ghost use Rattle.wkt_grammar.specs.Bare.{Bare};
ghost use Rattle.wkt_build.specs.Reads.{Builds, BuildsEach, BuildsOne, BuildsSome, comes};

use crate::reader::Reader;
use crs_part::{Many, NonEmpty};
use std::alloc::{AllocError, Global};
use wkt_grammar::Takes;

/// An argument whose value is a `V`.
pub(crate) trait Built<V> {
    /// The kind of slot that takes it.
    ghost slot_kind: { declared.Takes };

    ghost Denotes: { Bare → V → Type 0 };

    fn kind() -> Takes
        ensures { result ≡ slot_kind };

    fn build(alloc: Global, cursor: &mut Reader<'_>) -> Result<V, AllocError>
        ensures builds { Builds slot_kind Denotes cursor.old cursor.new result }
        ensures shorter { length cursor.new ≤ length cursor.old };
}

/// Skips the next token.
pub(crate) fn pass(cursor: &mut Reader<'_>)
    ensures left { cursor.new ≡ drop 1 cursor.old }
    ensures shorter { length cursor.new ≤ length cursor.old }
{
    cursor.advance();
}

/// The value so far, with the next one. A failing step then holds no value with many variants, which would lengthen its
/// proof.
pub(crate) fn with<V: Drop, W>(held: V, next: Result<W, AllocError>) -> Result<(V, W), AllocError>
    ensures { IfOk result (λ both. (both.0 ≡ held) × (next ≡ Ok both.1)) }
{
    match next {
        Ok(next) => Ok((held, next)),
        Err(refused) => Err(refused),
    }
}

/// The argument after the next token.
pub(crate) fn take_one<N: Built<V>, V>(
    alloc: Global,
    cursor: &mut Reader<'_>,
) -> Result<V, AllocError>
    ensures builds { BuildsOne N.slot_kind N.Denotes cursor.old cursor.new result }
    ensures shorter { length cursor.new ≤ length cursor.old }
{
    pass(cursor);
    N::build(alloc, cursor)
}

/// The next argument, if it is of this kind.
pub(crate) fn take_maybe<N: Built<V>, V>(
    alloc: Global,
    cursor: &mut Reader<'_>,
) -> Result<Option<V>, AllocError>
    ensures some { comes N.slot_kind cursor.old ≡ true → BuildsSome N.slot_kind N.Denotes cursor.old cursor.new result }
    ensures none { comes N.slot_kind cursor.old ≡ false → OnOk result (cursor.new ≡ cursor.old) }
    ensures absent { comes N.slot_kind cursor.old ≡ false → IfOk result (λ o. o ≡ None) }
    ensures shorter { length cursor.new ≤ length cursor.old }
{
    if !cursor.comes(N::kind()) {
        return Ok(None);
    }
    let value = take_one::<N, V>(alloc, cursor)?;
    Ok(Some(value))
}

/// The next arguments, as long as they are of this kind.
pub(crate) fn take_each<N: Built<V>, V: Drop>(
    alloc: Global,
    cursor: &mut Reader<'_>,
) -> Result<Many<V>, AllocError>
    ensures builds { BuildsEach N.slot_kind N.Denotes cursor.old cursor.new result }
    ensures shorter { length cursor.new ≤ length cursor.old }
{
    let mut items = Many::new(alloc);
    while cursor.comes(N::kind()) {
        cursor.advance();
        let item = N::build(alloc, cursor)?;
        items = with_room(alloc, items)?;
        items.push(item)?;
    }
    Ok(items)
}

/// The same items, with room for one if the list is empty: most lists have one item.
fn with_room<V: Drop>(alloc: Global, items: Many<V>) -> Result<Many<V>, AllocError>
    ensures { IfOk result (λ same. same ≡ items) }
{
    if !items.as_slice().is_empty() {
        return Ok(items);
    }
    let room = Vec::with_capacity(alloc, 1)?;
    Ok(Many::from_vec(room))
}
