//! Keys: an authority and a code.

ghost use Rattle.std.specs.Prelude.{◌≡◌, ◌↔◌, IfOk, IsTrue};
ghost use Rattle.crs_part.specs.Slots.{ids_of};
ghost use Rattle.crs_value.specs.Keys.{text_of, IsKeyOf, IsFirstKey};

use crate::crs::Crs;
use crs_part::{Ident, NumberOrText, Same, Text, TryClone};
use std::alloc::{AllocError, Global};

/// The key of a reference system: an authority, and a code in its list.
#[derive(Drop)]
pub struct Key {
    pub authority: Text,
    pub code: Text,
}

impl Crs {
    /// The key of the first identifier.
    pub fn key(&self, alloc: Global) -> Result<Option<Key>, AllocError>
        ensures { IfOk result (IsFirstKey (ids_of self.now.parts)) }
    {
        match self.parts().ids().first() {
            Some(id) => Ok(Some(key_of(alloc, id)?)),
            None => Ok(None),
        }
    }
}

fn key_of(alloc: Global, id: &Ident) -> Result<Key, AllocError>
    ensures { IfOk result (IsKeyOf id.now) }
{
    Ok(Key {
        authority: id.authority.try_clone(alloc)?,
        code: text_of(alloc, &id.code)?,
    })
}

fn text_of(alloc: Global, code: &NumberOrText) -> Result<Text, AllocError>
    ensures { IfOk result (λ text. text.bytes ≡ text_of code.now) }
{
    match code {
        NumberOrText::Number(number) => Text::of_number(alloc, *number),
        NumberOrText::Text(text) => text.try_clone(alloc),
    }
}

impl TryClone for Key {
    fn try_clone(&self, alloc: Global) -> Result<Key, AllocError> {
        Ok(Key {
            authority: self.authority.try_clone(alloc)?,
            code: self.code.try_clone(alloc)?,
        })
    }
}

impl Same for Key {
    fn same(&self, other: &Key) -> bool {
        self.authority.same(&other.authority) && self.code.same(&other.code)
    }
}

impl PartialEq for Key {
    ghost use Rattle.crs_part.specs.Equality.{equal, equal_is_partial_equivalence};
    ghost use Rattle.crs_value.specs.contracts.key.Key.{the_row};

    ghost eq = { equal the_row.coded };

    ghost laws = { equal_is_partial_equivalence the_row.coded };

    fn eq(&self, other: &Key) -> bool
        ensures value { result ≡ equal the_row.coded self.now other.now }
        ensures exact { IsTrue result ↔ (self.now ≡ other.now) }
    {
        self.same(other)
    }
}

impl Eq for Key {
    ghost use Rattle.crs_part.specs.Equality.{equal_is_equivalence};
    ghost use Rattle.crs_value.specs.contracts.key.Key.{the_row};

    ghost laws = { equal_is_equivalence the_row.coded };
}
