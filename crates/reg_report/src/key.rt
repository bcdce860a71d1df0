//! The keys of definitions and rows, as bytes.

ghost use Rattle.reg_report.specs.Conflicts.{HasKey};
ghost use Rattle.reg_report.specs.Keys.{key_bytes};
ghost use Rattle.reg_report.specs.Seen.{row_seen};

use crate::row::Row;
use reg_op::Definition;

/// The bytes of a key, ordered by the authority and then by the code.
#[derive(Clone, Copy, PartialEq, Eq, PartialOrd, Ord)]
pub struct KeyText<'a> {
    pub authority: &'a [u8],
    pub code: &'a [u8],
}

/// The key of a definition.
pub fn key_in(definition: &Definition) -> KeyText<'_>
    ensures { HasKey definition.now (key_bytes result) }
{
    let key = definition.key();
    KeyText {
        authority: key.authority.as_bytes(),
        code: key.code.as_bytes(),
    }
}

/// The key of a row.
pub fn key_of(row: &Row) -> KeyText<'_>
    ensures { HasKey (row_seen row.now).definition (key_bytes result) }
{
    key_in(&row.definition)
}
