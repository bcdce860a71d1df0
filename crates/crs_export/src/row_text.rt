//! The parts of statements that put a row into one of PROJ's tables.

ghost use Rattle.std.specs.Prelude.{◌≡◌, ◌++◌, OnOk};
ghost use Rattle.crs_export.specs.Rows.{field, owner_end, start_of, type_of};

use crate::markup::{
    COMMA, GEOCENTRIC, GEODETIC, GEOGRAPHIC_2D, GEOGRAPHIC_3D, OF_OWNER, OTHER, PROJECTED,
};
use crate::sql_quotes::push_sql;
use crate::table::Table;
use std::alloc::AllocError;

/// The start of a statement, before the authority.
pub fn start_of(table: Table) -> &'static [u8]
    ensures { result.now ≡ start_of table }
{
    match table {
        Table::Geographic2d | Table::Geographic3d | Table::Geocentric | Table::OtherGeodetic => {
            GEODETIC
        }
        Table::Projected => PROJECTED,
    }
}

/// What is before the text: the type of the row, if the table has one.
pub fn type_of(table: Table) -> &'static [u8]
    ensures { result.now ≡ type_of table }
{
    match table {
        Table::Geographic2d => GEOGRAPHIC_2D,
        Table::Geographic3d => GEOGRAPHIC_3D,
        Table::Geocentric => GEOCENTRIC,
        Table::OtherGeodetic => OTHER,
        Table::Projected => COMMA,
    }
}

/// Appends constant bytes and a text.
pub fn push_field(text: &mut Vec<u8>, before: &[u8], value: &[u8]) -> Result<(), AllocError>
    ensures { OnOk result (text.new.items ≡ text.old.items ++ field before.now value.now) }
{
    text.extend_from_slice(before)?;
    push_sql(text, value)?;
    Ok(())
}

/// Appends two references to rows of an entry, with constant bytes between and after them.
pub fn push_owner_end(
    text: &mut Vec<u8>,
    entry: &[u8],
    between: &[u8],
    end: &[u8],
) -> Result<(), AllocError>
    ensures { OnOk result (text.new.items ≡ text.old.items ++ owner_end entry.now between.now end.now) }
{
    push_field(text, OF_OWNER, entry)?;
    push_field(text, between, entry)?;
    text.extend_from_slice(end)?;
    Ok(())
}
