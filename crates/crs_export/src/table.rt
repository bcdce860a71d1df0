//! The tables of PROJ's database that take a reference system as a text.

ghost use Rattle.std.specs.Prelude.{◌≡◌};
ghost use Rattle.crs_export.specs.Tables.{system_table, table_of};

use crs_part::{CoordSystem, CrsParts, Single, SystemKind};

/// A table of PROJ's database, and the type of a row in it.
#[derive(Clone, Copy, Debug, PartialEq, Eq)]
pub enum Table {
    Geographic2d,
    Geographic3d,
    Geocentric,
    OtherGeodetic,
    Projected,
}

/// The table of a geodetic system, by its kind and its number of axes.
pub fn system_table(system: &CoordSystem) -> Table
    ensures { result ≡ system_table system.now.kind system.now.dimension }
{
    match (system.kind, system.dimension) {
        (SystemKind::Ellipsoidal, 2) => Table::Geographic2d,
        (SystemKind::Ellipsoidal, 3) => Table::Geographic3d,
        (SystemKind::Cartesian, 3) => Table::Geocentric,
        _ => Table::OtherGeodetic,
    }
}

/// The table that takes the text of a reference system. There is none for a vertical or a compound one.
pub fn table_of(crs: &CrsParts) -> Option<Table>
    ensures { result ≡ table_of crs.now }
{
    match crs {
        CrsParts::Single(Single::Geodetic(crs)) => Some(system_table(&crs.system)),
        CrsParts::Single(Single::Projected(_)) => Some(Table::Projected),
        CrsParts::Single(Single::Vertical(_)) => None,
        CrsParts::Compound(_) => None,
    }
}
