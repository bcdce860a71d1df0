//! Kinds of reference systems.

ghost use Rattle.std.specs.Prelude.{◌≡◌, ◌↔◌, IsTrue};
ghost use Rattle.crs_value.specs.Kinds.{geodetic_kind, kind_of};

use crs_part::{CrsParts, GeodeticKind, Single};

/// The kind of a reference system, by its keyword.
#[derive(Clone, Copy, Debug, PartialEq, Eq)]
pub enum Kind {
    /// `GEOGCRS`.
    Geographic,
    /// `GEODCRS`.
    Geodetic,
    Projected,
    Vertical,
    Compound,
}

/// Whether the reference system is of this kind.
pub fn is_of_kind(crs: &CrsParts, kind: Kind) -> bool
    ensures { IsTrue result ↔ (kind_of crs.now ≡ kind) }
{
    kind_of(crs) == kind
}

fn kind_of(crs: &CrsParts) -> Kind
    ensures { result ≡ kind_of crs.now }
{
    match crs {
        CrsParts::Single(Single::Geodetic(crs)) => geodetic_kind(crs.kind),
        CrsParts::Single(Single::Projected(_)) => Kind::Projected,
        CrsParts::Single(Single::Vertical(_)) => Kind::Vertical,
        CrsParts::Compound(_) => Kind::Compound,
    }
}

fn geodetic_kind(kind: GeodeticKind) -> Kind
    ensures { result ≡ geodetic_kind kind }
{
    match kind {
        GeodeticKind::Geodetic => Kind::Geodetic,
        GeodeticKind::Geographic => Kind::Geographic,
    }
}
