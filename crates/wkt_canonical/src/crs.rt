//! Coordinate reference systems.

ghost use Rattle.std.specs.Prelude.{◌++◌, IfSome};
ghost use Rattle.wkt_grammar.specs.declared.table.Keyword.TheVariants as keywords;
ghost use Rattle.wkt_grammar.specs.Denotes.{base_keyword, geodetic_keyword};
ghost use Rattle.wkt_grammar.specs.Trees.{base_tree};
ghost use Rattle.wkt_canonical.specs.Reads.{ReadsOne, ReadsInside, ReadsSingle, ReadsEnd, ReadsWhole, beginning};
ghost use Rattle.wkt_canonical.specs.Tests.{base_passes};

use crate::datums::{geodetic_frame, vertical_frame};
use crate::front::{begins, behind, opens};
use crate::identifiers::{Identifier, geoid_models, identifiers};
use crate::leaves::{content, text};
use crate::node::{each, maybe, one};
use crate::systems::{axes, system};
use crate::units::maybe_angle_unit;
use crate::values::maybe_value;
use crs_part::{Conversion, GeodeticKind, Ident, PrimeMeridian, Usage};
use crs_value::{
    is_cartesian_plane, is_ellipsoidal_plane, may_be_of, may_be_projected, may_be_vertical,
};
use wkt_grammar::Keyword;

/// The name of a reference system, without its marks, and its first identifier.
#[derive(Clone, Copy)]
pub struct SeenSystem<'a> {
    pub name: &'a [u8],
    pub identifier: Option<Identifier<'a>>,
}

/// The findings for a reference system of one part.
#[derive(Clone, Copy)]
struct Component<'a> {
    seen: SeenSystem<'a>,
    may_be_first: bool,
    may_be_second: bool,
}

/// The findings for a reference system that meets all conditions, and the rest after its canonical text.
pub(crate) fn whole(bytes: &[u8]) -> Option<(SeenSystem<'_>, &[u8])>
    ensures { IfSome result (λ found. ReadsWhole found.0 bytes.now found.1.now) }
{
    if let Some(inside) = begins(bytes, Keyword::CompoundCrs) {
        let (seen, rest) = compound(inside)?;
        return Some((seen, rest));
    }
    let (component, rest) = single(bytes)?;
    Some((component.seen, rest))
}

/// The findings for a compound reference system, and the rest after it, read from after its opening delimiter.
fn compound(bytes: &[u8]) -> Option<(SeenSystem<'_>, &[u8])>
    ensures { IfSome result (λ found. ReadsWhole found.0 (beginning keywords.CompoundCrs ++ bytes.now) found.1.now) }
{
    let (name, rest) = content(bytes)?;
    let rest = behind(rest, b",")?;
    let (first, rest) = single(rest)?;
    let rest = behind(rest, b",")?;
    let (second, rest) = single(rest)?;
    if !first.may_be_first {
        return None;
    }
    if !second.may_be_second {
        return None;
    }
    let (identifier, rest) = end(rest)?;
    Some((SeenSystem { name, identifier }, rest))
}

/// The findings for a reference system of one part, and the rest after it.
fn single(bytes: &[u8]) -> Option<(Component<'_>, &[u8])>
    ensures { IfSome result (λ found. ReadsSingle found.0 bytes.now found.1.now) }
{
    if let Some(inside) = begins(bytes, Keyword::ProjectedCrs) {
        let (component, rest) = projected(inside)?;
        return Some((component, rest));
    }
    if let Some(inside) = begins(bytes, Keyword::VerticalCrs) {
        let (component, rest) = vertical(inside)?;
        return Some((component, rest));
    }
    if let Some(inside) = begins(bytes, Keyword::GeographicCrs) {
        let (component, rest) = geodetic(GeodeticKind::Geographic, inside)?;
        return Some((component, rest));
    }
    let inside = begins(bytes, Keyword::GeodeticCrs)?;
    let (component, rest) = geodetic(GeodeticKind::Geodetic, inside)?;
    Some((component, rest))
}

/// The first identifier of a reference system, and the rest after its usages, identifiers, remark and closing delimiter.
fn end(bytes: &[u8]) -> Option<(Option<Identifier<'_>>, &[u8])>
    ensures { IfSome result (λ found. ReadsEnd found.0 bytes.now found.1.now) }
{
    let rest = each::<Usage>(bytes)?;
    let (identifier, rest) = identifiers(rest)?;
    let rest = maybe_value(Keyword::Remark, rest)?;
    let rest = behind(rest, b"]")?;
    Some((identifier, rest))
}

/// The findings for a geodetic reference system, and the rest after it, read from after its opening delimiter.
fn geodetic(kind: GeodeticKind, bytes: &[u8]) -> Option<(Component<'_>, &[u8])>
    ensures { IfSome result (λ found. ReadsSingle found.0 (beginning (geodetic_keyword kind) ++ bytes.now) found.1.now) }
{
    let (name, rest) = content(bytes)?;
    let rest = geodetic_frame(rest)?;
    let rest = maybe::<PrimeMeridian>(rest)?;
    let (system, dimension, rest) = system(rest)?;
    if !may_be_of(kind, system, dimension) {
        return None;
    }
    let rest = axes(system, dimension, rest)?;
    let (identifier, rest) = end(rest)?;
    let component = Component {
        seen: SeenSystem { name, identifier },
        may_be_first: is_ellipsoidal_plane(system, dimension),
        may_be_second: false,
    };
    Some((component, rest))
}

/// The rest after the base of a projected reference system, read from after its opening delimiter.
fn base_of(kind: GeodeticKind, bytes: &[u8]) -> Option<&[u8]>
    ensures { IfSome result (λ rest. ReadsInside base_passes base_tree (base_keyword kind) bytes.now rest.now) }
{
    let rest = text(bytes)?;
    let rest = geodetic_frame(rest)?;
    let rest = maybe::<PrimeMeridian>(rest)?;
    let rest = maybe_angle_unit(rest);
    let rest = each::<Ident>(rest)?;
    let rest = behind(rest, b"]")?;
    Some(rest)
}

/// The rest after the base of a projected reference system.
fn base(bytes: &[u8]) -> Option<&[u8]>
    ensures { IfSome result (λ rest. ReadsOne base_passes base_tree bytes.now rest.now) }
{
    if let Some(inside) = opens(bytes, Keyword::BaseGeographicCrs) {
        let rest = base_of(GeodeticKind::Geographic, inside)?;
        return Some(rest);
    }
    let inside = opens(bytes, Keyword::BaseGeodeticCrs)?;
    let rest = base_of(GeodeticKind::Geodetic, inside)?;
    Some(rest)
}

/// The findings for a projected reference system, and the rest after it, read from after its opening delimiter.
fn projected(bytes: &[u8]) -> Option<(Component<'_>, &[u8])>
    ensures { IfSome result (λ found. ReadsSingle found.0 (beginning keywords.ProjectedCrs ++ bytes.now) found.1.now) }
{
    let (name, rest) = content(bytes)?;
    let rest = base(rest)?;
    let rest = one::<Conversion>(rest)?;
    let (system, dimension, rest) = system(rest)?;
    if !may_be_projected(system, dimension) {
        return None;
    }
    let rest = axes(system, dimension, rest)?;
    let (identifier, rest) = end(rest)?;
    let component = Component {
        seen: SeenSystem { name, identifier },
        may_be_first: is_cartesian_plane(system, dimension),
        may_be_second: false,
    };
    Some((component, rest))
}

/// The findings for a vertical reference system, and the rest after it, read from after its opening delimiter.
fn vertical(bytes: &[u8]) -> Option<(Component<'_>, &[u8])>
    ensures { IfSome result (λ found. ReadsSingle found.0 (beginning keywords.VerticalCrs ++ bytes.now) found.1.now) }
{
    let (name, rest) = content(bytes)?;
    let rest = vertical_frame(rest)?;
    let (system, dimension, rest) = system(rest)?;
    if !may_be_vertical(system, dimension) {
        return None;
    }
    let rest = axes(system, dimension, rest)?;
    let rest = geoid_models(rest)?;
    let (identifier, rest) = end(rest)?;
    let component = Component {
        seen: SeenSystem { name, identifier },
        may_be_first: false,
        may_be_second: true,
    };
    Some((component, rest))
}
