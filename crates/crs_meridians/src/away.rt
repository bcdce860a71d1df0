//! Central meridians and standard parallels that are far from the area of use.

ghost use Rattle.std.specs.Prelude.{◌≡◌, ◌≤◌, ◌*◌, IfSome};
ghost use Rattle.std.specs.List.{find, list_all};
ghost use Rattle.std.specs.Option.{option_map};
ghost use Rattle.crs_exact.specs.Said.{parameter_said};
ghost use Rattle.crs_exact.specs.Said.{sentence};
ghost use Rattle.crs_meridians.specs.Away.{is_origin, reach_of, has_cone, place_of, prime_place, far_from_arc, far_from_belt, usage_far_east, usage_far_north, all_far_east, all_far_north, first_box, is_meridian_away, is_parallel_away, is_parameter_away, box_said, away_in, away};

use crate::turn::{TURN, in_degrees, in_unit_or_degrees, is_far_east, is_far_north};
use crs_exact::{
    END, Finding, Piece, base_unit, has_part, is_named, is_packed, own_or_base, projected_in,
    unit_or,
};
use crs_number::Decimal;
use crs_part::{BoundingBox, Parameter, PrimeMeridian, Projected, Single, UnitDefinition, Usage};

/// The first parameter of a projected system with areas of use that is further from all of them than its method reaches: a central
/// meridian by 5 degrees for Transverse Mercator and Cassini, 10 for Lambert with one parallel and oblique stereographic, 30 for other
/// Lambert and Albers; a standard parallel of Lambert or Albers by 35 degrees.
pub fn odd_away(crs: &Single) -> Option<Finding<'_>>
    ensures { option_map sentence result ≡ away crs.now }
{
    match projected_in(crs) {
        Some(crs) => away_in(crs),
        None => None,
    }
}

fn away_in(crs: &Projected) -> Option<Finding<'_>>
    ensures { option_map sentence result ≡ away_in crs.now }
{
    let Some(area) = first_box(crs.usages.as_slice()) else {
        return None;
    };
    match first_away(crs) {
        Some(parameter) => Some(beside(parameter, area)),
        None => None,
    }
}

// The name of the method is searched once for all parameters.
fn first_away(crs: &Projected) -> Option<&Parameter>
    ensures { option_map (λ p. p.now) result ≡ find (is_parameter_away crs.now) crs.now.conversion.parameters }
{
    let method = crs.conversion.method.name.as_bytes();
    first_away_by(crs, reach_of(method), has_cone(method))
}

fn first_away_by(crs: &Projected, degrees: u32, cone: bool) -> Option<&Parameter>
    requires degrees { degrees ≡ reach_of crs.now.conversion.method.name.bytes }
    requires few { degrees ≤ 180 }
    requires cone { cone ≡ has_cone crs.now.conversion.method.name.bytes }
    ensures { option_map (λ p. p.now) result ≡ find (is_parameter_away crs.now) crs.now.conversion.parameters }
{
    crs.conversion
        .parameters
        .as_slice()
        .iter()
        .find(|p| is_parameter_away(crs, degrees, cone, p))
}

fn is_parameter_away(crs: &Projected, degrees: u32, cone: bool, parameter: &Parameter) -> bool
    requires degrees { degrees ≡ reach_of crs.now.conversion.method.name.bytes }
    requires few { degrees ≤ 180 }
    requires cone { cone ≡ has_cone crs.now.conversion.method.name.bytes }
    ensures { result ≡ is_parameter_away crs.now parameter.now }
{
    is_meridian_away(crs, degrees, parameter) || is_parallel_away(crs, cone, parameter)
}

fn is_meridian_away(crs: &Projected, degrees: u32, parameter: &Parameter) -> bool
    requires { degrees ≤ 180 }
    ensures { result ≡ is_meridian_away crs.now degrees parameter.now }
{
    0 < degrees
        && is_origin(parameter.name.as_bytes())
        && all_far_east(
            place_of(
                parameter.value,
                own_or_base(&parameter.unit, &crs.base.unit),
            ),
            prime_place(&crs.base.prime_meridian, base_unit(&crs.base.unit)),
            degrees,
            crs.usages.as_slice(),
        )
}

fn is_parallel_away(crs: &Projected, cone: bool, parameter: &Parameter) -> bool
    requires { cone ≡ has_cone crs.now.conversion.method.name.bytes }
    ensures { result ≡ is_parallel_away crs.now parameter.now }
{
    cone && has_part(parameter.name.as_bytes(), b"parallel")
        && all_far_north(
            place_of(
                parameter.value,
                own_or_base(&parameter.unit, &crs.base.unit),
            ),
            35,
            crs.usages.as_slice(),
        )
}

fn is_origin(name: &[u8]) -> bool
    ensures { result ≡ is_origin name.now }
{
    is_named(name, b"longitude of natural origin")
        || is_named(name, b"longitude of false origin")
        || is_named(name, b"central meridian")
        || is_named(name, b"longitude of center")
}

// The degrees that a method of this name reaches east and west, or 0 if any meridian suits it.
fn reach_of(method: &[u8]) -> u32
    ensures value { result ≡ reach_of method.now }
    ensures few { result ≤ 180 }
{
    if has_part(method, b"zoned") {
        return 0;
    }
    if has_part(method, b"transverse mercator") || has_part(method, b"cassini") {
        return 5;
    }
    if has_part(method, b"lambert conic conformal (1sp)")
        || has_part(method, b"oblique stereographic")
    {
        return 10;
    }
    if has_part(method, b"lambert conic")
        || has_part(method, b"albers")
        || has_part(method, b"lambert azimuthal")
    {
        return 30;
    }
    0
}

fn has_cone(method: &[u8]) -> bool
    ensures { result ≡ has_cone method.now }
{
    (has_part(method, b"lambert conic") && !has_part(method, b"(1sp)"))
        || has_part(method, b"albers")
}

fn place_of(value: Decimal, unit: Option<&UnitDefinition>) -> Option<u128>
    ensures value { result ≡ place_of value (option_map (λ unit. unit.now) unit.entry) }
    ensures small { IfSome result (λ n. n ≤ 2 * 62831853071795880000000000000000) }
{
    if is_packed(unit) {
        return None;
    }
    in_unit_or_degrees(value, unit)
}

// A prime meridian without a unit of its own has that of its system.
fn prime_place(meridian: &Option<PrimeMeridian>, common: Option<&UnitDefinition>) -> Option<u128>
    ensures value { result ≡ prime_place meridian.now (option_map (λ unit. unit.now) common.entry) }
    ensures small { IfSome result (λ n. n ≤ 2 * 62831853071795880000000000000000) }
{
    match meridian {
        Some(meridian) => place_of(
            meridian.longitude,
            unit_or(base_unit(&meridian.unit), common),
        ),
        None => Some(TURN),
    }
}

fn all_far_east(meridian: Option<u128>, prime: Option<u128>, degrees: u32, usages: &[Usage]) -> bool
    requires meridian { IfSome meridian (λ n. n ≤ 2 * 62831853071795880000000000000000) }
    requires prime { IfSome prime (λ n. n ≤ 2 * 62831853071795880000000000000000) }
    requires degrees { degrees ≤ 180 }
    ensures { result ≡ all_far_east meridian prime degrees usages.now }
{
    match (meridian, prime) {
        (Some(meridian), Some(prime)) => each_far_east(meridian, prime, degrees, usages),
        _ => false,
    }
}

fn each_far_east(meridian: u128, prime: u128, degrees: u32, usages: &[Usage]) -> bool
    requires meridian { meridian ≤ 2 * 62831853071795880000000000000000 }
    requires prime { prime ≤ 2 * 62831853071795880000000000000000 }
    requires degrees { degrees ≤ 180 }
    ensures { result ≡ list_all (λ usage. usage_far_east meridian prime degrees usage.bounding_box) usages.now }
{
    usages.iter().all(|usage| usage_far_east(meridian, prime, degrees, &usage.bounding_box))
}

fn usage_far_east(meridian: u128, prime: u128, degrees: u32, found: &Option<BoundingBox>) -> bool
    requires meridian { meridian ≤ 2 * 62831853071795880000000000000000 }
    requires prime { prime ≤ 2 * 62831853071795880000000000000000 }
    requires degrees { degrees ≤ 180 }
    ensures { result ≡ usage_far_east meridian prime degrees found.now }
{
    match found {
        Some(found) => far_from_arc(
            meridian,
            prime,
            degrees,
            in_degrees(found.west),
            in_degrees(found.east),
        ),
        None => true,
    }
}

fn far_from_arc(
    meridian: u128,
    prime: u128,
    degrees: u32,
    west: Option<u128>,
    east: Option<u128>,
) -> bool
    requires meridian { meridian ≤ 2 * 62831853071795880000000000000000 }
    requires prime { prime ≤ 2 * 62831853071795880000000000000000 }
    requires degrees { degrees ≤ 180 }
    requires west { IfSome west (λ n. n ≤ 2 * 62831853071795880000000000000000) }
    requires east { IfSome east (λ n. n ≤ 2 * 62831853071795880000000000000000) }
    ensures { result ≡ far_from_arc meridian prime degrees west east }
{
    match (west, east) {
        (Some(west), Some(east)) => is_far_east(meridian, prime, west, east, degrees),
        _ => false,
    }
}

fn all_far_north(parallel: Option<u128>, degrees: u32, usages: &[Usage]) -> bool
    requires parallel { IfSome parallel (λ n. n ≤ 2 * 62831853071795880000000000000000) }
    requires degrees { degrees ≤ 180 }
    ensures { result ≡ all_far_north parallel degrees usages.now }
{
    match parallel {
        Some(parallel) => each_far_north(parallel, degrees, usages),
        None => false,
    }
}

fn each_far_north(parallel: u128, degrees: u32, usages: &[Usage]) -> bool
    requires parallel { parallel ≤ 2 * 62831853071795880000000000000000 }
    requires degrees { degrees ≤ 180 }
    ensures { result ≡ list_all (λ usage. usage_far_north parallel degrees usage.bounding_box) usages.now }
{
    usages.iter().all(|usage| usage_far_north(parallel, degrees, &usage.bounding_box))
}

fn usage_far_north(parallel: u128, degrees: u32, found: &Option<BoundingBox>) -> bool
    requires parallel { parallel ≤ 2 * 62831853071795880000000000000000 }
    requires degrees { degrees ≤ 180 }
    ensures { result ≡ usage_far_north parallel degrees found.now }
{
    match found {
        Some(found) => far_from_belt(
            parallel,
            degrees,
            in_degrees(found.south),
            in_degrees(found.north),
        ),
        None => true,
    }
}

fn far_from_belt(parallel: u128, degrees: u32, south: Option<u128>, north: Option<u128>) -> bool
    requires parallel { parallel ≤ 2 * 62831853071795880000000000000000 }
    requires degrees { degrees ≤ 180 }
    requires south { IfSome south (λ n. n ≤ 2 * 62831853071795880000000000000000) }
    requires north { IfSome north (λ n. n ≤ 2 * 62831853071795880000000000000000) }
    ensures { result ≡ far_from_belt parallel degrees south north }
{
    match (south, north) {
        (Some(south), Some(north)) => is_far_north(parallel, south, north, degrees),
        _ => false,
    }
}

// The first area of use that has a box.
fn first_box(usages: &[Usage]) -> Option<&BoundingBox>
    ensures { option_map (λ area. area.now) result ≡ first_box usages.now }
{
    let mut rest = usages;
    while let Some((usage, others)) = rest.split_first() {
        if let Some(found) = &usage.bounding_box {
            return Some(found);
        }
        rest = others;
    }
    None
}

fn beside<'a>(parameter: &'a Parameter, area: &'a BoundingBox) -> Finding<'a>
    ensures { sentence result ≡ parameter_said parameter.now (box_said area.now) }
{
    Finding {
        parameter: Some(parameter),
        pieces: [
            Piece::Text(b"the area of use has south "),
            Piece::Number(&area.south),
            Piece::Text(b", west "),
            Piece::Number(&area.west),
            Piece::Text(b", north "),
            Piece::Number(&area.north),
            Piece::Text(b", east "),
            Piece::Number(&area.east),
            END,
            END,
            END,
            END,
        ],
    }
}
