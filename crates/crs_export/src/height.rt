//! What PROJ's tables take of a vertical reference system.

ghost use Rattle.std.specs.Prelude.{◌≡◌};
ghost use Rattle.crs_export.specs.Heights.{bytes_of, height_bytes, frame_name, length_in, length_of, default_axis, axis_name, axis_letter, with_unit, height_of, height_in, is_named, name_behind, unit_behind};

use crate::markup::{DEPTH, HEIGHT};
use crate::names::is_long;
use crs_number::Decimal;
use crs_part::{Axis, Direction, Single, Unit, UnitDefinition, Vertical, VerticalFrame, Word};

/// Its name, that of its frame, its axis and its unit.
#[derive(Clone, Copy)]
pub struct Height<'a> {
    pub name: &'a [u8],
    pub frame: &'a [u8],
    pub axis: &'a [u8],
    pub abbreviation: &'a [u8],
    pub direction: &'a [u8],
    pub unit: &'a [u8],
    pub factor: Decimal,
}

fn frame_name(frame: &VerticalFrame) -> Option<&[u8]>
    ensures { name_behind result ≡ frame_name frame.now }
{
    match frame {
        VerticalFrame::Datum(datum) => Some(datum.name.as_bytes()),
        VerticalFrame::Ensemble(_) => None,
    }
}

fn length_in(unit: &Unit) -> Option<&UnitDefinition>
    ensures { unit_behind result ≡ length_in unit.now }
{
    match unit {
        Unit::Length(unit) => Some(unit),
        Unit::Angle(_) => None,
        Unit::Scale(_) => None,
        Unit::Generic(unit) => Some(unit),
    }
}

// The unit of the axis, or else of the system.
fn length_of<'a>(own: &'a Option<Unit>, whole: &'a Option<Unit>) -> Option<&'a UnitDefinition>
    ensures { unit_behind result ≡ length_of own.now whole.now }
{
    match own {
        Some(unit) => length_in(unit),
        None => match whole {
            Some(unit) => length_in(unit),
            None => None,
        },
    }
}

fn default_axis(direction: Direction) -> &'static [u8]
    ensures { result.now ≡ default_axis direction }
{
    match direction {
        Direction::Down => DEPTH,
        _ => HEIGHT,
    }
}

fn axis_name(axis: &Axis) -> &[u8]
    ensures { result.now ≡ axis_name axis.now }
{
    let name = axis.name.as_bytes();
    if is_long(name) {
        return name;
    }
    default_axis(axis.direction)
}

// A letter is the abbreviation of an axis.
fn axis_letter(axis: &Axis) -> &[u8]
    ensures { result.now ≡ axis_letter axis.now }
{
    let name = axis.name.as_bytes();
    if is_long(name) {
        return b"";
    }
    name
}

fn with_unit<'a>(
    crs: &'a Vertical,
    frame: &'a [u8],
    unit: Option<&'a UnitDefinition>,
) -> Option<Height<'a>>
    ensures { bytes_of result ≡ with_unit crs.now frame.now (unit_behind unit.entry) }
{
    match unit {
        Some(unit) => Some(Height {
            name: crs.name.as_bytes(),
            frame,
            axis: axis_name(&crs.axes.first),
            abbreviation: axis_letter(&crs.axes.first),
            direction: crs.axes.first.direction.word(),
            unit: unit.name.as_bytes(),
            factor: unit.factor,
        }),
        None => None,
    }
}

// What the tables take of a vertical system. They take no ensemble.
fn height_of(crs: &Vertical) -> Option<Height<'_>>
    ensures { bytes_of result ≡ height_of crs.now }
{
    match frame_name(&crs.datum) {
        Some(frame) => with_unit(crs, frame, length_of(&crs.axes.first.unit, &crs.unit)),
        None => None,
    }
}

/// The same, if the system is vertical.
pub fn height_in(crs: &Single) -> Option<Height<'_>>
    ensures { bytes_of result ≡ height_in crs.now }
{
    match crs {
        Single::Geodetic(_) => None,
        Single::Projected(_) => None,
        Single::Vertical(crs) => height_of(crs),
    }
}

/// Whether PROJ's tables take its names: each has two characters.
pub fn is_named(height: &Height<'_>) -> bool
    ensures { result ≡ is_named (height_bytes height.now) }
{
    is_long(height.name) && is_long(height.frame) && is_long(height.unit)
}
