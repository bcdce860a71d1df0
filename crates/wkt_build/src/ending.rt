//! The last slots of reference systems of one part and of base systems.
//!
//! Each is a separate function, so that a failing step holds few values: its proof goes through each of them.

ghost use Rattle.std.specs.Prelude.{◌≤◌, length};
ghost use Rattle.wkt_build.specs.Rest.{BuildsBefore, BuildsRest, base_ending_fields, base_ending_row, ending_fields, ending_row, tail_fields, tail_row, vertical_ending_fields, vertical_ending_row, vertical_tail_fields, vertical_tail_row};

use crate::built::{take_each, take_maybe, take_one, with};
use crate::identifiers::GeoidModel;
use crate::reader::Reader;
use crate::values::take_maybe_value;
use crs_part::{
    AngleUnit, Axis, CoordSystem, Ident, Many, Named, NonEmpty, PrimeMeridian, Text, Unit, Usage,
};
use std::alloc::{AllocError, Global};
use wkt_grammar::Keyword;

/// The coordinate system, its axes, and their unit.
#[derive(Drop)]
pub(crate) struct Coordinates {
    pub(crate) system: CoordSystem,
    pub(crate) axes: NonEmpty<Axis>,
    pub(crate) unit: Option<Unit>,
}

/// The slots from the coordinate system on.
#[derive(Drop)]
pub(crate) struct Ending {
    pub(crate) system: CoordSystem,
    pub(crate) axes: NonEmpty<Axis>,
    pub(crate) unit: Option<Unit>,
    pub(crate) usages: Many<Usage>,
    pub(crate) ids: Many<Ident>,
    pub(crate) remark: Option<Text>,
}

/// The slots after the unit of the axes.
#[derive(Drop)]
pub(crate) struct Tail {
    pub(crate) usages: Many<Usage>,
    pub(crate) ids: Many<Ident>,
    pub(crate) remark: Option<Text>,
}

/// The slots of a vertical system from the coordinate system on.
#[derive(Drop)]
pub(crate) struct VerticalEnding {
    pub(crate) system: CoordSystem,
    pub(crate) axes: NonEmpty<Axis>,
    pub(crate) unit: Option<Unit>,
    pub(crate) geoid_models: Many<Named>,
    pub(crate) usages: Many<Usage>,
    pub(crate) ids: Many<Ident>,
    pub(crate) remark: Option<Text>,
}

/// The slots of a vertical system after the unit of the axes.
#[derive(Drop)]
pub(crate) struct VerticalTail {
    pub(crate) geoid_models: Many<Named>,
    pub(crate) usages: Many<Usage>,
    pub(crate) ids: Many<Ident>,
    pub(crate) remark: Option<Text>,
}

/// The slots of a base system after its datum.
#[derive(Drop)]
pub(crate) struct BaseEnding {
    pub(crate) prime_meridian: Option<PrimeMeridian>,
    pub(crate) unit: Option<AngleUnit>,
    pub(crate) ids: Many<Ident>,
}

pub(crate) fn take_tail(alloc: Global, cursor: &mut Reader<'_>) -> Result<Tail, AllocError>
    ensures builds { BuildsRest tail_row tail_fields cursor.old cursor.new result }
    ensures shorter { length cursor.new ≤ length cursor.old }
{
    let usages = take_each::<Usage, Usage>(alloc, cursor)?;
    let ids = take_each::<Ident, Ident>(alloc, cursor)?;
    let remark = take_maybe_value(alloc, cursor, Keyword::Remark)?;
    Ok(Tail {
        usages,
        ids,
        remark,
    })
}

pub(crate) fn take_base_ending(
    alloc: Global,
    cursor: &mut Reader<'_>,
) -> Result<BaseEnding, AllocError>
    ensures builds { BuildsRest base_ending_row base_ending_fields cursor.old cursor.new result }
    ensures shorter { length cursor.new ≤ length cursor.old }
{
    let prime_meridian = take_maybe::<PrimeMeridian, PrimeMeridian>(alloc, cursor)?;
    let unit = take_maybe::<AngleUnit, AngleUnit>(alloc, cursor)?;
    let ids = take_each::<Ident, Ident>(alloc, cursor)?;
    Ok(BaseEnding {
        prime_meridian,
        unit,
        ids,
    })
}

fn take_vertical_tail(alloc: Global, cursor: &mut Reader<'_>) -> Result<VerticalTail, AllocError>
    ensures builds { BuildsRest vertical_tail_row vertical_tail_fields cursor.old cursor.new result }
    ensures shorter { length cursor.new ≤ length cursor.old }
{
    let geoid_models = take_each::<GeoidModel, Named>(alloc, cursor)?;
    let tail = take_tail(alloc, cursor)?;
    Ok(VerticalTail {
        geoid_models,
        usages: tail.usages,
        ids: tail.ids,
        remark: tail.remark,
    })
}

fn take_coordinates(alloc: Global, cursor: &mut Reader<'_>) -> Result<Coordinates, AllocError>
    ensures before { BuildsBefore tail_row tail_fields cursor.old cursor.new result }
    ensures before_vertical { BuildsBefore vertical_tail_row vertical_tail_fields cursor.old cursor.new result }
    ensures shorter { length cursor.new ≤ length cursor.old }
{
    let system = take_one::<CoordSystem, CoordSystem>(alloc, cursor)?;
    let first = take_one::<Axis, Axis>(alloc, cursor)?;
    let (first, others) = with(first, take_each::<Axis, Axis>(alloc, cursor))?;
    let axes = NonEmpty { first, others };
    let (axes, unit) = with(axes, take_maybe::<Unit, Unit>(alloc, cursor))?;
    Ok(Coordinates { system, axes, unit })
}

pub(crate) fn take_ending(alloc: Global, cursor: &mut Reader<'_>) -> Result<Ending, AllocError>
    ensures builds { BuildsRest ending_row ending_fields cursor.old cursor.new result }
    ensures shorter { length cursor.new ≤ length cursor.old }
{
    let coordinates = take_coordinates(alloc, cursor)?;
    let (coordinates, tail) = with(coordinates, take_tail(alloc, cursor))?;
    Ok(Ending {
        system: coordinates.system,
        axes: coordinates.axes,
        unit: coordinates.unit,
        usages: tail.usages,
        ids: tail.ids,
        remark: tail.remark,
    })
}

pub(crate) fn take_vertical_ending(
    alloc: Global,
    cursor: &mut Reader<'_>,
) -> Result<VerticalEnding, AllocError>
    ensures builds { BuildsRest vertical_ending_row vertical_ending_fields cursor.old cursor.new result }
    ensures shorter { length cursor.new ≤ length cursor.old }
{
    let coordinates = take_coordinates(alloc, cursor)?;
    let (coordinates, tail) = with(coordinates, take_vertical_tail(alloc, cursor))?;
    Ok(VerticalEnding {
        system: coordinates.system,
        axes: coordinates.axes,
        unit: coordinates.unit,
        geoid_models: tail.geoid_models,
        usages: tail.usages,
        ids: tail.ids,
        remark: tail.remark,
    })
}
