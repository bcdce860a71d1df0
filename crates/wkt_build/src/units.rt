//! Units.

ghost use Rattle.std.specs.Prelude.{◌≤◌, length};
ghost use Rattle.wkt_grammar.specs.declared.table.Node.TheVariants as nodes;
ghost use Rattle.wkt_grammar.specs.declared.table.Takes.TheVariants as kinds;
ghost use Rattle.wkt_grammar.specs.Denotes.{DenotesAngleUnit, DenotesLengthUnit, DenotesUnit, unit_fields};
ghost use Rattle.wkt_build.specs.Reads.{BuildsNode};

use crate::built::{Built, pass, take_each, take_one};
use crate::choices::{angle_unit_as, length_unit_as, unit_as};
use crate::reader::Reader;
use crs_number::Decimal;
use crs_part::{AngleUnit, Ident, LengthUnit, Text, Unit, UnitDefinition};
use std::alloc::{AllocError, Global};
use wkt_grammar::Takes;

pub(crate) fn build_unit(
    alloc: Global,
    cursor: &mut Reader<'_>,
) -> Result<UnitDefinition, AllocError>
    ensures builds { BuildsNode nodes.Unit unit_fields cursor.old cursor.new result }
    ensures shorter { length cursor.new ≤ length cursor.old }
{
    pass(cursor);
    let name = take_one::<Text, Text>(alloc, cursor)?;
    let factor = take_one::<Decimal, Decimal>(alloc, cursor)?;
    let ids = take_each::<Ident, Ident>(alloc, cursor)?;
    pass(cursor);
    Ok(UnitDefinition { name, factor, ids })
}

impl Built<Unit> for Unit {
    ghost slot_kind = { kinds.AnyUnit };

    ghost Denotes = { DenotesUnit };

    fn kind() -> Takes {
        Takes::AnyUnit
    }

    fn build(alloc: Global, cursor: &mut Reader<'_>) -> Result<Unit, AllocError> {
        let keyword = cursor.next_keyword();
        let unit = build_unit(alloc, cursor)?;
        Ok(unit_as(keyword, unit))
    }
}

impl Built<LengthUnit> for LengthUnit {
    ghost slot_kind = { kinds.LengthUnit };

    ghost Denotes = { DenotesLengthUnit };

    fn kind() -> Takes {
        Takes::LengthUnit
    }

    fn build(alloc: Global, cursor: &mut Reader<'_>) -> Result<LengthUnit, AllocError> {
        let keyword = cursor.next_keyword();
        let unit = build_unit(alloc, cursor)?;
        Ok(length_unit_as(keyword, unit))
    }
}

impl Built<AngleUnit> for AngleUnit {
    ghost slot_kind = { kinds.AngleUnit };

    ghost Denotes = { DenotesAngleUnit };

    fn kind() -> Takes {
        Takes::AngleUnit
    }

    fn build(alloc: Global, cursor: &mut Reader<'_>) -> Result<AngleUnit, AllocError> {
        let keyword = cursor.next_keyword();
        let unit = build_unit(alloc, cursor)?;
        Ok(angle_unit_as(keyword, unit))
    }
}
