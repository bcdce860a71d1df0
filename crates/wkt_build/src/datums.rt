//! Datums and ensembles of them.

ghost use Rattle.std.specs.Prelude.{◌≤◌, length};
ghost use Rattle.wkt_grammar.specs.declared.table.Node.TheVariants as nodes;
ghost use Rattle.wkt_grammar.specs.declared.table.Keyword.TheVariants as keywords;
ghost use Rattle.wkt_grammar.specs.declared.table.Takes.TheVariants as kinds;
ghost use Rattle.wkt_grammar.specs.Denotes.{DenotesAccuracy, DenotesEllipsoid, DenotesGeodeticFrame, DenotesPrimeMeridian, DenotesVerticalFrame, accuracy_fields, datum_fields, geodetic_ensemble_fields, vertical_datum_fields, vertical_ensemble_fields};
ghost use Rattle.wkt_build.specs.Reads.{BuildsNode};

use crate::built::{Built, pass, take_each, take_maybe, take_one};
use crate::choices::is_ensemble;
use crate::identifiers::Member;
use crate::reader::Reader;
use crate::values::take_maybe_value;
use crs_number::Decimal;
use crs_part::{
    AngleUnit, Datum, Ellipsoid, GeodeticEnsemble, GeodeticFrame, Ident, LengthUnit, Named,
    NonEmpty, PrimeMeridian, Text, VerticalDatum, VerticalEnsemble, VerticalFrame,
};
use std::alloc::{AllocError, Global};
use wkt_grammar::{Keyword, Node, Takes};

impl Built<Ellipsoid> for Ellipsoid {
    ghost slot_kind = { kinds.Node keywords.Ellipsoid nodes.Ellipsoid };

    ghost Denotes = { DenotesEllipsoid };

    fn kind() -> Takes {
        Takes::Node(Keyword::Ellipsoid, Node::Ellipsoid)
    }

    fn build(alloc: Global, cursor: &mut Reader<'_>) -> Result<Ellipsoid, AllocError> {
        pass(cursor);
        let name = take_one::<Text, Text>(alloc, cursor)?;
        let radius = take_one::<Decimal, Decimal>(alloc, cursor)?;
        let flattening = take_one::<Decimal, Decimal>(alloc, cursor)?;
        let unit = take_maybe::<LengthUnit, LengthUnit>(alloc, cursor)?;
        let ids = take_each::<Ident, Ident>(alloc, cursor)?;
        pass(cursor);
        Ok(Ellipsoid {
            name,
            radius,
            flattening,
            unit,
            ids,
        })
    }
}

impl Built<PrimeMeridian> for PrimeMeridian {
    ghost slot_kind = { kinds.Node keywords.PrimeMeridian nodes.PrimeMeridian };

    ghost Denotes = { DenotesPrimeMeridian };

    fn kind() -> Takes {
        Takes::Node(Keyword::PrimeMeridian, Node::PrimeMeridian)
    }

    fn build(alloc: Global, cursor: &mut Reader<'_>) -> Result<PrimeMeridian, AllocError> {
        pass(cursor);
        let name = take_one::<Text, Text>(alloc, cursor)?;
        let longitude = take_one::<Decimal, Decimal>(alloc, cursor)?;
        let unit = take_maybe::<AngleUnit, AngleUnit>(alloc, cursor)?;
        let ids = take_each::<Ident, Ident>(alloc, cursor)?;
        pass(cursor);
        Ok(PrimeMeridian {
            name,
            longitude,
            unit,
            ids,
        })
    }
}

pub(crate) fn build_datum(alloc: Global, cursor: &mut Reader<'_>) -> Result<Datum, AllocError>
    ensures builds { BuildsNode nodes.Datum datum_fields cursor.old cursor.new result }
    ensures shorter { length cursor.new ≤ length cursor.old }
{
    pass(cursor);
    let name = take_one::<Text, Text>(alloc, cursor)?;
    let ellipsoid = take_one::<Ellipsoid, Ellipsoid>(alloc, cursor)?;
    let anchor = take_maybe_value(alloc, cursor, Keyword::Anchor)?;
    let ids = take_each::<Ident, Ident>(alloc, cursor)?;
    pass(cursor);
    Ok(Datum {
        name,
        ellipsoid,
        anchor,
        ids,
    })
}

pub(crate) fn build_vertical_datum(
    alloc: Global,
    cursor: &mut Reader<'_>,
) -> Result<VerticalDatum, AllocError>
    ensures builds { BuildsNode nodes.VerticalDatum vertical_datum_fields cursor.old cursor.new result }
    ensures shorter { length cursor.new ≤ length cursor.old }
{
    pass(cursor);
    let name = take_one::<Text, Text>(alloc, cursor)?;
    let anchor = take_maybe_value(alloc, cursor, Keyword::Anchor)?;
    let ids = take_each::<Ident, Ident>(alloc, cursor)?;
    pass(cursor);
    Ok(VerticalDatum { name, anchor, ids })
}

pub(crate) fn build_accuracy(alloc: Global, cursor: &mut Reader<'_>) -> Result<Decimal, AllocError>
    ensures builds { BuildsNode nodes.EnsembleAccuracy accuracy_fields cursor.old cursor.new result }
    ensures shorter { length cursor.new ≤ length cursor.old }
{
    pass(cursor);
    let accuracy = take_one::<Decimal, Decimal>(alloc, cursor)?;
    pass(cursor);
    Ok(accuracy)
}

/// A node `ENSEMBLEACCURACY`.
pub(crate) struct Accuracy;

impl Built<Decimal> for Accuracy {
    ghost slot_kind = { kinds.Node keywords.EnsembleAccuracy nodes.EnsembleAccuracy };

    ghost Denotes = { DenotesAccuracy };

    fn kind() -> Takes {
        Takes::Node(Keyword::EnsembleAccuracy, Node::EnsembleAccuracy)
    }

    fn build(alloc: Global, cursor: &mut Reader<'_>) -> Result<Decimal, AllocError> {
        build_accuracy(alloc, cursor)
    }
}

pub(crate) fn build_geodetic_ensemble(
    alloc: Global,
    cursor: &mut Reader<'_>,
) -> Result<GeodeticEnsemble, AllocError>
    ensures builds { BuildsNode nodes.GeodeticEnsemble geodetic_ensemble_fields cursor.old cursor.new result }
    ensures shorter { length cursor.new ≤ length cursor.old }
{
    pass(cursor);
    let name = take_one::<Text, Text>(alloc, cursor)?;
    let first_members = take_one::<Member, Named>(alloc, cursor)?;
    let others_members = take_each::<Member, Named>(alloc, cursor)?;
    let ellipsoid = take_one::<Ellipsoid, Ellipsoid>(alloc, cursor)?;
    let accuracy = take_one::<Accuracy, Decimal>(alloc, cursor)?;
    let ids = take_each::<Ident, Ident>(alloc, cursor)?;
    pass(cursor);
    Ok(GeodeticEnsemble {
        name,
        members: NonEmpty {
            first: first_members,
            others: others_members,
        },
        ellipsoid,
        accuracy,
        ids,
    })
}

pub(crate) fn build_vertical_ensemble(
    alloc: Global,
    cursor: &mut Reader<'_>,
) -> Result<VerticalEnsemble, AllocError>
    ensures builds { BuildsNode nodes.VerticalEnsemble vertical_ensemble_fields cursor.old cursor.new result }
    ensures shorter { length cursor.new ≤ length cursor.old }
{
    pass(cursor);
    let name = take_one::<Text, Text>(alloc, cursor)?;
    let first_members = take_one::<Member, Named>(alloc, cursor)?;
    let others_members = take_each::<Member, Named>(alloc, cursor)?;
    let accuracy = take_one::<Accuracy, Decimal>(alloc, cursor)?;
    let ids = take_each::<Ident, Ident>(alloc, cursor)?;
    pass(cursor);
    Ok(VerticalEnsemble {
        name,
        members: NonEmpty {
            first: first_members,
            others: others_members,
        },
        accuracy,
        ids,
    })
}

impl Built<GeodeticFrame> for GeodeticFrame {
    ghost slot_kind = { kinds.GeodeticDatum };

    ghost Denotes = { DenotesGeodeticFrame };

    fn kind() -> Takes {
        Takes::GeodeticDatum
    }

    fn build(alloc: Global, cursor: &mut Reader<'_>) -> Result<GeodeticFrame, AllocError> {
        if is_ensemble(cursor.next_keyword()) {
            let ensemble = build_geodetic_ensemble(alloc, cursor)?;
            return Ok(GeodeticFrame::Ensemble(ensemble));
        }
        let datum = build_datum(alloc, cursor)?;
        Ok(GeodeticFrame::Datum(datum))
    }
}

impl Built<VerticalFrame> for VerticalFrame {
    ghost slot_kind = { kinds.VerticalDatum };

    ghost Denotes = { DenotesVerticalFrame };

    fn kind() -> Takes {
        Takes::VerticalDatum
    }

    fn build(alloc: Global, cursor: &mut Reader<'_>) -> Result<VerticalFrame, AllocError> {
        if is_ensemble(cursor.next_keyword()) {
            let ensemble = build_vertical_ensemble(alloc, cursor)?;
            return Ok(VerticalFrame::Ensemble(ensemble));
        }
        let datum = build_vertical_datum(alloc, cursor)?;
        Ok(VerticalFrame::Datum(datum))
    }
}
