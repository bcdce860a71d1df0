//! Datums, and ensembles of them.

ghost use Rattle.std.specs.Prelude.{IfSome};
ghost use Rattle.wkt_grammar.specs.declared.table.Keyword.TheVariants as keywords;
ghost use Rattle.wkt_grammar.specs.Trees.{ellipsoid_tree, prime_meridian_tree, accuracy_tree, datum_tree, geodetic_ensemble_tree, vertical_datum_tree, vertical_ensemble_tree, geodetic_frame_tree, vertical_frame_tree};
ghost use Rattle.wkt_canonical.specs.Reads.{ReadsOne, ReadsInside, any};
ghost use Rattle.wkt_canonical.specs.Tests.{ellipsoid_passes, datum_passes, ensemble_passes, frame_passes, prime_meridian_passes};

use crate::front::{behind, opens};
use crate::leaves::text;
use crate::node::{CanonicalNode, each, one, some};
use crate::numerals::{
    number, number_behind_comma, positive_number_behind_comma, unsigned_number_behind_comma,
};
use crate::units::{maybe_angle_unit, maybe_length_unit};
use crate::values::maybe_value;
use crs_part::{Ellipsoid, Ident, Named, PrimeMeridian};
use wkt_grammar::Keyword;

impl CanonicalNode for Ellipsoid {
    ghost tree = { ellipsoid_tree };

    ghost test = { ellipsoid_passes };

    ghost keyword = { keywords.Ellipsoid };

    fn keyword() -> Keyword {
        Keyword::Ellipsoid
    }

    fn inside(bytes: &[u8]) -> Option<&[u8]> {
        let rest = text(bytes)?;
        let rest = positive_number_behind_comma(rest)?;
        let rest = unsigned_number_behind_comma(rest)?;
        let rest = maybe_length_unit(rest);
        let rest = each::<Ident>(rest)?;
        let rest = behind(rest, b"]")?;
        Some(rest)
    }
}

impl CanonicalNode for PrimeMeridian {
    ghost tree = { prime_meridian_tree };

    ghost test = { prime_meridian_passes };

    ghost keyword = { keywords.PrimeMeridian };

    fn keyword() -> Keyword {
        Keyword::PrimeMeridian
    }

    fn inside(bytes: &[u8]) -> Option<&[u8]> {
        let rest = text(bytes)?;
        let rest = number_behind_comma(rest)?;
        let rest = maybe_angle_unit(rest);
        let rest = each::<Ident>(rest)?;
        let rest = behind(rest, b"]")?;
        Some(rest)
    }
}

/// The rest after the accuracy of an ensemble.
fn accuracy(bytes: &[u8]) -> Option<&[u8]>
    ensures { IfSome result (λ rest. ReadsOne any accuracy_tree bytes.now rest.now) }
{
    let inside = opens(bytes, Keyword::EnsembleAccuracy)?;
    let rest = number(inside)?;
    let rest = behind(rest, b"]")?;
    Some(rest)
}

/// The rest after a geodetic datum, read from after its opening delimiter.
fn datum(bytes: &[u8]) -> Option<&[u8]>
    ensures { IfSome result (λ rest. ReadsInside datum_passes datum_tree keywords.Datum bytes.now rest.now) }
{
    let rest = text(bytes)?;
    let rest = one::<Ellipsoid>(rest)?;
    let rest = maybe_value(Keyword::Anchor, rest)?;
    let rest = each::<Ident>(rest)?;
    let rest = behind(rest, b"]")?;
    Some(rest)
}

/// The rest after an ensemble of geodetic datums, read from after its opening delimiter.
fn geodetic_ensemble(bytes: &[u8]) -> Option<&[u8]>
    ensures { IfSome result (λ rest. ReadsInside ensemble_passes geodetic_ensemble_tree keywords.Ensemble bytes.now rest.now) }
{
    let rest = text(bytes)?;
    let rest = some::<Named>(rest)?;
    let rest = one::<Ellipsoid>(rest)?;
    let rest = accuracy(rest)?;
    let rest = each::<Ident>(rest)?;
    let rest = behind(rest, b"]")?;
    Some(rest)
}

/// The rest after a geodetic datum, or an ensemble of them.
pub(crate) fn geodetic_frame(bytes: &[u8]) -> Option<&[u8]>
    ensures { IfSome result (λ rest. ReadsOne frame_passes geodetic_frame_tree bytes.now rest.now) }
{
    if let Some(inside) = opens(bytes, Keyword::Ensemble) {
        let rest = geodetic_ensemble(inside)?;
        return Some(rest);
    }
    let inside = opens(bytes, Keyword::Datum)?;
    let rest = datum(inside)?;
    Some(rest)
}

/// The rest after a vertical datum, read from after its opening delimiter.
fn vertical_datum(bytes: &[u8]) -> Option<&[u8]>
    ensures { IfSome result (λ rest. ReadsInside any vertical_datum_tree keywords.VerticalDatum bytes.now rest.now) }
{
    let rest = text(bytes)?;
    let rest = maybe_value(Keyword::Anchor, rest)?;
    let rest = each::<Ident>(rest)?;
    let rest = behind(rest, b"]")?;
    Some(rest)
}

/// The rest after an ensemble of vertical datums, read from after its opening delimiter.
fn vertical_ensemble(bytes: &[u8]) -> Option<&[u8]>
    ensures { IfSome result (λ rest. ReadsInside any vertical_ensemble_tree keywords.Ensemble bytes.now rest.now) }
{
    let rest = text(bytes)?;
    let rest = some::<Named>(rest)?;
    let rest = accuracy(rest)?;
    let rest = each::<Ident>(rest)?;
    let rest = behind(rest, b"]")?;
    Some(rest)
}

/// The rest after a vertical datum, or an ensemble of them.
pub(crate) fn vertical_frame(bytes: &[u8]) -> Option<&[u8]>
    ensures { IfSome result (λ rest. ReadsOne any vertical_frame_tree bytes.now rest.now) }
{
    if let Some(inside) = opens(bytes, Keyword::Ensemble) {
        let rest = vertical_ensemble(inside)?;
        return Some(rest);
    }
    let inside = opens(bytes, Keyword::VerticalDatum)?;
    let rest = vertical_datum(inside)?;
    Some(rest)
}
