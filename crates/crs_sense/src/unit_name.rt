//! Systems whose name has a unit that no axis has.

ghost use Rattle.std.specs.Prelude.{◌≡◌};
ghost use Rattle.std.specs.Option.{option_or, option_map};
ghost use Rattle.crs_part.specs.Slots.{items_of};
ghost use Rattle.crs_exact.specs.Said.{sentence};
ghost use Rattle.crs_sense.specs.UnitName.{is_no, is_no_unit, none_is, is_misnamed, unit_name_said, misnamed, unit_name};

use crs_exact::{END, Finding, Piece, either, has_part, is_below, is_beyond, unit_of, unit_said};
use crs_number::Decimal;
use crs_part::{Axis, NonEmpty, Single, Text, Unit};

/// A unit that names of systems have in parentheses.
#[derive(Clone, Copy)]
pub(crate) enum UnitMark {
    SurveyFoot,
    Foot,
    Metre,
}

/// The system, if its name has `(ftUS)`, `(ft)` or `(m)`, and no axis has that unit; with the unit of its first axis.
pub(crate) fn odd_unit_name(crs: &Single) -> Option<Finding<'_>>
    ensures { option_map sentence result ≡ unit_name crs.now }
{
    match crs {
        Single::Geodetic(_) => None,
        Single::Projected(crs) => misnamed(&crs.name, &crs.axes, &crs.unit),
        Single::Vertical(crs) => misnamed(&crs.name, &crs.axes, &crs.unit),
    }
}

fn misnamed<'a>(
    name: &'a Text,
    axes: &'a NonEmpty<Axis>,
    common: &'a Option<Unit>,
) -> Option<Finding<'a>>
    ensures { option_map sentence result ≡ misnamed name.now axes.now common.now }
{
    if !is_misnamed(name.as_bytes(), axes, common) {
        return None;
    }
    Some(unit_name_said(name.as_bytes(), either(&axes.first.unit, common)))
}

fn unit_name_said<'a>(name: &'a [u8], unit: &'a Option<Unit>) -> Finding<'a>
    ensures { sentence result ≡ unit_name_said name.now unit.now }
{
    Finding::of_words([
        Piece::Text(b"\""),
        Piece::Text(name),
        Piece::Text(b"\", and its axes are in "),
        Piece::Text(unit_said(unit)),
        END,
        END,
        END,
        END,
        END,
        END,
        END,
        END,
    ])
}

fn is_misnamed(name: &[u8], axes: &NonEmpty<Axis>, common: &Option<Unit>) -> bool
    ensures { result ≡ is_misnamed name.now (items_of axes.now) common.now }
{
    (has_part(name, b"(ftUS)") && none_is(UnitMark::SurveyFoot, axes, common))
        || (has_part(name, b"(ft)") && none_is(UnitMark::Foot, axes, common))
        || (has_part(name, b"(m)") && none_is(UnitMark::Metre, axes, common))
}

fn none_is(mark: UnitMark, axes: &NonEmpty<Axis>, common: &Option<Unit>) -> bool
    ensures { result ≡ none_is mark (items_of axes.now) common.now }
{
    has_not(mark, common, &axes.first) && no_other_is(mark, axes.others.as_slice(), common)
}

fn no_other_is(mark: UnitMark, axes: &[Axis], common: &Option<Unit>) -> bool
    ensures { result ≡ none_is mark axes.now common.now }
{
    axes.iter().all(|axis| has_not(mark, common, axis))
}

fn has_not(mark: UnitMark, common: &Option<Unit>, axis: &Axis) -> bool
    ensures { result ≡ is_no_unit mark (option_or axis.now.unit common.now) }
{
    is_no_unit(mark, either(&axis.unit, common))
}

fn is_no_unit(mark: UnitMark, unit: &Option<Unit>) -> bool
    ensures { result ≡ is_no_unit mark unit.now }
{
    match unit {
        Some(unit) => is_no(mark, unit_of(unit).factor),
        None => false,
    }
}

fn is_no(mark: UnitMark, factor: Decimal) -> bool
    ensures { result ≡ is_no mark factor }
{
    match mark {
        UnitMark::SurveyFoot => {
            is_below(factor, 304_800_609_296_418_390_398_781, 24)
                || is_beyond(factor, 304_800_609_906_019_609_601_219, 24)
        }
        UnitMark::Foot => is_below(factor, 3_047_999_996_952, 13)
            || is_beyond(factor, 3_048_000_003_048, 13),
        UnitMark::Metre => is_below(factor, 999_999_999, 9) || is_beyond(factor, 1_000_000_001, 9),
    }
}
