//! The rules, and whether a reference system breaks one.

ghost use Rattle.std.specs.Prelude.{◌≡◌, map, IfOk};
ghost use Rattle.std.specs.Char.{to_ascii_lowercase};
ghost use Rattle.std.specs.Option.{option_map};
ghost use Rattle.crs_part.specs.Words.{first_word};
ghost use Rattle.crs_exact.specs.Said.{sentence};
ghost use Rattle.crs_sense.specs.Rules.{rule_name, rules_listed, found_in, found_in_whole, found_in_both, found, breaks};
ghost use Rattle.crs_sense.specs.Sentences.{sentence as sentence_of};

use crate::accuracy::odd_accuracy;
use crate::axes::odd_axes;
use crate::axis_name::odd_axis_name;
use crate::boxes::odd_boxes;
use crate::ellipsoid::odd_ellipsoid;
use crate::figure::odd_figure;
use crate::height::odd_height;
use crate::prime::odd_prime;
use crate::unit_name::odd_unit_name;
use crs_conversion::{
    odd_angle, odd_false_unit, odd_operation, odd_packed, odd_parallels, odd_quantity, odd_radian,
    odd_scale,
};
use crs_exact::{Finding, usages_of};
use crs_meridians::{odd_away, odd_meridian, odd_zone};
use crs_names::{Seek, odd_item, odd_whole};
use crs_part::{Compound, CrsParts, Single, Word, first_of};
use std::alloc::{AllocError, Global};

/// What an expert would ask about, one rule each.
#[derive(Clone, Copy, Debug, PartialEq, Eq)]
pub enum Rule {
    /// An ensemble of an odd accuracy, or of one member.
    Accuracy,
    /// An angle that is too large.
    Angle,
    /// A central meridian or a standard parallel that is far from the area of use.
    Away,
    /// Axes on one line.
    Axes,
    /// An axis whose name tells another direction.
    AxisName,
    /// A bounding box that is none.
    Box,
    /// An angle in packed degrees, minutes and seconds.
    Packed,
    /// An ellipsoid with other numbers than its name says.
    Ellipsoid,
    /// A false easting or northing in another unit than the axes.
    FalseUnit,
    /// An ellipsoid with odd numbers.
    Figure,
    /// A vertical system whose axis runs against its name.
    Height,
    /// An identifier that is odd, or nearly another one.
    Key,
    /// A central meridian that is not that in the name.
    Meridian,
    /// A name that is empty, or has odd blanks or control characters.
    Name,
    /// A conversion that does not fit its method.
    Operation,
    /// Standard parallels that are equal or opposite.
    Parallels,
    /// A prime meridian with another longitude than its name says.
    Prime,
    /// A parameter whose unit measures something else than its name tells.
    Quantity,
    /// An angle in degrees that looks like radians.
    Radian,
    /// A scale factor that is not near 1.
    Scale,
    /// A unit with another factor than its name says.
    Unit,
    /// A system whose name has a unit that no axis has.
    UnitName,
    /// A conversion that is not that of the zone in its name.
    Zone,
}

/// All rules, by name.
pub static RULES: [Rule; 23] = [
    Rule::Accuracy,
    Rule::Angle,
    Rule::Away,
    Rule::Axes,
    Rule::AxisName,
    Rule::Box,
    Rule::Packed,
    Rule::Ellipsoid,
    Rule::FalseUnit,
    Rule::Figure,
    Rule::Height,
    Rule::Key,
    Rule::Meridian,
    Rule::Name,
    Rule::Operation,
    Rule::Parallels,
    Rule::Prime,
    Rule::Quantity,
    Rule::Radian,
    Rule::Scale,
    Rule::Unit,
    Rule::UnitName,
    Rule::Zone,
];

impl Word for Rule {
    ghost spelled = { rule_name };

    fn word(self) -> &'static [u8] {
        self.name().as_bytes()
    }
}

impl Rule {
    /// The name that is printed.
    pub fn name(self) -> &'static str
        ensures { result.now ≡ rule_name self }
    {
        match self {
            Rule::Accuracy => "accuracy",
            Rule::Angle => "angle",
            Rule::Away => "away",
            Rule::Axes => "axes",
            Rule::AxisName => "axisname",
            Rule::Box => "box",
            Rule::Packed => "dms",
            Rule::Ellipsoid => "ellipsoid",
            Rule::FalseUnit => "falseunit",
            Rule::Figure => "figure",
            Rule::Height => "height",
            Rule::Key => "key",
            Rule::Meridian => "meridian",
            Rule::Name => "name",
            Rule::Operation => "operation",
            Rule::Parallels => "parallels",
            Rule::Prime => "primem",
            Rule::Quantity => "quantity",
            Rule::Radian => "radian",
            Rule::Scale => "scale",
            Rule::Unit => "unit",
            Rule::UnitName => "unitname",
            Rule::Zone => "zone",
        }
    }

    /// The rule of this name, in any letter case.
    pub fn of_name(name: &[u8]) -> Option<Rule>
        ensures { result ≡ first_word rule_name rules_listed (map to_ascii_lowercase name.now) }
    {
        first_of(&RULES, name)
    }

    /// What a reference system has that breaks the rule: of a compound, in the first component that has it, or else in the whole.
    pub fn finding(self, crs: &CrsParts) -> Option<Finding<'_>>
        ensures { option_map sentence result ≡ found self crs.now }
    {
        match crs {
            CrsParts::Single(crs) => self.found_in(crs),
            CrsParts::Compound(crs) => self.found_in_both(crs.get()),
        }
    }

    /// Whether the reference system breaks the rule, in one of its parts.
    pub fn breaks(self, crs: &CrsParts) -> bool
        ensures { result ≡ breaks self crs.now }
    {
        match self.finding(crs) {
            Some(_) => true,
            None => false,
        }
    }

    /// What is odd about a reference system that breaks the rule: the value that was found, and what would be expected.
    pub fn sentence(self, alloc: Global, crs: &CrsParts) -> Result<Vec<u8>, AllocError>
        ensures { IfOk result (λ text. text.items ≡ sentence_of self crs.now) }
    {
        match self.finding(crs) {
            Some(found) => found.said(alloc),
            None => Ok(Vec::new(alloc)),
        }
    }

    fn found_in_both(self, crs: &Compound) -> Option<Finding<'_>>
        ensures { option_map sentence result ≡ found_in_both self crs.now }
    {
        if let Some(found) = self.found_in(&crs.first) {
            return Some(found);
        }
        if let Some(found) = self.found_in(&crs.second) {
            return Some(found);
        }
        self.found_in_whole(crs)
    }

    // In a system of one part.
    fn found_in(self, crs: &Single) -> Option<Finding<'_>>
        ensures { option_map sentence result ≡ found_in self crs.now }
    {
        match self {
            Rule::Accuracy => odd_accuracy(crs),
            Rule::Angle => odd_angle(crs),
            Rule::Away => odd_away(crs),
            Rule::Axes => odd_axes(crs),
            Rule::AxisName => odd_axis_name(crs),
            Rule::Box => odd_boxes(usages_of(crs)),
            Rule::Packed => odd_packed(crs),
            Rule::Ellipsoid => odd_ellipsoid(crs),
            Rule::FalseUnit => odd_false_unit(crs),
            Rule::Figure => odd_figure(crs),
            Rule::Height => odd_height(crs),
            Rule::Key => odd_item(crs, Seek::Ids),
            Rule::Meridian => odd_meridian(crs),
            Rule::Name => odd_item(crs, Seek::Names),
            Rule::Operation => odd_operation(crs),
            Rule::Parallels => odd_parallels(crs),
            Rule::Prime => odd_prime(crs),
            Rule::Quantity => odd_quantity(crs),
            Rule::Radian => odd_radian(crs),
            Rule::Scale => odd_scale(crs),
            Rule::Unit => odd_item(crs, Seek::Units),
            Rule::UnitName => odd_unit_name(crs),
            Rule::Zone => odd_zone(crs),
        }
    }

    // In a compound, apart from its components.
    fn found_in_whole(self, crs: &Compound) -> Option<Finding<'_>>
        ensures { option_map sentence result ≡ found_in_whole self crs.now }
    {
        match self {
            Rule::Box => odd_boxes(crs.usages.as_slice()),
            Rule::Key => odd_whole(crs, Seek::Ids),
            Rule::Name => odd_whole(crs, Seek::Names),
            Rule::Unit => odd_whole(crs, Seek::Units),
            _ => None,
        }
    }
}
