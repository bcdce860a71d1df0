//! The rules: those about one reference system, and those about one beside others.

ghost use Rattle.std.specs.Prelude.{◌≡◌};
ghost use Rattle.reg_lint.specs.AnyRules.{any_name, is_usual, any_of_name};

use crs_sense::Rule;
use reg_sense::WideRule;

/// A rule about one reference system, or about one beside the others.
#[derive(Clone, Copy, Debug, PartialEq, Eq)]
pub enum AnyRule {
    Own(Rule),
    Wide(WideRule),
}

/// All rules, by name.
pub static ANY_RULES: [AnyRule; 29] = [
    AnyRule::Own(Rule::Accuracy),
    AnyRule::Own(Rule::Angle),
    AnyRule::Own(Rule::Away),
    AnyRule::Own(Rule::Axes),
    AnyRule::Own(Rule::AxisName),
    AnyRule::Own(Rule::Box),
    AnyRule::Wide(WideRule::Case),
    AnyRule::Wide(WideRule::Datum),
    AnyRule::Own(Rule::Packed),
    AnyRule::Own(Rule::Ellipsoid),
    AnyRule::Own(Rule::FalseUnit),
    AnyRule::Own(Rule::Figure),
    AnyRule::Own(Rule::Height),
    AnyRule::Own(Rule::Key),
    AnyRule::Own(Rule::Meridian),
    AnyRule::Own(Rule::Name),
    AnyRule::Own(Rule::Operation),
    AnyRule::Own(Rule::Parallels),
    AnyRule::Wide(WideRule::Parts),
    AnyRule::Own(Rule::Prime),
    AnyRule::Own(Rule::Quantity),
    AnyRule::Own(Rule::Radian),
    AnyRule::Wide(WideRule::RefName),
    AnyRule::Wide(WideRule::SameName),
    AnyRule::Own(Rule::Scale),
    AnyRule::Wide(WideRule::Twin),
    AnyRule::Own(Rule::Unit),
    AnyRule::Own(Rule::UnitName),
    AnyRule::Own(Rule::Zone),
];

impl AnyRule {
    /// The name that is printed.
    pub fn name(self) -> &'static str
        ensures { result.now ≡ any_name self }
    {
        match self {
            AnyRule::Own(rule) => rule.name(),
            AnyRule::Wide(rule) => rule.name(),
        }
    }

    /// The rule of this name, in any letter case.
    pub fn of_name(name: &[u8]) -> Option<AnyRule>
        ensures { result ≡ any_of_name name.now }
    {
        if let Some(rule) = Rule::of_name(name) {
            return Some(AnyRule::Own(rule));
        }
        match WideRule::of_name(name) {
            Some(rule) => Some(AnyRule::Wide(rule)),
            None => None,
        }
    }

    /// Whether the rule is looked at where none is named.
    pub fn is_usual(self) -> bool
        ensures { result ≡ is_usual self }
    {
        match self {
            AnyRule::Own(_) => true,
            AnyRule::Wide(WideRule::Twin) => false,
            AnyRule::Wide(_) => true,
        }
    }
}
