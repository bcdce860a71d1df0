//! The first condition that fails.

ghost use Rattle.std.specs.Prelude.{◌≡◌, not};
ghost use Rattle.std.specs.List.{find};
ghost use Rattle.std.specs.Option.{option_map};
ghost use Rattle.crs_part.specs.declared.crs.CrsParts.TheVariants as parts;
ghost use Rattle.crs_value.specs.Checking.{holds, holds_of_compound, conditions, first_broken};

use crate::axes::{has_axis_a_dimension, has_meridians, has_orders, has_units, units_fit};
use crate::broken::{Broken, Condition, Whose};
use crate::sizes::{has_own_sizes, has_sizes};
use crate::systems::{may_be_first, may_be_second, may_have_system};
use crs_part::{Compound, CrsParts, Single};

pub(crate) fn first_broken(parts: &CrsParts) -> Option<Broken>
    ensures { result ≡ first_broken parts.now }
{
    match parts {
        CrsParts::Single(crs) => broken_at(Whose::Whole, broken_of(crs)),
        CrsParts::Compound(crs) => first_broken_of(crs.get()),
    }
}

fn first_broken_of(crs: &Compound) -> Option<Broken>
    ensures { result ≡ first_broken (parts.Compound crs.now) }
{
    broken_at(Whose::First, broken_of(&crs.first))
        .or(broken_at(Whose::Second, broken_of(&crs.second)))
        .or(broken_at(Whose::Whole, broken_of_compound(crs)))
}

fn broken_at(whose: Whose, condition: Option<Condition>) -> Option<Broken>
    ensures { result ≡ option_map (λ which. record { whose = whose; condition = which }) condition }
{
    match condition {
        Some(condition) => Some(Broken { whose, condition }),
        None => None,
    }
}

fn broken_of(crs: &Single) -> Option<Condition>
    ensures { result ≡ find (λ condition. not (holds crs.now condition)) conditions }
{
    let system = crs.system();
    let axes = crs.axes();
    let common = crs.common_unit();
    if !has_axis_a_dimension(system, axes) {
        return Some(Condition::C1);
    }
    if !may_have_system(crs) {
        return Some(Condition::C2);
    }
    if !has_units(axes, common) {
        return Some(Condition::C3);
    }
    if !has_orders(axes) {
        return Some(Condition::C4);
    }
    if !units_fit(system.kind, axes, common) {
        return Some(Condition::C5);
    }
    if !has_sizes(crs) {
        return Some(Condition::C7);
    }
    if !has_meridians(axes) {
        return Some(Condition::C8);
    }
    None
}

fn broken_of_compound(crs: &Compound) -> Option<Condition>
    ensures { result ≡ find (λ condition. not (holds_of_compound crs.now condition)) conditions }
{
    if !(may_be_first(&crs.first) && may_be_second(&crs.second)) {
        return Some(Condition::C6);
    }
    if !has_own_sizes(crs) {
        return Some(Condition::C7);
    }
    None
}
