//! The usages of a reference system.

ghost use Rattle.std.specs.Prelude.{◌≡◌};
ghost use Rattle.crs_value.specs.Usages.{usages_of};

use crs_part::{CrsParts, Single, Usage};

/// The usages of the whole, and not those of a component.
pub fn usages_of(crs: &CrsParts) -> &[Usage]
    ensures { result.now ≡ usages_of crs.now }
{
    match crs {
        CrsParts::Single(Single::Geodetic(crs)) => crs.usages.as_slice(),
        CrsParts::Single(Single::Projected(crs)) => crs.usages.as_slice(),
        CrsParts::Single(Single::Vertical(crs)) => crs.usages.as_slice(),
        CrsParts::Compound(compound) => compound.get().usages.as_slice(),
    }
}
