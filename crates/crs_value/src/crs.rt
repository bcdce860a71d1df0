//! Coordinate reference systems: parts that meet all conditions.

ghost use Rattle.std.specs.Prelude.{◌≡◌, ◌↔◌, Some, IfOk, IsOk, IsTrue};
ghost use Rattle.crs_part.specs.Slots.{name_of};
ghost use Rattle.crs_value.specs.Checking.{HasConditions, first_broken};

use crate::broken::Broken;
use crate::checking::first_broken;
use crs_part::{CrsParts, Same, Text, TryClone};
use std::alloc::{AllocError, Global};

/// A coordinate reference system: parts that meet all conditions.
pub struct Crs {
    parts: CrsParts,
    pub ghost conditions: { HasConditions parts },
}

// By hand: otherwise the prover goes through all variants of the parts wherever a reference system is dropped.
impl Drop for Crs {
    fn drop(self) {
        let Crs { parts } = self;
        drop(parts);
    }
}

impl Crs {
    ghost use Rattle.crs_value.specs.declared.broken.Broken.{Broken};
    ghost use Rattle.crs_value.specs.declared.crs.Crs.{Crs};

    /// The reference system of these parts, or the first condition that fails: of the components of a
    /// compound, then of the whole, and for each of these in the order of the conditions.
    pub fn check(parts: CrsParts) -> Result<Crs, Broken>
        ensures ok { IfOk result (λ crs. crs.parts ≡ parts) }
        ensures only { (crs : Crs) → crs.parts ≡ parts → result ≡ Ok crs }
        ensures holds { HasConditions parts → IsOk result }
        ensures broken { (b : Broken) → (result ≡ Err b) ↔ (first_broken parts ≡ Some b) }
    {
        match first_broken(&parts) {
            Some(broken) => {
                drop(parts);
                Err(broken)
            }
            None => Ok(Crs { parts }),
        }
    }

    /// The parts, which meet all conditions.
    pub fn parts(&self) -> &CrsParts
        ensures { result.now ≡ self.now.parts }
    {
        &self.parts
    }

    /// The name of the reference system; for a compound, that of the whole.
    pub fn name(&self) -> &Text
        ensures { result.now ≡ name_of self.now.parts }
    {
        self.parts.name()
    }

    /// A copy with its own memory.
    pub fn try_clone(&self, alloc: Global) -> Result<Crs, AllocError>
        ensures { IfOk result (λ copy. copy ≡ self.now) }
    {
        Ok(Crs {
            parts: self.parts.try_clone(alloc)?,
        })
    }
}

impl Same for Crs {
    fn same(&self, other: &Crs) -> bool {
        self.parts.same(&other.parts)
    }
}

impl PartialEq for Crs {
    ghost use Rattle.crs_part.specs.Equality.{equal, equal_is_partial_equivalence};
    ghost use Rattle.crs_value.specs.contracts.crs.Crs.{the_row};

    ghost eq = { equal the_row.coded };

    ghost laws = { equal_is_partial_equivalence the_row.coded };

    fn eq(&self, other: &Crs) -> bool
        ensures value { result ≡ equal the_row.coded self.now other.now }
        ensures exact { IsTrue result ↔ (self.now ≡ other.now) }
    {
        self.same(other)
    }
}

impl Eq for Crs {
    ghost use Rattle.crs_part.specs.Equality.{equal_is_equivalence};
    ghost use Rattle.crs_value.specs.contracts.crs.Crs.{the_row};

    ghost laws = { equal_is_equivalence the_row.coded };
}
