//! The conditions, and the system that breaks one.

ghost use Rattle.std.specs.Prelude.{◌≡◌};

use std::fmt;

/// The reference system that a condition is about: a component of a compound, or the whole.
#[derive(Clone, Copy, Debug, PartialEq, Eq)]
pub enum Whose {
    First,
    Second,
    Whole,
}

/// A condition that the parts of a reference system meet. `docs/FORMATS.md` has them in full.
#[derive(Clone, Copy, Debug, PartialEq, Eq)]
pub enum Condition {
    /// As many axes as the dimension.
    C1,
    /// The kind of reference system may have this coordinate system.
    C2,
    /// Where an axis has no unit, there is a common unit.
    C3,
    /// No axis has an order, or each axis has its own number.
    C4,
    /// The units fit the axes.
    C5,
    /// The components of a compound are a horizontal and a vertical system.
    C6,
    /// The ellipsoid has a size, and every conversion factor is above 0.
    C7,
    /// Only the directions north and south have a meridian.
    C8,
}

impl Condition {
    ghost use Rattle.crs_value.specs.Checking.{name_of};

    /// The word that a fault prints.
    pub fn name(self) -> &'static str
        ensures { result.now ≡ name_of self }
    {
        match self {
            Condition::C1 => "C1",
            Condition::C2 => "C2",
            Condition::C3 => "C3",
            Condition::C4 => "C4",
            Condition::C5 => "C5",
            Condition::C6 => "C6",
            Condition::C7 => "C7",
            Condition::C8 => "C8",
        }
    }
}

impl fmt::Display for Condition {
    fn fmt<W: fmt::Write>(&self, f: &mut fmt::Formatter<W>) -> fmt::Result {
        f.write_str(self.name())
    }
}

/// A condition that does not hold. It prints as the condition and the component.
#[derive(Clone, Copy, Debug, PartialEq, Eq)]
pub struct Broken {
    pub whose: Whose,
    pub condition: Condition,
}

impl fmt::Display for Broken {
    fn fmt<W: fmt::Write>(&self, f: &mut fmt::Formatter<W>) -> fmt::Result {
        let condition = self.condition.name();
        match self.whose {
            Whose::First => write!(f, "Broken {condition} of the first component"),
            Whose::Second => write!(f, "Broken {condition} of the second component"),
            Whose::Whole => write!(f, "Broken {condition}"),
        }
    }
}
