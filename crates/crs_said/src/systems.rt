//! What systems say, without their names.

ghost use Rattle.std.specs.Prelude.{◌≡◌, ◌++◌, OnOk};
ghost use Rattle.crs_said.specs.Content.{meridian_said, axis_said, coord_system_said, kind_word, base_crs_said, geodetic_said, projected_said, vertical_said, single_word, slots_said, single_said, compound_said};

use crate::fields::{push_count, push_field};
use crate::says::Says;
use crs_part::{
    Axis, BaseCrs, Compound, CoordSystem, Geodetic, GeodeticKind, Meridian, Projected, Single,
    Vertical, Word,
};
use std::alloc::AllocError;

impl Says for Meridian {
    ghost said = { meridian_said };

    fn say(&self, exact: bool, out: &mut Vec<u8>) -> Result<(), AllocError> {
        self.longitude.say(exact, out)?;
        self.unit.say(exact, out)
    }
}

impl Says for Axis {
    ghost said = { axis_said };

    fn say(&self, exact: bool, out: &mut Vec<u8>) -> Result<(), AllocError> {
        push_field(out, self.direction.word())?;
        self.meridian.say(exact, out)?;
        self.unit.say(exact, out)
    }
}

impl Says for CoordSystem {
    ghost said = { coord_system_said };

    fn say(&self, _exact: bool, out: &mut Vec<u8>) -> Result<(), AllocError> {
        push_field(out, self.kind.word())?;
        push_count(out, self.dimension)
    }
}

fn kind_word(kind: GeodeticKind) -> &'static [u8]
    ensures { result.now ≡ kind_word kind }
{
    match kind {
        GeodeticKind::Geodetic => b"geodetic",
        GeodeticKind::Geographic => b"geographic",
    }
}

impl Says for BaseCrs {
    ghost said = { base_crs_said };

    fn say(&self, exact: bool, out: &mut Vec<u8>) -> Result<(), AllocError> {
        push_field(out, kind_word(self.kind))?;
        self.datum.say(exact, out)?;
        self.prime_meridian.say(exact, out)?;
        self.unit.say(exact, out)
    }
}

impl Says for Geodetic {
    ghost said = { geodetic_said };

    fn say(&self, exact: bool, out: &mut Vec<u8>) -> Result<(), AllocError> {
        self.datum.say(exact, out)?;
        self.prime_meridian.say(exact, out)?;
        self.system.say(exact, out)?;
        self.axes.say(exact, out)?;
        self.unit.say(exact, out)
    }
}

impl Says for Projected {
    ghost said = { projected_said };

    fn say(&self, exact: bool, out: &mut Vec<u8>) -> Result<(), AllocError> {
        self.base.say(exact, out)?;
        self.conversion.say(exact, out)?;
        self.system.say(exact, out)?;
        self.axes.say(exact, out)?;
        self.unit.say(exact, out)
    }
}

impl Says for Vertical {
    ghost said = { vertical_said };

    fn say(&self, exact: bool, out: &mut Vec<u8>) -> Result<(), AllocError> {
        self.datum.say(exact, out)?;
        self.system.say(exact, out)?;
        self.axes.say(exact, out)?;
        self.unit.say(exact, out)?;
        self.geoid_models.say(exact, out)
    }
}

/// The kind of a system.
pub(crate) fn single_word(crs: &Single) -> &'static [u8]
    ensures { result.now ≡ single_word crs.now }
{
    match crs {
        Single::Geodetic(crs) => kind_word(crs.kind),
        Single::Projected(_) => b"projected",
        Single::Vertical(_) => b"vertical",
    }
}

fn say_slots(exact: bool, crs: &Single, out: &mut Vec<u8>) -> Result<(), AllocError>
    ensures { OnOk result (out.new.items ≡ out.old.items ++ slots_said exact crs.now) }
{
    match crs {
        Single::Geodetic(crs) => crs.say(exact, out),
        Single::Projected(crs) => crs.say(exact, out),
        Single::Vertical(crs) => crs.say(exact, out),
    }
}

impl Says for Single {
    ghost said = { single_said };

    fn say(&self, exact: bool, out: &mut Vec<u8>) -> Result<(), AllocError> {
        push_field(out, single_word(self))?;
        say_slots(exact, self, out)
    }
}

impl Says for Compound {
    ghost said = { compound_said };

    fn say(&self, exact: bool, out: &mut Vec<u8>) -> Result<(), AllocError> {
        push_field(out, b"compound")?;
        self.first.say(exact, out)?;
        self.second.say(exact, out)
    }
}
