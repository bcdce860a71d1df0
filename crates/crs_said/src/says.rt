//! What parts say.

ghost use Rattle.std.specs.Prelude.{◌≡◌, ◌++◌, Bool, List, ℕ, OnOk};
ghost use Rattle.std.specs.List.{flat_map};
ghost use Rattle.crs_part.specs.Slots.{items_of};
ghost use Rattle.crs_said.specs.Fields.{ended, number_field, maybe_field, each_field, after_plus};
ghost use Rattle.crs_said.specs.Content.{named_said, unit_definition_said, length_unit_said, angle_unit_said, unit_said, ellipsoid_said, prime_meridian_said, datum_said, geodetic_ensemble_said, geodetic_frame_said, vertical_datum_said, vertical_ensemble_said, vertical_frame_said, parameter_said, conversion_said};

use crate::fields::{push_end, push_field, push_label, push_name};
use crs_exact::{angle_of, length_of, unit_of};
use crs_number::Decimal;
use crs_part::{
    AngleUnit, Conversion, Datum, Ellipsoid, GeodeticEnsemble, GeodeticFrame, LengthUnit, Many,
    Named, NonEmpty, Parameter, PrimeMeridian, Unit, UnitDefinition, VerticalDatum,
    VerticalEnsemble, VerticalFrame,
};
use std::alloc::AllocError;

/// A part that says something.
pub(crate) trait Says {
    ghost said: { Bool → Self → List ℕ };

    /// Appends what it says: with names as they are spelled, or folded and without those of units and conversions.
    fn say(&self, exact: bool, out: &mut Vec<u8>) -> Result<(), AllocError>
        ensures { OnOk result (out.new.items ≡ out.old.items ++ said exact self.now) };
}

impl Says for Decimal {
    ghost said = { λ exact. number_field };

    fn say(&self, _exact: bool, out: &mut Vec<u8>) -> Result<(), AllocError> {
        self.write_to(out)?;
        push_end(out)
    }
}

impl<T: Says> Says for Option<T> {
    ghost said = { λ exact. maybe_field (T.said exact) };

    fn say(&self, exact: bool, out: &mut Vec<u8>) -> Result<(), AllocError> {
        match self {
            Some(part) => say_next(exact, part, out),
            None => push_end(out),
        }
    }
}

// A plus, and what the part says.
fn say_next<T: Says>(exact: bool, part: &T, out: &mut Vec<u8>) -> Result<(), AllocError>
    ensures { OnOk result (out.new.items ≡ out.old.items ++ after_plus (T.said exact) part.now) }
{
    out.push(b'+')?;
    part.say(exact, out)
}

fn say_all<T: Says>(exact: bool, parts: &[T], out: &mut Vec<u8>) -> Result<(), AllocError>
    ensures { OnOk result (out.new.items ≡ out.old.items ++ flat_map (after_plus (T.said exact)) parts.now) }
{
    for part in parts {
        say_next(exact, part, out)?;
    }
    Ok(())
}

impl<T: Says> Says for Many<T> {
    ghost said = { λ exact. each_field (T.said exact) };

    fn say(&self, exact: bool, out: &mut Vec<u8>) -> Result<(), AllocError> {
        say_all(exact, self.as_slice(), out)?;
        push_end(out)
    }
}

impl<T: Says> Says for NonEmpty<T> {
    ghost said = { λ exact some. each_field (T.said exact) (items_of some) };

    fn say(&self, exact: bool, out: &mut Vec<u8>) -> Result<(), AllocError> {
        say_next(exact, &self.first, out)?;
        self.others.say(exact, out)
    }
}

impl Says for Named {
    ghost said = { named_said };

    fn say(&self, exact: bool, out: &mut Vec<u8>) -> Result<(), AllocError> {
        push_name(exact, &self.name, out)
    }
}

impl Says for UnitDefinition {
    ghost said = { unit_definition_said };

    fn say(&self, exact: bool, out: &mut Vec<u8>) -> Result<(), AllocError> {
        push_label(exact, &self.name, out)?;
        self.factor.say(exact, out)
    }
}

impl Says for LengthUnit {
    ghost said = { length_unit_said };

    fn say(&self, exact: bool, out: &mut Vec<u8>) -> Result<(), AllocError> {
        length_of(self).say(exact, out)
    }
}

impl Says for AngleUnit {
    ghost said = { angle_unit_said };

    fn say(&self, exact: bool, out: &mut Vec<u8>) -> Result<(), AllocError> {
        angle_of(self).say(exact, out)
    }
}

impl Says for Unit {
    ghost said = { unit_said };

    fn say(&self, exact: bool, out: &mut Vec<u8>) -> Result<(), AllocError> {
        unit_of(self).say(exact, out)
    }
}

impl Says for Ellipsoid {
    ghost said = { ellipsoid_said };

    fn say(&self, exact: bool, out: &mut Vec<u8>) -> Result<(), AllocError> {
        push_name(exact, &self.name, out)?;
        self.radius.say(exact, out)?;
        self.flattening.say(exact, out)?;
        self.unit.say(exact, out)
    }
}

impl Says for PrimeMeridian {
    ghost said = { prime_meridian_said };

    fn say(&self, exact: bool, out: &mut Vec<u8>) -> Result<(), AllocError> {
        push_name(exact, &self.name, out)?;
        self.longitude.say(exact, out)?;
        self.unit.say(exact, out)
    }
}

impl Says for Datum {
    ghost said = { datum_said };

    fn say(&self, exact: bool, out: &mut Vec<u8>) -> Result<(), AllocError> {
        push_name(exact, &self.name, out)?;
        self.ellipsoid.say(exact, out)
    }
}

impl Says for GeodeticEnsemble {
    ghost said = { geodetic_ensemble_said };

    fn say(&self, exact: bool, out: &mut Vec<u8>) -> Result<(), AllocError> {
        push_name(exact, &self.name, out)?;
        self.members.say(exact, out)?;
        self.ellipsoid.say(exact, out)?;
        self.accuracy.say(exact, out)
    }
}

impl Says for GeodeticFrame {
    ghost said = { geodetic_frame_said };

    fn say(&self, exact: bool, out: &mut Vec<u8>) -> Result<(), AllocError> {
        match self {
            GeodeticFrame::Datum(part) => say_kind(exact, b"DATUM", part, out),
            GeodeticFrame::Ensemble(part) => say_kind(exact, b"ENSEMBLE", part, out),
        }
    }
}

/// Appends the kind of a part, and what it says.
pub(crate) fn say_kind<T: Says>(
    exact: bool,
    kind: &[u8],
    part: &T,
    out: &mut Vec<u8>,
) -> Result<(), AllocError>
    ensures { OnOk result (out.new.items ≡ out.old.items ++ (ended kind.now ++ T.said exact part.now)) }
{
    push_field(out, kind)?;
    part.say(exact, out)
}

impl Says for VerticalDatum {
    ghost said = { vertical_datum_said };

    fn say(&self, exact: bool, out: &mut Vec<u8>) -> Result<(), AllocError> {
        push_name(exact, &self.name, out)
    }
}

impl Says for VerticalEnsemble {
    ghost said = { vertical_ensemble_said };

    fn say(&self, exact: bool, out: &mut Vec<u8>) -> Result<(), AllocError> {
        push_name(exact, &self.name, out)?;
        self.members.say(exact, out)?;
        self.accuracy.say(exact, out)
    }
}

impl Says for VerticalFrame {
    ghost said = { vertical_frame_said };

    fn say(&self, exact: bool, out: &mut Vec<u8>) -> Result<(), AllocError> {
        match self {
            VerticalFrame::Datum(part) => say_kind(exact, b"VDATUM", part, out),
            VerticalFrame::Ensemble(part) => say_kind(exact, b"ENSEMBLE", part, out),
        }
    }
}

impl Says for Parameter {
    ghost said = { parameter_said };

    fn say(&self, exact: bool, out: &mut Vec<u8>) -> Result<(), AllocError> {
        push_name(exact, &self.name, out)?;
        self.value.say(exact, out)?;
        self.unit.say(exact, out)
    }
}

impl Says for Conversion {
    ghost said = { conversion_said };

    fn say(&self, exact: bool, out: &mut Vec<u8>) -> Result<(), AllocError> {
        push_label(exact, &self.name, out)?;
        self.method.say(exact, out)?;
        self.parameters.say(exact, out)
    }
}
