//! The coordinate systems of reference systems, and the components of compounds.

ghost use Rattle.std.specs.Prelude.{◌≡◌};
ghost use Rattle.crs_value.specs.Conditions.{may_have_system, may_be_first, may_be_second};

use crate::kinds::{
    is_cartesian_plane, is_ellipsoidal_plane, may_be_of, may_be_projected, may_be_vertical,
};
use crs_part::Single;

pub(crate) fn may_have_system(single: &Single) -> bool
    ensures { result ≡ may_have_system single.now }
{
    match single {
        Single::Geodetic(crs) => may_be_of(crs.kind, crs.system.kind, crs.system.dimension),
        Single::Projected(crs) => may_be_projected(crs.system.kind, crs.system.dimension),
        Single::Vertical(crs) => may_be_vertical(crs.system.kind, crs.system.dimension),
    }
}

pub(crate) fn may_be_first(single: &Single) -> bool
    ensures { result ≡ may_be_first single.now }
{
    match single {
        Single::Geodetic(crs) => is_ellipsoidal_plane(crs.system.kind, crs.system.dimension),
        Single::Projected(crs) => is_cartesian_plane(crs.system.kind, crs.system.dimension),
        Single::Vertical(_) => false,
    }
}

pub(crate) fn may_be_second(single: &Single) -> bool
    ensures { result ≡ may_be_second single.now }
{
    match single {
        Single::Vertical(_) => true,
        Single::Geodetic(_) | Single::Projected(_) => false,
    }
}
