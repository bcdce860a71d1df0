//! What the names of parameters tell.

ghost use Rattle.std.specs.Prelude.{◌≡◌};
ghost use Rattle.crs_conversion.specs.Kinds.{is_latitude_name, is_longitude_name, is_turn_name, is_angle_name, is_length_name, is_scale_name};

use crs_exact::begins;

/// Whether the name of a parameter is that of an angle.
pub(crate) fn is_angle_name(name: &[u8]) -> bool
    ensures { result ≡ is_angle_name name.now }
{
    is_latitude_name(name) || is_longitude_name(name) || is_turn_name(name)
}

/// Whether the name of a parameter is that of a latitude.
pub(crate) fn is_latitude_name(name: &[u8]) -> bool
    ensures { result ≡ is_latitude_name name.now }
{
    begins(name, b"latitude")
        || begins(name, b"standard parallel")
        || begins(name, b"spherical latitude")
}

/// Whether the name of a parameter is that of a longitude.
pub(crate) fn is_longitude_name(name: &[u8]) -> bool
    ensures { result ≡ is_longitude_name name.now }
{
    begins(name, b"longitude")
        || begins(name, b"central meridian")
        || begins(name, b"initial longitude")
        || begins(name, b"spherical longitude")
}

/// Whether the name of a parameter is that of another angle.
pub(crate) fn is_turn_name(name: &[u8]) -> bool
    ensures { result ≡ is_turn_name name.now }
{
    begins(name, b"co-latitude")
        || begins(name, b"azimuth")
        || begins(name, b"angle from")
        || begins(name, b"xy plane rotation")
}

/// Whether the name of a parameter is that of a length.
pub(crate) fn is_length_name(name: &[u8]) -> bool
    ensures { result ≡ is_length_name name.now }
{
    begins(name, b"false easting")
        || begins(name, b"false northing")
        || begins(name, b"easting at")
        || begins(name, b"northing at")
        || begins(name, b"ellipsoidal height")
        || begins(name, b"geocentric")
}

/// Whether the name of a parameter is that of a scale factor.
pub(crate) fn is_scale_name(name: &[u8]) -> bool
    ensures { result ≡ is_scale_name name.now }
{
    begins(name, b"scale factor") || begins(name, b"ellipsoid scaling")
}
