//! Words by which a hint is found.

ghost use Rattle.std.specs.Prelude.{◌≡◌};
ghost use Rattle.wkt_explain.specs.Hints.{is_base, is_derived, is_extent, is_operation, is_other_system, is_wkt1};

use crs_part::same_word;
use wkt_grammar::Keyword;

/// A keyword of WKT 1.
pub fn is_wkt1(word: &[u8]) -> bool
    ensures { result ≡ is_wkt1 word.now }
{
    same_word(b"PROJCS", word)
        || same_word(b"GEOGCS", word)
        || same_word(b"GEOCCS", word)
        || same_word(b"VERT_CS", word)
        || same_word(b"VERTCS", word)
        || same_word(b"COMPD_CS", word)
        || same_word(b"LOCAL_CS", word)
        || same_word(b"FITTED_CS", word)
}

/// A part of a usage.
pub fn is_extent(word: &[u8]) -> bool
    ensures { result ≡ is_extent word.now }
{
    same_word(Keyword::Scope.spelling(), word)
        || same_word(Keyword::Area.spelling(), word)
        || same_word(Keyword::BoundingBox.spelling(), word)
        || same_word(Keyword::VerticalExtent.spelling(), word)
}

/// The base of a projected system.
pub fn is_base(word: &[u8]) -> bool
    ensures { result ≡ is_base word.now }
{
    same_word(Keyword::BaseGeographicCrs.spelling(), word)
        || same_word(Keyword::BaseGeodeticCrs.spelling(), word)
}

/// A kind of system of WKT 2 that is not kept.
pub fn is_other_system(word: &[u8]) -> bool
    ensures { result ≡ is_other_system word.now }
{
    same_word(b"ENGCRS", word)
        || same_word(b"ENGINEERINGCRS", word)
        || same_word(b"BOUNDCRS", word)
        || same_word(b"TIMECRS", word)
        || same_word(b"PARAMETRICCRS", word)
        || same_word(b"IMAGECRS", word)
}

/// An operation or a set of coordinates of WKT 2, which is not kept.
pub fn is_operation(word: &[u8]) -> bool
    ensures { result ≡ is_operation word.now }
{
    same_word(b"COORDINATEOPERATION", word)
        || same_word(b"CONCATENATEDOPERATION", word)
        || same_word(b"POINTMOTIONOPERATION", word)
        || same_word(b"COORDINATEMETADATA", word)
}

/// A derived system of WKT 2, or a part that only derived systems have.
pub fn is_derived(word: &[u8]) -> bool
    ensures { result ≡ is_derived word.now }
{
    same_word(b"DERIVEDPROJCRS", word)
        || same_word(b"DERIVINGCONVERSION", word)
        || same_word(b"BASEPROJCRS", word)
        || same_word(b"BASEVERTCRS", word)
        || same_word(b"BASEENGCRS", word)
}
