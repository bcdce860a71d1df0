//! The keywords: their spellings, and the meaning of a spelling.

ghost use Rattle.std.specs.Prelude.{◌≡◌, ◌<◌, length, map, Some, IfSome, IsTrue};
ghost use Rattle.std.specs.List.{zip};
ghost use Rattle.std.specs.Map.{lookup};
ghost use Rattle.crs_part.specs.Words.{same_word};
ghost use Rattle.wkt_grammar.specs.Words.{is_cs_kind, is_direction, keyword_of, spelling};

use crate::table::Keyword;
use crs_part::{Direction, SystemKind, Word, first_of, same_word};

impl Word for Keyword {
    ghost spelled = { spelling };

    #[inline(always)]
    fn word(self) -> &'static [u8] {
        self.spelling()
    }
}

impl Keyword {
    /// The spelling that canonical texts have.
    #[inline(always)]
    pub fn spelling(self) -> &'static [u8]
        ensures { result.now ≡ spelling self }
    {
        match self {
            Keyword::GeodeticCrs => b"GEODCRS",
            Keyword::GeographicCrs => b"GEOGCRS",
            Keyword::ProjectedCrs => b"PROJCRS",
            Keyword::VerticalCrs => b"VERTCRS",
            Keyword::CompoundCrs => b"COMPOUNDCRS",
            Keyword::BaseGeodeticCrs => b"BASEGEODCRS",
            Keyword::BaseGeographicCrs => b"BASEGEOGCRS",
            Keyword::Datum => b"DATUM",
            Keyword::VerticalDatum => b"VDATUM",
            Keyword::Ensemble => b"ENSEMBLE",
            Keyword::Member => b"MEMBER",
            Keyword::Method => b"METHOD",
            Keyword::GeoidModel => b"GEOIDMODEL",
            Keyword::EnsembleAccuracy => b"ENSEMBLEACCURACY",
            Keyword::Ellipsoid => b"ELLIPSOID",
            Keyword::PrimeMeridian => b"PRIMEM",
            Keyword::Conversion => b"CONVERSION",
            Keyword::Parameter => b"PARAMETER",
            Keyword::LengthUnit => b"LENGTHUNIT",
            Keyword::AngleUnit => b"ANGLEUNIT",
            Keyword::ScaleUnit => b"SCALEUNIT",
            Keyword::Unit => b"UNIT",
            Keyword::CoordinateSystem => b"CS",
            Keyword::Axis => b"AXIS",
            Keyword::Meridian => b"MERIDIAN",
            Keyword::Order => b"ORDER",
            Keyword::Usage => b"USAGE",
            Keyword::BoundingBox => b"BBOX",
            Keyword::VerticalExtent => b"VERTICALEXTENT",
            Keyword::Scope => b"SCOPE",
            Keyword::Area => b"AREA",
            Keyword::Anchor => b"ANCHOR",
            Keyword::Citation => b"CITATION",
            Keyword::Uri => b"URI",
            Keyword::Remark => b"REMARK",
            Keyword::Identifier => b"ID",
        }
    }
}

static KEYWORDS: [Keyword; 36] = [
    Keyword::GeodeticCrs,
    Keyword::GeographicCrs,
    Keyword::ProjectedCrs,
    Keyword::VerticalCrs,
    Keyword::CompoundCrs,
    Keyword::BaseGeodeticCrs,
    Keyword::BaseGeographicCrs,
    Keyword::Datum,
    Keyword::VerticalDatum,
    Keyword::Ensemble,
    Keyword::Member,
    Keyword::Method,
    Keyword::GeoidModel,
    Keyword::EnsembleAccuracy,
    Keyword::Ellipsoid,
    Keyword::PrimeMeridian,
    Keyword::Conversion,
    Keyword::Parameter,
    Keyword::LengthUnit,
    Keyword::AngleUnit,
    Keyword::ScaleUnit,
    Keyword::Unit,
    Keyword::CoordinateSystem,
    Keyword::Axis,
    Keyword::Meridian,
    Keyword::Order,
    Keyword::Usage,
    Keyword::BoundingBox,
    Keyword::VerticalExtent,
    Keyword::Scope,
    Keyword::Area,
    Keyword::Anchor,
    Keyword::Citation,
    Keyword::Uri,
    Keyword::Remark,
    Keyword::Identifier,
];

/// The other spellings, each with its meaning.
macro_rules! alternates {
    ($part:ident) => {
        alternates!(
            $part,
            b"GEODETICCRS" GeodeticCrs,
            b"GEOGRAPHICCRS" GeographicCrs,
            b"PROJECTEDCRS" ProjectedCrs,
            b"VERTICALCRS" VerticalCrs,
            b"TRF" Datum,
            b"GEODETICDATUM" Datum,
            b"VRF" VerticalDatum,
            b"VERTICALDATUM" VerticalDatum,
            b"PROJECTION" Method,
            b"SPHEROID" Ellipsoid,
            b"PRIMEMERIDIAN" PrimeMeridian,
        )
    };
    (spelling, $($spelling:literal $keyword:ident,)*) => {
        [$($spelling),*]
    };
    (meaning, $($spelling:literal $keyword:ident,)*) => {
        [$(Keyword::$keyword),*]
    };
}

static ALTERNATES: [&[u8]; 11] = alternates!(spelling);

static MEANINGS: [Keyword; 11] = alternates!(meaning);

/// A keyword for each sum of `mixed`: the keyword whose spelling has this sum, the most frequent one of several, and
/// `Identifier` if no spelling has it. A wrong entry only costs time.
static LIKELY: [Keyword; 64] = [
    Keyword::CoordinateSystem,
    Keyword::Identifier,
    Keyword::Ensemble,
    Keyword::Ellipsoid,
    Keyword::GeoidModel,
    Keyword::Datum,
    Keyword::VerticalDatum,
    Keyword::ScaleUnit,
    Keyword::Identifier,
    Keyword::Identifier,
    Keyword::Unit,
    Keyword::AngleUnit,
    Keyword::Identifier,
    Keyword::Identifier,
    Keyword::Identifier,
    Keyword::ProjectedCrs,
    Keyword::BoundingBox,
    Keyword::GeographicCrs,
    Keyword::Identifier,
    Keyword::Usage,
    Keyword::Conversion,
    Keyword::Parameter,
    Keyword::Meridian,
    Keyword::Identifier,
    Keyword::Identifier,
    Keyword::Uri,
    Keyword::Identifier,
    Keyword::Identifier,
    Keyword::Member,
    Keyword::Identifier,
    Keyword::Identifier,
    Keyword::BaseGeographicCrs,
    Keyword::Identifier,
    Keyword::Identifier,
    Keyword::Identifier,
    Keyword::VerticalCrs,
    Keyword::Method,
    Keyword::Identifier,
    Keyword::Area,
    Keyword::Identifier,
    Keyword::Identifier,
    Keyword::Identifier,
    Keyword::LengthUnit,
    Keyword::Identifier,
    Keyword::Identifier,
    Keyword::CompoundCrs,
    Keyword::Axis,
    Keyword::Identifier,
    Keyword::Identifier,
    Keyword::Identifier,
    Keyword::PrimeMeridian,
    Keyword::Order,
    Keyword::Anchor,
    Keyword::Identifier,
    Keyword::Identifier,
    Keyword::Scope,
    Keyword::Identifier,
    Keyword::Identifier,
    Keyword::EnsembleAccuracy,
    Keyword::Identifier,
    Keyword::Identifier,
    Keyword::Identifier,
    Keyword::Identifier,
    Keyword::Identifier,
];

/// A sum of the first byte, the last and the length, by which the spellings of the frequent keywords differ.
#[inline(always)]
fn mixed(first: u8, last: u8, length: usize) -> usize
    ensures { result < 64 }
{
    (usize::from(first) * 14 + usize::from(last) * 4 + length % 64 * 5) % 64
}

#[inline(always)]
fn is_spelled(spelling: &[u8], bytes: &[u8]) -> bool
    ensures { IsTrue result → spelling.now ≡ bytes.now }
{
    spelling == bytes
}

/// The keyword, if it is a frequent one in capitals. The word is compared with only one spelling.
#[inline(always)]
fn likely(bytes: &[u8]) -> Option<Keyword>
    ensures { IfSome result (λ keyword. spelling keyword ≡ bytes.now) }
{
    let (Some(first), Some(last)) = (bytes.first(), bytes.last()) else {
        return None;
    };
    let keyword = LIKELY[mixed(*first, *last, bytes.len())];
    if is_spelled(keyword.spelling(), bytes) {
        return Some(keyword);
    }
    None
}

/// The meaning of the first spelling that equals the word, in any letter case.
fn look(words: &[&[u8]], meanings: &[Keyword], bytes: &[u8]) -> Option<Keyword>
    requires { length words.now ≡ length meanings.now }
    ensures { result ≡ lookup (λ w. same_word w bytes.now) (zip (map (λ w. w.now) words.now) meanings.now) }
{
    let mut i = 0;
    while i < words.len() {
        if same_word(words[i], bytes) {
            return Some(meanings[i]);
        }
        i += 1;
    }
    None
}

/// The meaning of the keyword, in any letter case.
pub fn keyword_of(bytes: &[u8]) -> Option<Keyword>
    ensures { result ≡ keyword_of bytes.now }
{
    if let Some(keyword) = likely(bytes) {
        return Some(keyword);
    }
    if let Some(keyword) = first_of(&KEYWORDS, bytes) {
        return Some(keyword);
    }
    look(&ALTERNATES, &MEANINGS, bytes)
}

/// Whether the word is a kind of coordinate system, in any letter case.
#[tactic(auto, unfolding(crate::specs::Words::is_cs_kind))]
pub fn is_cs_kind(bytes: &[u8]) -> bool
    ensures { result ≡ is_cs_kind bytes.now }
{
    SystemKind::of_word(bytes).is_some()
}

/// Whether the word is a direction of an axis, in any letter case.
#[tactic(auto, unfolding(crate::specs::Words::is_direction))]
pub fn is_direction(bytes: &[u8]) -> bool
    ensures { result ≡ is_direction bytes.now }
{
    Direction::of_word(bytes).is_some()
}
