//! Hints for common mistakes.

ghost use Rattle.std.specs.Prelude.{◌≡◌, drop};
ghost use Rattle.wkt_explain.specs.Hints.{after_hint, byte_hint, encoding_hint, hint_of, hint_text, kind_hint, more_hint, number_hint, order_hint, part_hint, place_hint, text_hint, word_at, word_hint};

use crate::fronts::{behind_blanks, front_hint, front_word, is_own_file};
use crate::marks::{is_comma_number, mark_hint};
use crate::words::{is_base, is_derived, is_extent, is_operation, is_other_system, is_wkt1};
use crs_part::same_word;
use wkt_crs::{DefinitionFault, SlotFault, TextFault, Unspelled};
use wkt_grammar::Keyword;

/// A hint: what a refused text probably is, or how to correct it.
#[derive(Clone, Copy, Debug, PartialEq, Eq)]
pub enum Hint {
    Empty,
    ByteOrderMark,
    Utf16,
    OwnFile,
    Packed,
    Latin,
    ProjJson,
    Gml,
    ProjString,
    Heading,
    Code,
    Urn,
    Row,
    Quotation,
    WideBlank,
    Mail,
    Comma,
    Wkt1,
    OtherSystem,
    Operation,
    Derived,
    TimeExtent,
    Triaxial,
    OutsideUsage,
    UnitFirst,
    Dynamic,
    TwoTexts,
    NoIdentifier,
}

impl Hint {
    /// The sentence.
    pub fn text(self) -> &'static str
        ensures { result.now ≡ hint_text self }
    {
        match self {
            Hint::Empty => "the text is empty",
            Hint::ByteOrderMark => "the text begins with a byte order mark: save it without one",
            Hint::Utf16 => "this is UTF-16: save the text as UTF-8",
            Hint::OwnFile =>
                "this is a file of crsreg, such as a register: crsreg texts prints the texts of one",
            Hint::Packed => "this file is packed: unpack it, as with gunzip or unzip",
            Hint::Latin => "this may be Latin-1 or Windows-1252: save the text as UTF-8",
            Hint::ProjJson =>
                "this is JSON, perhaps PROJJSON: projinfo @FILE -o WKT2:2019 -q prints its WKT",
            Hint::Gml =>
                "this is XML, perhaps GML: projinfo CODE -o WKT2:2019 -q prints the WKT of its identifier",
            Hint::ProjString =>
                "this is a string of PROJ: its WKT is wanted, as of projinfo -o WKT2:2019",
            Hint::Heading =>
                "the text begins with a heading of projinfo: call it with -o WKT2:2019 -q",
            Hint::Code =>
                "this is a code, not a text: projinfo CODE -o WKT2:2019 -q prints its WKT",
            Hint::Urn =>
                "this is a name of OGC, not a text: projinfo NAME -o WKT2:2019 -q prints its WKT",
            Hint::Row =>
                "this may be a row of a table: only the text is wanted, without the quotation marks around it and with \" for each \"\"",
            Hint::Quotation => "this is a typographic quotation mark: write \" in its place",
            Hint::WideBlank =>
                "this is a no-break space, or another character that looks like a blank: write a blank in its place",
            Hint::Mail => "the line begins with > as in a mail: leave that out",
            Hint::Comma => "this may be a decimal comma: write a point in its place, as in 298.257",
            Hint::Wkt1 => "this is WKT 1: WKT 2 is wanted, as of projinfo -o WKT2:2019",
            Hint::OtherSystem =>
                "this may be good WKT 2, but engineering, bound, temporal and parametric systems are not kept here",
            Hint::Operation =>
                "this may be good WKT 2, but operations and coordinate metadata are not kept here",
            Hint::Derived => "this may be good WKT 2, but derived systems are not kept here",
            Hint::TimeExtent => "a TIMEEXTENT is not kept here: leave it out",
            Hint::Triaxial => "an ellipsoid of three axes is not kept here: ELLIPSOID has two",
            Hint::OutsideUsage =>
                "here WKT of 2015 has it: WKT of 2019 puts SCOPE, AREA, BBOX and VERTICALEXTENT into a USAGE",
            Hint::UnitFirst =>
                "PRIMEM stands before the unit: the simplified form of PROJ has them the other way round",
            Hint::Dynamic => "systems of a dynamic datum are not read",
            Hint::TwoTexts => "one text is read here: import reads files of many",
            Hint::NoIdentifier =>
                "put an ID[\"AUTHORITY\",\"CODE\"] before the last delimiter; a REMARK comes after it",
        }
    }
}

// The word at the place.
fn word_at(text: &[u8], place: usize) -> &[u8]
    ensures { result.now ≡ word_at text.now place }
{
    let (_, rest) = text.split_at(place.min(text.len()));
    front_word(rest)
}

// The hint for a word that this node does not take.
fn word_hint(word: &[u8], node: &[u8]) -> Option<Hint>
    ensures { result ≡ word_hint word.now node.now }
{
    if is_wkt1(word) {
        return Some(Hint::Wkt1);
    }
    if same_word(b"DYNAMIC", word) {
        return Some(Hint::Dynamic);
    }
    part_hint(word, node)
}

// The hint for a part that is not kept, or that stands elsewhere.
fn part_hint(word: &[u8], node: &[u8]) -> Option<Hint>
    ensures { result ≡ part_hint word.now node.now }
{
    if same_word(b"TIMEEXTENT", word) {
        return Some(Hint::TimeExtent);
    }
    if same_word(b"TRIAXIAL", word) {
        return Some(Hint::Triaxial);
    }
    order_hint(word, node)
}

// The hint for a part that stands elsewhere.
fn order_hint(word: &[u8], node: &[u8]) -> Option<Hint>
    ensures { result ≡ order_hint word.now node.now }
{
    if is_extent(word) && !same_word(Keyword::Usage.spelling(), node) {
        return Some(Hint::OutsideUsage);
    }
    if same_word(Keyword::PrimeMeridian.spelling(), word) && is_base(node) {
        return Some(Hint::UnitFirst);
    }
    kind_hint(word, node)
}

// The hint for a word of WKT 2 that is not read at all, or not in this node.
fn kind_hint(word: &[u8], node: &[u8]) -> Option<Hint>
    ensures { result ≡ kind_hint word.now node.now }
{
    if is_other_system(word) {
        return Some(Hint::OtherSystem);
    }
    if is_operation(word) {
        return Some(Hint::Operation);
    }
    if is_derived(word) || (is_base(word) && !same_word(Keyword::ProjectedCrs.spelling(), node)) {
        return Some(Hint::Derived);
    }
    None
}

// The hint for what does not fit at a place of this node.
fn place_hint(text: &[u8], node: &[u8], place: usize) -> Option<Hint>
    ensures { result ≡ place_hint text.now node.now place }
{
    let word = word_at(text, place);
    if is_comma_number(word, text, place) {
        return Some(Hint::Comma);
    }
    word_hint(word, node)
}

// The hint for bytes that are not UTF-8.
fn encoding_hint(text: &[u8]) -> Hint
    ensures { result ≡ encoding_hint text.now }
{
    if text.starts_with(b"\xff\xfe") || text.starts_with(b"\xfe\xff") {
        return Hint::Utf16;
    }
    if is_own_file(text) {
        return Hint::OwnFile;
    }
    if text.starts_with(b"\x1f\x8b") || text.starts_with(b"PK\x03\x04") {
        return Hint::Packed;
    }
    Hint::Latin
}

fn text_hint(text: &[u8], node: &[u8], fault: TextFault) -> Option<Hint>
    ensures { result ≡ text_hint text.now node.now fault }
{
    match fault {
        TextFault::NotUtf8(_) => Some(encoding_hint(text)),
        TextFault::After(place) => {
            after_hint(front_word(behind_blanks(text)), word_at(text, place))
        }
        TextFault::BadByte(place) => byte_hint(text, place),
        TextFault::BadNumber(_) => number_hint(text, node),
        _ => front_hint(text),
    }
}

fn behind(text: &[u8], place: usize) -> &[u8]
    ensures { result.now ≡ drop place text.now }
{
    let (_, rest) = text.split_at(place.min(text.len()));
    rest
}

// The hint for a character that no token begins with: for the front of the text, or for the character.
fn byte_hint(text: &[u8], place: usize) -> Option<Hint>
    ensures { result ≡ byte_hint text.now place }
{
    match front_hint(text) {
        Some(hint) => Some(hint),
        None => mark_hint(behind(text, place)),
    }
}

// The hint for a number in this node that is none, such as a date.
fn number_hint(text: &[u8], node: &[u8]) -> Option<Hint>
    ensures { result ≡ number_hint text.now node.now }
{
    if same_word(b"TIMEEXTENT", node) {
        return Some(Hint::TimeExtent);
    }
    front_hint(text)
}

// The hint for the word after a complete text.
fn more_hint(word: &[u8]) -> Option<Hint>
    ensures { result ≡ more_hint word.now }
{
    if word.is_empty() {
        return None;
    }
    Some(Hint::TwoTexts)
}

// The hint for a complete text that begins with this word, before this other word.
fn after_hint(first: &[u8], word: &[u8]) -> Option<Hint>
    ensures { result ≡ after_hint first.now word.now }
{
    if is_wkt1(first) {
        return Some(Hint::Wkt1);
    }
    more_hint(word)
}

/// The hint for the fault of a text, if there is one; `node` is the keyword of the enclosing node.
pub(crate) fn hint_of(text: &[u8], node: &[u8], fault: DefinitionFault) -> Option<Hint>
    ensures { result ≡ hint_of text.now node.now fault }
{
    match fault {
        DefinitionFault::Read(Unspelled::Text(fault)) => text_hint(text, node, fault),
        DefinitionFault::Read(Unspelled::Slot(SlotFault::NotHere(place))) => {
            place_hint(text, node, place)
        }
        DefinitionFault::NoIdentifier => Some(Hint::NoIdentifier),
        _ => None,
    }
}
