//! Queries of a search.

ghost use Rattle.std.specs.Prelude.{◌≡◌, ◌↔◌, IsTrue, IfSome, List, Some};
ghost use Rattle.std.specs.List.{list_any};
ghost use Rattle.crs_value.specs.Kinds.{kind_of};
ghost use Rattle.crs_value.specs.Parts.{IsAlike, HasPart};
ghost use Rattle.crs_value.specs.Usages.{IsInArea, HasPoint};
ghost use Rattle.reg_keys.specs.Words.{NamesKey};
ghost use Rattle.reg_op.specs.Rows.{Row};
ghost use Rattle.reg_report.specs.Conflicts.{bytes_of};
ghost use Rattle.reg_query.specs.Texts.{IsInTexts};
ghost use Rattle.reg_query.specs.Queries.{asks_value, is_colon, HasSome, IsBareCode, IsResolved, IsSought, IsTitled, IsWanted, MeetsOptions, MeetsTitle, MeetsValue};

use crate::find::text::is_in_texts;
use crs_part::CrsParts;
use crs_value::Key;
use crs_value::search::{Kind, Point, has_part, has_point, is_alike, is_in_area, is_of_kind};
use reg_keys::names_key;
use reg_op::Status;
use std::alloc::Global;

/// The statuses of a query.
#[derive(Clone, Copy, Debug, PartialEq, Eq)]
pub enum Wanted {
    Valid,
    Superseded,
    Retired,
    /// Valid or superseded.
    Live,
}

/// A query: an entry must meet all criteria that are given. Letters A to Z of authorities, names and areas match in either
/// case.
#[derive(Clone, Copy)]
pub struct Query<'a> {
    /// The key, if an entry has it; otherwise a part of the name, or the code.
    pub word: Option<&'a str>,
    /// The authority, a colon and the code.
    pub key: Option<&'a str>,
    pub authority: Option<&'a str>,
    pub code: Option<&'a str>,
    /// A part of the name.
    pub name: Option<&'a str>,
    /// A part of the text of an area of use.
    pub area: Option<&'a str>,
    /// A point in a bounding box.
    pub at: Option<Point>,
    pub kind: Option<Kind>,
    /// A part of the name of a datum, an ensemble, an ellipsoid or a method, or of the remark.
    pub text: Option<&'a str>,
    pub status: Option<Wanted>,
}

impl Query<'_> {
    /// Whether it asks for more than the key, the name and the status, so that the text of an entry must be read.
    pub(crate) fn asks_value(&self) -> bool
        ensures { result ≡ asks_value self.now }
    {
        self.area.is_some() || self.at.is_some() || self.kind.is_some() || self.text.is_some()
    }
}

/// Whether an entry with this key, name and status meets the criteria for these. `by_key` is whether an entry has the key
/// that the query's word names.
pub(crate) fn meets_title(
    alloc: Global,
    query: &Query<'_>,
    by_key: bool,
    key: &Key,
    name: &[u8],
    status: Status,
) -> bool
    ensures { (rs : List Row) → IsResolved rs query.now by_key
        → IsTrue result ↔ MeetsTitle rs query.now (bytes_of key.now) name.now (Some status) }
{
    if !is_sought(alloc, query.word, by_key, key, name) {
        return false;
    }
    meets_options(alloc, query, key, name, status)
}

fn meets_options(alloc: Global, query: &Query<'_>, key: &Key, name: &[u8], status: Status) -> bool
    ensures { IsTrue result ↔ MeetsOptions query.now (bytes_of key.now) name.now (Some status) }
{
    let authority = key.authority.as_bytes();
    let code = key.code.as_bytes();
    is_key(query.key, key)
        && is_authority(query.authority, authority)
        && is_code(query.code, code)
        && is_named(alloc, query.name, name)
        && is_wanted(query.status, status)
}

fn is_sought(alloc: Global, asked: Option<&str>, by_key: bool, key: &Key, name: &[u8]) -> bool
    ensures { (rs : List Row) → IfSome asked.entry (λ word. IsTrue by_key ↔ HasSome rs word.now)
        → IsTrue result ↔ IfSome asked.entry (λ word. IsSought rs word.now (bytes_of key.now) name.now) }
{
    match asked {
        Some(word) => is_sought_by(alloc, word.as_bytes(), by_key, key, name),
        None => true,
    }
}

fn is_sought_by(alloc: Global, word: &[u8], by_key: bool, key: &Key, name: &[u8]) -> bool
    ensures { (rs : List Row) → IsTrue by_key ↔ HasSome rs word.now
        → IsTrue result ↔ IsSought rs word.now (bytes_of key.now) name.now }
{
    if by_key {
        return names_key(word, key);
    }
    is_titled(alloc, word, key, name)
}

// Whether the word is a part of the name or, without a colon, the code.
fn is_titled(alloc: Global, word: &[u8], key: &Key, name: &[u8]) -> bool
    ensures { IsTrue result ↔ IsTitled word.now (bytes_of key.now) name.now }
{
    has_part(alloc, name, word) || is_bare_code(word, key.code.as_bytes())
}

fn is_bare_code(word: &[u8], code: &[u8]) -> bool
    ensures { IsTrue result ↔ IsBareCode word.now code.now }
{
    !has_colon(word) && word == code
}

fn has_colon(word: &[u8]) -> bool
    ensures { result ≡ list_any is_colon word.now }
{
    word.iter().any(|b| is_colon(*b))
}

fn is_colon(b: u8) -> bool
    ensures { result ≡ is_colon b }
{
    b == b':'
}

fn is_key(asked: Option<&str>, key: &Key) -> bool
    ensures { IsTrue result ↔ IfSome asked.entry (λ word. NamesKey word.now (bytes_of key.now)) }
{
    match asked {
        Some(word) => names_key(word.as_bytes(), key),
        None => true,
    }
}

fn is_authority(asked: Option<&str>, authority: &[u8]) -> bool
    ensures { IsTrue result ↔ IfSome asked.entry (λ one. IsAlike one.now authority.now) }
{
    match asked {
        Some(one) => is_alike(one.as_bytes(), authority),
        None => true,
    }
}

fn is_code(asked: Option<&str>, code: &[u8]) -> bool
    ensures { IsTrue result ↔ IfSome asked.entry (λ one. one.now ≡ code.now) }
{
    match asked {
        Some(one) => one.as_bytes() == code,
        None => true,
    }
}

fn is_named(alloc: Global, asked: Option<&str>, name: &[u8]) -> bool
    ensures { IsTrue result ↔ IfSome asked.entry (λ part. HasPart part.now name.now) }
{
    match asked {
        Some(part) => has_part(alloc, name, part.as_bytes()),
        None => true,
    }
}

fn is_wanted(asked: Option<Wanted>, status: Status) -> bool
    ensures { IsTrue result ↔ IfSome asked (λ wanted. IsWanted wanted (Some status)) }
{
    match asked {
        Some(wanted) => wants(wanted, status),
        None => true,
    }
}

fn wants(wanted: Wanted, status: Status) -> bool
    ensures { IsTrue result ↔ IsWanted wanted (Some status) }
{
    match wanted {
        Wanted::Valid => status == Status::Valid,
        Wanted::Superseded => status == Status::Superseded,
        Wanted::Retired => status == Status::Retired,
        Wanted::Live => status != Status::Retired,
    }
}

/// Whether a reference system meets the criteria for its areas, bounding boxes, kind and texts.
pub(crate) fn meets_value(alloc: Global, query: &Query<'_>, crs: &CrsParts) -> bool
    ensures { IsTrue result ↔ MeetsValue query.now crs.now }
{
    is_area(alloc, query.area, crs)
        && is_at(query.at, crs)
        && is_kind(query.kind, crs)
        && is_text(alloc, query.text, crs)
}

fn is_area(alloc: Global, asked: Option<&str>, crs: &CrsParts) -> bool
    ensures { IsTrue result ↔ IfSome asked.entry (λ part. IsInArea part.now crs.now) }
{
    match asked {
        Some(part) => is_in_area(alloc, crs, part.as_bytes()),
        None => true,
    }
}

fn is_at(asked: Option<Point>, crs: &CrsParts) -> bool
    ensures { IsTrue result ↔ IfSome asked (λ point. HasPoint point crs.now) }
{
    match asked {
        Some(point) => has_point(crs, &point),
        None => true,
    }
}

fn is_kind(asked: Option<Kind>, crs: &CrsParts) -> bool
    ensures { IsTrue result ↔ IfSome asked (λ kind. kind_of crs.now ≡ kind) }
{
    match asked {
        Some(kind) => is_of_kind(crs, kind),
        None => true,
    }
}

fn is_text(alloc: Global, asked: Option<&str>, crs: &CrsParts) -> bool
    ensures { IsTrue result ↔ IfSome asked.entry (λ part. IsInTexts part.now crs.now) }
{
    match asked {
        Some(part) => is_in_texts(alloc, crs, part.as_bytes()),
        None => true,
    }
}
