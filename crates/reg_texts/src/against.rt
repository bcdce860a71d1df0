//! What differs between the texts of a file and the entries of their keys.

ghost use Rattle.std.specs.Prelude.{◌≡◌, ◌≢◌, ◌++◌, List, ℕ, map, IfOk, IfErr, OnOk};
ghost use Rattle.wkt_crs.specs.Definition.{IsTextFault};
ghost use Rattle.wkt_crs.specs.declared.definition.DefinitionFault.TheVariants.{Memory as NoMemory};
ghost use Rattle.wkt_compare.specs.Texts.{piece_of};
ghost use Rattle.reg_op.specs.Rows.{Row as OneRow};
ghost use Rattle.reg_report.specs.Seen.{row_seen};
ghost use Rattle.reg_keys.specs.Index.{IsIndex};
ghost use Rattle.reg_texts.specs.Gathered.{Each};
ghost use Rattle.reg_texts.specs.Compare.{seen_rows};
ghost use Rattle.reg_texts.specs.Given.{IsPairWith, IsGivenAgainst, Defines, IsTextAgainst, IsTextOrNone, IsTold, IsFileAgainst, IsFileAgainstWhereRead, IsFirstLeft, IsUnread, IsFirstUnread, IsFileUnread, earlier};

use crate::choice::{OfText, chosen};
use crate::given::{given, new_text};
use crate::version::{Version, is_none, push_pair, version_of};
use reg_keys::{KeyIndex, index_of_register, rows_of_key};
use reg_report::Row;
use reg_state::Register;
use std::alloc::{AllocError, Global};
use wkt_compare::splitting::{Cut, texts};
use wkt_crs::{Definition, DefinitionFault};

/// Why the texts of a file are not compared.
#[derive(Clone, Copy, Debug, PartialEq, Eq)]
pub enum UnreadTexts {
    /// A text is not a definition, for this reason.
    Refused {
        fault: DefinitionFault,
        /// The offset in the file of the fault, or of the text's first byte if the fault has no place.
        at: usize,
        /// The offset in the file of the text's first byte.
        place: usize,
        /// The length of the text in bytes.
        len: usize,
    },
    Memory,
}

/// What differs between each text of a file and the entries of its key that are not retired: unified diffs from the text of the
/// entry to the given one, text by text and then by id. If no such entry has the key, all lines of the text are added. `name` is
/// the file's name in the header lines.
pub fn compared_texts(
    alloc: Global,
    register: &Register,
    name: &[u8],
    file: &[u8],
) -> Result<Vec<u8>, UnreadTexts>
    ensures ok { IfOk result (λ text. IsFileAgainst name.now file.now register.now text.items) }
    ensures fault { IfErr result (IsFileUnread file.now) }
{
    let Ok(index) = index_of_register(alloc, register) else {
        return Err(UnreadTexts::Memory);
    };
    let Ok(cuts) = texts(alloc, file) else {
        return Err(UnreadTexts::Memory);
    };
    match all_against(alloc, &index, name, &cuts) {
        Ok(text) => Ok(text),
        Err(why) => Err(why),
    }
}

/// What differs where texts that are not definitions are passed over, and why the first of them is none.
#[derive(Drop)]
pub struct WhereRead {
    pub text: Vec<u8>,
    pub first: Option<UnreadTexts>,
}

/// The same, where texts that are not definitions are passed over.
pub fn compared_where_read(
    alloc: Global,
    register: &Register,
    name: &[u8],
    file: &[u8],
) -> Result<WhereRead, AllocError>
    ensures { IfOk result (λ made. IsFileAgainstWhereRead name.now file.now register.now made.text.items made.first) }
{
    let index = index_of_register(alloc, register)?;
    let cuts = texts(alloc, file)?;
    let made = against_where_read(alloc, &index, name, &cuts)?;
    Ok(made)
}

fn against_where_read(
    alloc: Global,
    index: &KeyIndex,
    name: &[u8],
    cuts: &[Cut<'_>],
) -> Result<WhereRead, AllocError>
    requires { (rs : List OneRow) × IsIndex index.now rs }
    ensures text { (rs : List OneRow) → IsIndex index.now rs → IfOk result (λ made. Each (IsTextOrNone name.now rs) (map piece_of cuts.now) made.text.items) }
    ensures first { IfOk result (λ made. IsFirstLeft (map piece_of cuts.now) made.first) }
{
    let mut text = Vec::new(alloc);
    let mut first = None;
    for cut in cuts {
        let left = push_where_read(alloc, &mut text, index, name, cut)?;
        first = earlier(first, left);
    }
    Ok(WhereRead { text, first })
}

// The first of two reasons, if there is one.
fn earlier(first: Option<UnreadTexts>, next: Option<UnreadTexts>) -> Option<UnreadTexts>
    ensures { result ≡ earlier first next }
{
    match first {
        Some(why) => Some(why),
        None => next,
    }
}

// Appends what differs, or returns why the text is not a definition.
fn push_where_read(
    alloc: Global,
    text: &mut Vec<u8>,
    index: &KeyIndex,
    name: &[u8],
    cut: &Cut<'_>,
) -> Result<Option<UnreadTexts>, AllocError>
    ensures { (rs : List OneRow) → IsIndex index.now rs → IfOk result (λ left. (mine : List ℕ) × IsTold name.now rs (piece_of cut.now) mine left × (text.new.items ≡ text.old.items ++ mine)) }
{
    let mine = match text_against(alloc, index, name, cut) {
        Ok(mine) => mine,
        Err(UnreadTexts::Memory) => return Err(AllocError),
        Err(why) => return Ok(Some(why)),
    };
    text.extend_from_slice(&mine)?;
    Ok(None)
}

// The same of these texts.
fn all_against(
    alloc: Global,
    index: &KeyIndex,
    name: &[u8],
    cuts: &[Cut<'_>],
) -> Result<Vec<u8>, UnreadTexts>
    requires { (rs : List OneRow) × IsIndex index.now rs }
    ensures ok { (rs : List OneRow) → IsIndex index.now rs → IfOk result (λ text. Each (IsTextAgainst name.now rs) (map piece_of cuts.now) text.items) }
    ensures fault { IfErr result (IsFirstUnread (map piece_of cuts.now)) }
{
    let mut text = Vec::new(alloc);
    for cut in cuts {
        push_text(alloc, &mut text, index, name, cut)?;
    }
    Ok(text)
}

fn push_text(
    alloc: Global,
    text: &mut Vec<u8>,
    index: &KeyIndex,
    name: &[u8],
    cut: &Cut<'_>,
) -> Result<(), UnreadTexts>
    ensures ok { (rs : List OneRow) → IsIndex index.now rs → OnOk result ((mine : List ℕ) × IsTextAgainst name.now rs (piece_of cut.now) mine × (text.new.items ≡ text.old.items ++ mine)) }
    ensures fault { IfErr result (IsUnread (piece_of cut.now)) }
{
    let mine = match text_against(alloc, index, name, cut) {
        Ok(mine) => mine,
        Err(why) => return Err(why),
    };
    match text.extend_from_slice(&mine) {
        Ok(()) => Ok(()),
        Err(_) => Err(UnreadTexts::Memory),
    }
}

fn text_against(
    alloc: Global,
    index: &KeyIndex,
    name: &[u8],
    cut: &Cut<'_>,
) -> Result<Vec<u8>, UnreadTexts>
    ensures ok { (rs : List OneRow) → IsIndex index.now rs → IfOk result (λ mine. IsTextAgainst name.now rs (piece_of cut.now) mine.items) }
    ensures fault { IfErr result (IsUnread (piece_of cut.now)) }
{
    let definition = match definition_at(alloc, cut) {
        Ok(definition) => definition,
        Err(why) => return Err(why),
    };
    match given_against(alloc, index, name, cut.place, &definition) {
        Ok(text) => Ok(text),
        Err(_) => Err(UnreadTexts::Memory),
    }
}

fn definition_at(alloc: Global, cut: &Cut<'_>) -> Result<Definition, UnreadTexts>
    ensures ok { IfOk result (Defines cut.now.bytes.now) }
    ensures fault { IfErr result (IsUnread (piece_of cut.now)) }
{
    match Definition::from_text(alloc, cut.bytes) {
        Ok(definition) => Ok(definition),
        Err(DefinitionFault::Memory) => Err(UnreadTexts::Memory),
        Err(fault) => Err(refused(cut, fault)),
    }
}

// Why the text is refused.
fn refused(cut: &Cut<'_>, fault: DefinitionFault) -> UnreadTexts
    ensures { IsTextFault cut.now.bytes.now fault → fault ≢ NoMemory → IsUnread (piece_of cut.now) result }
{
    // Places are smaller, since files are in memory.
    let Some(at) = cut.place.checked_add(fault.place().unwrap_or(0)) else {
        return UnreadTexts::Memory;
    };
    UnreadTexts::Refused {
        fault,
        at,
        place: cut.place,
        len: cut.bytes.len(),
    }
}

fn given_against(
    alloc: Global,
    index: &KeyIndex,
    name: &[u8],
    place: usize,
    definition: &Definition,
) -> Result<Vec<u8>, AllocError>
    ensures { (rs : List OneRow) → IsIndex index.now rs → IfOk result (λ text. IsGivenAgainst name.now place definition.now rs text.items) }
{
    let given = given(alloc, name, place, definition)?;
    let rows = rows_of_key(alloc, index, definition.key())?;
    let found = chosen(alloc, rows, &OfText { definition })?;
    if is_none(&found) {
        let text = new_text(alloc, definition, &given)?;
        return Ok(text);
    }
    let pairs = each_against(alloc, &found, &given)?;
    Ok(pairs)
}

// What differs between the text of each entry and the given one, one after another.
fn each_against(alloc: Global, rows: &[&Row], given: &Version) -> Result<Vec<u8>, AllocError>
    ensures { IfOk result (λ text. Each (IsPairWith given.now) (seen_rows rows.now) text.items) }
{
    let mut text = Vec::new(alloc);
    for row in rows {
        push_against(alloc, &mut text, row, given)?;
    }
    Ok(text)
}

fn push_against(
    alloc: Global,
    text: &mut Vec<u8>,
    row: &Row,
    given: &Version,
) -> Result<(), AllocError>
    ensures { OnOk result ((pair : List ℕ) × IsPairWith given.now (row_seen row.now) pair × (text.new.items ≡ text.old.items ++ pair)) }
{
    let entry = version_of(alloc, row)?;
    push_pair(alloc, text, &entry, given)?;
    Ok(())
}
