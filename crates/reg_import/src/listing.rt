//! The output of an import, which is made as its texts are taken.

ghost use Rattle.std.specs.Prelude.{◌≡◌, ◌++◌, ◌∷◌, [], ℕ, List, map, filter, not, ◌&&◌, IfOk, OnOk};
ghost use Rattle.std.specs.String.{string_bytes};
ghost use Rattle.reg_op.specs.Rows.{rows};
ghost use Rattle.csv.specs.Writing.{row_text, default_writer};
ghost use Rattle.reg_report.specs.Lines.{IsReady, WritesRow, AreLines};
ghost use Rattle.reg_report.specs.Seen.{row_seen};
ghost use Rattle.reg_import.specs.declared.listing.Listing.{Listing};
ghost use Rattle.reg_import.specs.declared.reading.FileText.{FileText};
ghost use Rattle.reg_import.specs.declared.reading.ReadText.{ReadText};
ghost use Rattle.reg_import.specs.declared.action.TextAction.{TextAction};
ghost use Rattle.reg_import.specs.Lines.{lines_of, is_known, is_shown, import_header, IsImportLine, IsEntryLine};
ghost use Rattle.reg_import.specs.Listing.{AreGoneOf, WritesLines, PacksLines, IsListing};
ghost use Rattle.reg_import.specs.Listed.{HasKeysOf, HasListed};

use crate::action::{TextAction, push_action};
use crate::gone::{gone, put_key};
use crate::indexed_key::IndexedKey;
use crate::lines::{write_header, write_line};
use crate::reading::{FileText, ReadText};
use byte_packed::PackedRows;
use csv::Writer;
use reg_report::{Row, printed, write_fields};
use reg_state::Register;
use std::alloc::{AllocError, Global};
use std::collections::BTreeSet;

/// So many texts have their lines made at once.
const CHUNK: usize = 64;

/// The options of the output: the names of the files; whether to leave out the texts that a valid entry has; and the
/// authority whose entries are listed if no text has their keys.
#[derive(Clone, Copy)]
pub struct Listing<'a> {
    pub names: &'a [String],
    pub changes: bool,
    pub gone: Option<&'a str>,
}

// Whether a text with this action has a line.
fn is_shown(listing: &Listing<'_>, told: &TextAction) -> bool
    ensures { result ≡ not (listing.now.changes && is_known told.now) }
{
    !(listing.changes && told.is_known())
}

// Writes the line of a text, unless it is left out.
fn write_where_shown(
    alloc: Global,
    wtr: &mut Writer<Vec<u8>>,
    listing: &Listing<'_>,
    text: &FileText,
    told: &TextAction,
) -> Result<(), AllocError>
    requires { IsReady wtr.old }
    ensures { OnOk result (WritesLines (IsImportLine (map string_bytes listing.now.names.now)) (filter (is_shown listing.now.changes) (record { text = text.now; told = told.now } ∷ [])) wtr.old wtr.new) }
{
    if !is_shown(listing, told) {
        return Ok(());
    }
    write_line(alloc, wtr, listing.names, text, told)
}

// Writes the lines of the texts.
fn write_texts(
    alloc: Global,
    wtr: &mut Writer<Vec<u8>>,
    listing: &Listing<'_>,
    texts: &[FileText],
    told: &[TextAction],
) -> Result<(), AllocError>
    requires { IsReady wtr.old }
    ensures { OnOk result (WritesLines (IsImportLine (map string_bytes listing.now.names.now)) (filter (is_shown listing.now.changes) (lines_of texts.now told.now)) wtr.old wtr.new) }
{
    let mut texts = texts;
    let mut told = told;
    while let (Some((text, others)), Some((this, later))) = (
        texts.split_first(),
        told.split_first(),
    ) {
        write_where_shown(alloc, wtr, listing, text, this)?;
        texts = others;
        told = later;
    }
    Ok(())
}

// Adds the key of a text, if entries are listed that no text has.
fn note_key(
    alloc: Global,
    listing: &Listing<'_>,
    keys: &mut BTreeSet<IndexedKey>,
    reading: &ReadText,
) -> Result<(), AllocError>
    ensures { (rs : List ReadText) → HasKeysOf listing.now.gone rs keys.old → OnOk result (HasKeysOf listing.now.gone (rs ++ reading.now ∷ []) keys.new) }
{
    match listing.gone {
        Some(_) => {
            put_key(alloc, keys, reading)?;
            Ok(())
        }
        None => Ok(()),
    }
}

// The rows of the entries that are listed.
fn gone_rows(
    alloc: Global,
    listing: &Listing<'_>,
    register: &Register,
    keys: &BTreeSet<IndexedKey>,
) -> Result<Vec<Row>, AllocError>
    ensures { (rs : List ReadText) → HasKeysOf listing.now.gone rs keys.now → IfOk result (λ made. AreGoneOf listing.now.gone rs (rows register.now.ops) (map row_seen made.items)) }
{
    match listing.gone {
        Some(authority) => {
            let rows = gone(alloc, register, authority.as_bytes(), keys)?;
            Ok(rows)
        }
        None => Ok(Vec::new(alloc)),
    }
}

// Some rows, each lent.
fn lent(alloc: Global, rows: &[Row]) -> Result<Vec<&Row>, AllocError>
    ensures { IfOk result (λ lent. map (λ r. row_seen r.now) lent.items ≡ map row_seen rows.now) }
{
    let mut lent = Vec::new(alloc);
    for row in rows {
        lent.push(row)?;
    }
    Ok(lent)
}

// Writes the line of an entry, with this action.
fn write_entry(
    alloc: Global,
    wtr: &mut Writer<Vec<u8>>,
    action: &[u8],
    row: &Row,
) -> Result<(), AllocError>
    requires { IsReady wtr.old }
    ensures { OnOk result ((fields : List (List ℕ)) × IsEntryLine action.now (row_seen row.now) fields × WritesRow wtr.old wtr.new fields) }
{
    let entry = printed(alloc, row.entry)?;
    let key = row.definition.key();
    let name = row.definition.name();
    write_fields(
        wtr,
        &[
            b"",
            b"",
            action,
            &entry,
            key.authority.as_bytes(),
            key.code.as_bytes(),
            name.as_bytes(),
            b"",
        ],
    )?;
    Ok(())
}

// Writes the lines of these entries.
fn write_entries(
    alloc: Global,
    wtr: &mut Writer<Vec<u8>>,
    action: &[u8],
    rows: &[&Row],
) -> Result<(), AllocError>
    requires { IsReady wtr.old }
    ensures { OnOk result (WritesLines (IsEntryLine action.now) (map (λ r. row_seen r.now) rows.now) wtr.old wtr.new) }
{
    for row in rows {
        write_entry(alloc, wtr, action, *row)?;
    }
    Ok(())
}

// The header.
fn header_text(alloc: Global) -> Result<Vec<u8>, AllocError>
    ensures { IfOk result (λ text. text.items ≡ row_text default_writer import_header) }
{
    let mut wtr = Writer::from_writer(Vec::new(alloc));
    write_header(&mut wtr)?;
    match wtr.into_inner() {
        Ok(text) => Ok(text),
        Err(_) => Err(AllocError),
    }
}

// The lines of the texts.
fn texts_text(
    alloc: Global,
    listing: &Listing<'_>,
    texts: &[FileText],
    told: &[TextAction],
) -> Result<Vec<u8>, AllocError>
    ensures { IfOk result (λ text. AreLines (IsImportLine (map string_bytes listing.now.names.now)) (filter (is_shown listing.now.changes) (lines_of texts.now told.now)) text.items) }
{
    let mut wtr = Writer::from_writer(Vec::new(alloc));
    write_texts(alloc, &mut wtr, listing, texts, told)?;
    match wtr.into_inner() {
        Ok(text) => Ok(text),
        Err(_) => Err(AllocError),
    }
}

// The lines of these entries.
fn entries_text(alloc: Global, action: &[u8], rows: &[&Row]) -> Result<Vec<u8>, AllocError>
    ensures { IfOk result (λ text. AreLines (IsEntryLine action.now) (map (λ r. row_seen r.now) rows.now) text.items) }
{
    let mut wtr = Writer::from_writer(Vec::new(alloc));
    write_entries(alloc, &mut wtr, action, rows)?;
    match wtr.into_inner() {
        Ok(text) => Ok(text),
        Err(_) => Err(AllocError),
    }
}

// These lines, and then those of the entries.
fn pack_entries(
    alloc: Global,
    action: &[u8],
    rows: &[&Row],
    lines: PackedRows,
) -> Result<PackedRows, AllocError>
    ensures { IfOk result (PacksLines (IsEntryLine action.now) (map (λ r. row_seen r.now) rows.now) lines) }
{
    let text = entries_text(alloc, action, rows)?;
    lines.with(&text)
}

// The header.
fn pack_header(alloc: Global) -> Result<PackedRows, AllocError>
    ensures { IfOk result (λ lines. lines ≡ row_text default_writer import_header) }
{
    let text = header_text(alloc)?;
    PackedRows::new(alloc).with(&text)
}

/// The lines of an import, as far as its texts are taken. The last of these wait until there are many, so that their lines are made at
/// once. What is packed is boxed, so that it is not moved with each text.
#[derive(Drop)]
pub struct ImportLines {
    packed: Box<PackedRows>,
    texts: Vec<FileText>,
    told: Vec<TextAction>,
    keys: BTreeSet<IndexedKey>,
}

// Boxes packed lines.
fn boxed(alloc: Global, rows: PackedRows) -> Result<Box<PackedRows>, AllocError>
    ensures { IfOk result (λ boxed. boxed.value ≡ rows) }
{
    match Box::new(alloc, rows) {
        Ok(boxed) => Ok(boxed),
        Err(_) => Err(AllocError),
    }
}

impl ImportLines {
    /// The header alone.
    pub fn new(alloc: Global) -> Result<ImportLines, AllocError>
        ensures { IfOk result (λ w. (l : Listing) → HasListed l [] [] w) }
    {
        let header = pack_header(alloc)?;
        let packed = boxed(alloc, header)?;
        let texts = Vec::new(alloc);
        let told = Vec::new(alloc);
        let keys = BTreeSet::new(alloc);
        Ok(ImportLines {
            packed,
            texts,
            told,
            keys,
        })
    }

    /// One more text, with its action.
    pub fn with(
        self,
        alloc: Global,
        listing: &Listing<'_>,
        text: FileText,
        told: &TextAction,
    ) -> Result<ImportLines, AllocError>
        ensures { IfOk result (λ w. (texts : List FileText) (ts : List TextAction) → HasListed listing.now texts ts self
            → HasListed listing.now (texts ++ text ∷ []) (ts ++ told.now ∷ []) w) }
    {
        let ImportLines {
            packed,
            mut texts,
            told: mut actions,
            mut keys,
        } = self;
        note_key(alloc, listing, &mut keys, &text.reading)?;
        texts.push(text)?;
        push_action(&mut actions, told)?;
        let lines = ImportLines {
            packed,
            texts,
            told: actions,
            keys,
        };
        let lines = lines.unless_full(alloc, listing)?;
        Ok(lines)
    }

    // The same. If so many texts wait, their lines are packed.
    fn unless_full(self, alloc: Global, listing: &Listing<'_>) -> Result<ImportLines, AllocError>
        ensures { IfOk result (λ w. (texts : List FileText) (ts : List TextAction) → HasListed listing.now texts ts self → HasListed listing.now texts ts w) }
    {
        if self.texts.len() < CHUNK {
            return Ok(self);
        }
        let lines = self.settled(alloc, listing)?;
        Ok(lines)
    }

    // The same, with no text that waits.
    fn settled(self, alloc: Global, listing: &Listing<'_>) -> Result<ImportLines, AllocError>
        ensures listed { IfOk result (λ w. (texts : List FileText) (ts : List TextAction) → HasListed listing.now texts ts self → HasListed listing.now texts ts w) }
        ensures texts { IfOk result (λ w. w.texts.items ≡ []) }
        ensures told { IfOk result (λ w. w.told.items ≡ []) }
    {
        let ImportLines {
            packed,
            texts,
            told,
            keys,
        } = self;
        let text = texts_text(alloc, listing, &texts, &told)?;
        let rows = Box::into_inner(packed).with(&text)?;
        let packed = boxed(alloc, rows)?;
        let texts = Vec::new(alloc);
        let told = Vec::new(alloc);
        Ok(ImportLines {
            packed,
            texts,
            told,
            keys,
        })
    }

    /// A header; a line for each text that is not left out; a line for each entry to which a supersession passed on; and a line for
    /// each listed entry, by id. The register is the one after the import.
    pub fn finish(
        self,
        alloc: Global,
        listing: &Listing<'_>,
        register: &Register,
        linked: &[&Row],
    ) -> Result<PackedRows, AllocError>
        ensures { IfOk result (λ rows. (texts : List FileText) (ts : List TextAction) → HasListed listing.now texts ts self
            → IsListing listing.now register.now.ops texts ts (map (λ r. row_seen r.now) linked.now) rows) }
    {
        let settled = self.settled(alloc, listing)?;
        let ImportLines {
            packed,
            texts: _,
            told: _,
            keys,
        } = settled;
        let rows = Box::into_inner(packed);
        let rows = pack_entries(alloc, b"linked", linked, rows)?;
        let gone = gone_rows(alloc, listing, register, &keys)?;
        let gone = lent(alloc, &gone)?;
        let rows = pack_entries(alloc, b"gone", &gone, rows)?;
        Ok(rows)
    }
}
