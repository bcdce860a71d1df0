//! Rows as SQL for PROJ.

ghost use Rattle.std.specs.Prelude.{◌≡◌, ◌++◌, [], ℕ, List, map, IfOk, OnOk, IfErr};
ghost use Rattle.byte_io.specs.Whole.{WritesAll};
ghost use Rattle.reg_op.specs.Text.{printed};
ghost use Rattle.reg_report.specs.Seen.{row_seen};
ghost use Rattle.crs_export.specs.declared.filed.Filed.{Filed as OneFiled};
ghost use Rattle.crs_export.specs.Held.{Holds};
ghost use Rattle.crs_export.specs.Sql.{text_at, lines};
ghost use Rattle.reg_export.specs.Titles.{Each};
ghost use Rattle.reg_export.specs.ProjSql.{passes_over, IsTaken, IsFiled, FilesAs, IsSql, BeginsWith, BeginsSql};
ghost use Rattle.reg_export.specs.Kept.{row_at};
ghost use Rattle.reg_export.specs.Written.{IsSoFar, IsCutShort, IsUnwritten};

use crate::title::title_of;
use crate::waiting::{finish, pass_enough};
use byte_io::Sink;
use crs_export::markup::{SQL_END, SQL_START};
use crs_export::{
    EntryText, Filed, HeldText, RowPlace, Table, number_of, push_entry, rows_of, table_of,
};
use crs_part::same_word;
use reg_engine::CliFault;
use reg_report::{Row, printed};
use std::alloc::{AllocError, Global};
use std::collections::BTreeMap;

// What PROJ's tables take of a reference system.
#[derive(Drop)]
struct TakenRows {
    table: Option<Table>,
    rows: Vec<u8>,
}

// What they take of a row's reference system. The printed id is given.
fn taken_of(alloc: Global, row: &Row, entry: &[u8]) -> Result<TakenRows, AllocError>
    requires { entry.now ≡ printed row.now.entry }
    ensures { IfOk result (λ taken. IsTaken (row_seen row.now) taken.table taken.rows.items) }
{
    let title = title_of(row, entry);
    let crs = row.definition.crs(alloc)?;
    let rows = rows_of(alloc, &title, crs.parts())?;
    let table = table_of(crs.parts());
    Ok(TakenRows { table, rows })
}

fn filed_of<'a>(alloc: Global, row: &'a Row) -> Result<Filed<'a>, AllocError>
    ensures { IfOk result (IsFiled (row_seen row.now)) }
{
    let entry = printed(alloc, row.entry)?;
    let taken = taken_of(alloc, row, &entry)?;
    let TakenRows { table, rows } = taken;
    let key = row.definition.key();
    let name = row.definition.name();
    let code = key.code.as_bytes();
    Ok(Filed {
        entry,
        name: name.as_bytes(),
        table,
        rows,
        keyed: EntryText {
            authority: key.authority.as_bytes(),
            code,
            text: row.definition.as_bytes(),
            number: number_of(code),
        },
    })
}

// Whether an entry of this authority is passed over.
fn passes_over(all: bool, authority: &[u8]) -> bool
    ensures { result ≡ passes_over all authority.now }
{
    !all && same_word(authority, b"EPSG")
}

// Appends the statements of a row after others, whose texts are held in their places.
fn push_row<'a>(
    alloc: Global,
    held: &mut BTreeMap<RowPlace<'a>, HeldText<'a>>,
    text: &mut Vec<u8>,
    row: &'a Row,
    all: bool,
) -> Result<(), AllocError>
    ensures { (before : List OneFiled) → Holds held.old (λ p. text_at p before)
        → OnOk result ((fs : List OneFiled) × FilesAs all (row_seen row.now) fs × Holds held.new (λ p. text_at p (before ++ fs)) × (text.new.items ≡ text.old.items ++ lines before fs)) }
{
    let key = row.definition.key();
    if passes_over(all, key.authority.as_bytes()) {
        return Ok(());
    }
    let filed = filed_of(alloc, row)?;
    push_entry(held, text, &filed)?;
    Ok(())
}

// Makes the statements of the rows, and writes those that wait when they are enough. The answer is how many bytes were written so far.
fn write_rows<'a, K: Sink>(
    alloc: Global,
    waiting: &mut Vec<u8>,
    rows: &[&'a Row],
    all: bool,
    sink: &mut K,
) -> Result<usize, CliFault>
    ensures passed { IfOk result (λ total. (fs : List OneFiled) × Each (FilesAs all) (map row_at rows.now) fs
        × IsSoFar (K.state sink.old) (waiting.old.items ++ lines [] fs) (K.state sink.new) waiting.new.items total) }
    ensures fault { IfErr result (IsCutShort (BeginsWith waiting.old.items all) (map row_at rows.now) (K.state sink.old) (K.state sink.new)) }
{
    let mut held = BTreeMap::new(alloc);
    let mut written = 0usize;
    for row in rows {
        if let Err(_) = push_row(alloc, &mut held, waiting, *row, all) {
            return Err(CliFault::Memory);
        }
        written = match pass_enough(waiting, written, sink) {
            Ok(total) => total,
            Err(fault) => return Err(fault),
        };
    }
    Ok(written)
}

/// Writes the statements that put these rows into PROJ's tables; those of EPSG only if all are asked for. They are made and written in
/// turn; if memory runs out after the first byte, the output stops.
pub fn write_proj_sql<'a, K: Sink>(
    alloc: Global,
    rows: &[&'a Row],
    all: bool,
    sink: &mut K,
) -> Result<(), CliFault>
    ensures written { OnOk result ((text : List ℕ) × IsSql all (map row_at rows.now) text × WritesAll text (K.state sink.old) (K.state sink.new)) }
    ensures fault { IfErr result (IsUnwritten (BeginsSql all) (IsSql all (map row_at rows.now)) (map row_at rows.now) (K.state sink.old) (K.state sink.new)) }
{
    let mut waiting = match SQL_START.to_vec(alloc) {
        Ok(waiting) => waiting,
        Err(_) => return Err(CliFault::Memory),
    };
    let written = match write_rows(alloc, &mut waiting, rows, all, sink) {
        Ok(written) => written,
        Err(fault) => return Err(fault),
    };
    match finish(&mut waiting, SQL_END, written, sink) {
        Ok(()) => Ok(()),
        Err(fault) => Err(fault),
    }
}
