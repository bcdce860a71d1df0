//! The files of the rows that are handed on.

ghost use Rattle.std.specs.Prelude.{◌≡◌, map, IfOk, IfErr};
ghost use Rattle.std.specs.List.{AllZip};
ghost use Rattle.byte_folder.specs.Folder.{seen};
ghost use Rattle.reg_export.specs.KeyFiles.{keyed};
ghost use Rattle.reg_report.specs.Seen.{row_seen};
ghost use Rattle.reg_export.specs.Stopped.{IsNoText};
ghost use Rattle.reg_export.specs.Kept.{row_at};
ghost use Rattle.reg_export.specs.IntoFiles.{IsKeyedOf, entries, first_long, long_in, fit, AreFilesOfTexts, AreFilesOfRows, AreHanded};

use crate::chosen::uncontested;
use crate::files::{Keyed, each_file, fitting, in_order, is_long};
use crate::keep::pass;
use byte_folder::NamedFile;
use reg_engine::CliFault;
use reg_op::OpId;
use reg_report::Row;
use std::alloc::{AllocError, Global};

/// What was left out of a folder.
#[derive(Clone, Copy, Debug, PartialEq, Eq)]
pub struct LeftOutOfFolder {
    /// The least entry of the least key with two texts, if there are such keys.
    pub taken: Option<OpId>,
    /// The least of the other entries whose files would have names that are too long.
    pub long: Option<OpId>,
}

/// What is handed on of some rows.
#[derive(Drop)]
pub struct Handed {
    /// A file for each key, in the order of their names.
    pub files: Vec<NamedFile>,
    pub left: LeftOutOfFolder,
}

// The files of rows, and the first entry that has none because of its name.
#[derive(Drop)]
struct RowFiles {
    files: Vec<NamedFile>,
    long: Option<OpId>,
}

// A row's text, and its key.
fn keyed_of(row: &Row) -> Keyed<'_>
    ensures { IsKeyedOf (row_seen row.now) (keyed result) }
{
    let key = row.definition.key();
    Keyed {
        authority: key.authority.as_bytes(),
        code: key.code.as_bytes(),
        text: row.definition.as_bytes(),
    }
}

// The same of each row.
fn keyed_rows<'a>(alloc: Global, rows: &[&'a Row]) -> Result<Vec<Keyed<'a>>, AllocError>
    ensures { IfOk result (λ made. AllZip IsKeyedOf (map row_at rows.now) (map keyed made.items)) }
{
    let mut made = Vec::new(alloc);
    for row in rows {
        made.push(keyed_of(row))?;
    }
    Ok(made)
}

// The entry of each row.
fn entries_of(alloc: Global, rows: &[&Row]) -> Result<Vec<OpId>, AllocError>
    ensures { IfOk result (λ made. made.items ≡ entries (map row_at rows.now)) }
{
    let mut made = Vec::new(alloc);
    for row in rows {
        made.push(row.entry)?;
    }
    Ok(made)
}

// The first entry whose file has a name that is too long.
fn first_long(entries: &[OpId], files: &[NamedFile]) -> Option<OpId>
    ensures { result ≡ first_long entries.now (map seen files.now) }
{
    let mut left = entries;
    let mut made = files;
    while let Some((entry, later)) = left.split_first() {
        let Some((file, others)) = made.split_first() else {
            return None;
        };
        if is_long(file) {
            return Some(*entry);
        }
        left = later;
        made = others;
    }
    None
}

fn long_in(keep_going: bool, entries: &[OpId], files: &[NamedFile]) -> Option<OpId>
    ensures { result ≡ long_in keep_going entries.now (map seen files.now) }
{
    if keep_going {
        return first_long(entries, files);
    }
    None
}

fn fit(keep_going: bool, files: Vec<NamedFile>) -> Vec<NamedFile>
    ensures { map seen result.items ≡ fit keep_going (map seen files.items) }
{
    if keep_going {
        return fitting(files);
    }
    files
}

// The files of the texts of rows, by the order of their names. Those with names that are too long may be left out.
fn files_of_texts(
    alloc: Global,
    rows: &[&Row],
    texts: &[Keyed<'_>],
    keep_going: bool,
) -> Result<RowFiles, AllocError>
    ensures { IfOk result (λ made. AreFilesOfTexts keep_going (map row_at rows.now) (map keyed texts.now) made.long (map seen made.files.items)) }
{
    let entries = entries_of(alloc, rows)?;
    let each = each_file(alloc, texts)?;
    let long = long_in(keep_going, &entries, &each);
    let files = fit(keep_going, in_order(each));
    Ok(RowFiles { files, long })
}

// The same, of the rows' texts with their keys.
fn files_of_rows(alloc: Global, rows: &[&Row], keep_going: bool) -> Result<RowFiles, AllocError>
    ensures { IfOk result (λ made. AreFilesOfRows keep_going (map row_at rows.now) made.long (map seen made.files.items)) }
{
    let texts = keyed_rows(alloc, rows)?;
    let made = files_of_texts(alloc, rows, &texts, keep_going)?;
    Ok(made)
}

/// The files of the rows whose keys have one text. If there are other keys, it is refused, unless they may be left out; then those
/// whose files would have names that are too long are left out too.
pub fn files_of_found(alloc: Global, found: &[Row], keep_going: bool) -> Result<Handed, CliFault>
    ensures ok { IfOk result (λ made. AreHanded keep_going (map row_seen found.now) made.left (map seen made.files.items)) }
    ensures fault { IfErr result (IsNoText keep_going (map row_seen found.now)) }
{
    let chosen = match uncontested(alloc, found) {
        Ok(chosen) => chosen,
        Err(_) => return Err(CliFault::Memory),
    };
    if let Err(fault) = pass(keep_going, chosen.taken) {
        return Err(fault);
    }
    match files_of_rows(alloc, &chosen.rows, keep_going) {
        Ok(made) => {
            let left = LeftOutOfFolder {
                taken: chosen.taken,
                long: made.long,
            };
            Ok(Handed {
                files: made.files,
                left,
            })
        }
        Err(_) => Err(CliFault::Memory),
    }
}
