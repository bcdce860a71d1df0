//! The file of the rows that were looked at before.

ghost use Rattle.std.specs.Prelude.{◌≡◌, true, map, IfOk, IfErr};
ghost use Rattle.csv.specs.Records.{fields_of, field_at};
ghost use Rattle.reg_engine.specs.WholeFile.{Gives};
ghost use Rattle.reg_lint.specs.EngineLooked.{is_word, is_header, begins_with_header, HasHeader, headless, IsUnlooked};

use byte_io::Source;
use csv::ByteRecord;
use csv_table::records::records;
use reg_engine::{CliFault, InputFault, read_whole};
use reg_file::FileFault;
use std::alloc::{AllocError, Global};

fn is_word(row: &ByteRecord, place: usize, word: &[u8]) -> bool
    ensures { result ≡ is_word word.now (field_at (fields_of row.now) place) }
{
    match row.get(place) {
        Some(field) => field == word,
        None => false,
    }
}

// Whether the row is the header of the rows. Other columns may follow.
fn is_header(row: &ByteRecord) -> bool
    ensures { result ≡ is_header (fields_of row.now) }
{
    is_word(row, 0, b"rule")
        && is_word(row, 1, b"entry")
        && is_word(row, 2, b"authority")
        && is_word(row, 3, b"code")
        && is_word(row, 4, b"name")
        && is_word(row, 5, b"detail")
}

fn begins_with_header(rows: &[ByteRecord]) -> bool
    ensures { result ≡ begins_with_header (map fields_of rows.now) }
{
    match rows.split_first() {
        Some((first, _)) => is_header(first),
        None => true,
    }
}

// Whether the file with these bytes has rows under their header, or none.
fn has_header(alloc: Global, bytes: &[u8]) -> Result<bool, AllocError>
    ensures { IfOk result (HasHeader bytes.now) }
{
    let Ok(rows) = records(alloc, bytes) else {
        return Err(AllocError);
    };
    Ok(begins_with_header(&rows))
}

/// The bytes of the file with this number, if it has rows under their header, or none.
pub fn read_looked<S: Source>(
    alloc: Global,
    number: usize,
    known: &mut S,
) -> Result<Vec<u8>, CliFault>
    ensures gives { IfOk result (λ bytes. Gives (S.state known.old) (S.state known.new) bytes.items) }
    ensures headed { IfOk result (λ bytes. HasHeader bytes.items true) }
    ensures fault { IfErr result (IsUnlooked number (S.state known.old) (S.state known.new)) }
{
    let bytes = match read_whole(alloc, number, known) {
        Ok(bytes) => bytes,
        Err(fault) => return Err(fault),
    };
    let is_headed = match has_header(alloc, &bytes) {
        Ok(is_headed) => is_headed,
        Err(_) => return Err(CliFault::Memory),
    };
    if !is_headed {
        return Err(headless(number));
    }
    Ok(bytes)
}

// The fault of a file without the header.
fn headless(number: usize) -> CliFault
    ensures { result ≡ headless number }
{
    CliFault::File {
        number,
        fault: InputFault::BadFile {
            fault: FileFault::Magic,
            place: 0,
        },
    }
}
