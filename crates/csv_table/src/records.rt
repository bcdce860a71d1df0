//! The records of rows, and the fields of a record.

ghost use Rattle.std.specs.Prelude.{◌≡◌, [], map, IfOk};
ghost use Rattle.csv.specs.Reading.{AreRecords, default_config, strip_bom};
ghost use Rattle.csv.specs.Records.{fields_of};
ghost use Rattle.csv.specs.declared.parser.State.TheVariants as st;
ghost use Rattle.csv_table.specs.Records.{HasRead};

use csv::{ByteRecord, ByteRecordsIntoIter, Error, ReaderBuilder};
use std::alloc::{AllocError, Global};

/// The records of the rows, one after another. They are read from memory, so an error is out of memory.
pub fn each_record(alloc: Global, text: &[u8]) -> ByteRecordsIntoIter<&[u8]>
    ensures { HasRead text.now [] result }
{
    ReaderBuilder::new()
        .has_headers(false)
        .flexible(true)
        .from_reader(alloc, text)
        .into_byte_records()
}

/// All records of the rows.
pub fn records(alloc: Global, text: &[u8]) -> Result<Vec<ByteRecord>, Error>
    ensures { IfOk result (λ rows. AreRecords default_config st.StartRecord (strip_bom text.now) (map fields_of rows.items)) }
{
    let mut rows = Vec::new(alloc);
    for row in each_record(alloc, text) {
        if rows.push(row?).is_err() {
            return Err(Error::out_of_memory());
        }
    }
    Ok(rows)
}

/// The fields of the record.
pub fn fields(alloc: Global, row: &ByteRecord) -> Result<Vec<&[u8]>, AllocError>
    ensures { IfOk result (λ made. map (λ field. field.now) made.items ≡ fields_of row.now) }
{
    let mut made = Vec::new(alloc);
    for field in row {
        made.push(field)?;
    }
    Ok(made)
}
