//! Rows that were looked at before.

ghost use Rattle.std.specs.Prelude.{◌≡◌, ℕ, List, false, map, IfOk, OnOk};
ghost use Rattle.csv.specs.Records.{fields_of};
ghost use Rattle.reg_lint.specs.Known.{mark_of, has_mark, PutsMark, HasMarks, IsKnownFrom};

use crate::marks::mark_of;
use csv::ByteRecord;
use csv_table::records::{fields, records};
use std::alloc::{AllocError, Global};
use std::collections::BTreeSet;

/// What the rows that were looked at before are known by.
#[derive(Drop)]
pub struct Known {
    marks: BTreeSet<Vec<u8>>,
}

impl Known {
    /// No rows.
    pub fn none(alloc: Global) -> Known
        ensures { (mark : List ℕ) → has_mark result mark ≡ false }
    {
        Known {
            marks: BTreeSet::new(alloc),
        }
    }

    /// Whether the row of this mark was looked at before.
    pub(crate) fn has(&self, mark: &Vec<u8>) -> bool
        ensures { result ≡ has_mark self.now mark.now.items }
    {
        self.marks.contains(mark)
    }

    fn put(&mut self, mark: Vec<u8>) -> Result<(), AllocError>
        ensures { OnOk result (PutsMark mark.items self.old self.new) }
    {
        self.marks.insert(mark)?;
        Ok(())
    }
}

/// The rows of a file of CSV.
pub fn known_rows(alloc: Global, bytes: &[u8]) -> Result<Known, AllocError>
    ensures { IfOk result (λ known. IsKnownFrom bytes.now (has_mark known)) }
{
    let Ok(records) = records(alloc, bytes) else {
        return Err(AllocError);
    };
    let known = known_of(alloc, &records)?;
    Ok(known)
}

fn known_of(alloc: Global, rows: &[ByteRecord]) -> Result<Known, AllocError>
    ensures { IfOk result (λ known. HasMarks known (map mark_of (map fields_of rows.now))) }
{
    let mut known = Known {
        marks: BTreeSet::new(alloc),
    };
    let mut rest = rows;
    while let Some((row, others)) = rest.split_first() {
        let mark = mark_in(alloc, row)?;
        known.put(mark)?;
        rest = others;
    }
    Ok(known)
}

fn mark_in(alloc: Global, row: &ByteRecord) -> Result<Vec<u8>, AllocError>
    ensures { IfOk result (λ text. text.items ≡ mark_of (fields_of row.now)) }
{
    let fields = fields(alloc, row)?;
    let mark = mark_of(alloc, &fields)?;
    Ok(mark)
}
