//! The rows that a command prints, or with `--table` the table of them.
use crate::naming::names_again;
use byte_io::Writing;
use clap::ArgMatches;
use csv_table::offices::{Name, with_names};
use csv_table::{TableFault, told_as_table};
use reg_engine::{CliFault, OutFault};
use std::alloc::{AllocError, Global};
use std::io::{self, ErrorKind, Write};

/// Where a command writes its rows: standard output, or memory until the table of them is printed.
#[derive(Drop)]
pub struct Rows<W> {
    out: W,
    kept: Option<Kept>,
    is_short: bool,
}

// Rows that are kept until their table is printed, with the names of offices in it.
#[derive(Drop)]
struct Kept {
    rows: Vec<u8>,
    names: Vec<Name>,
}

// How the rows of `offices` begin, whose table shows the UUID behind each name.
const OF_OFFICES: &[u8] = b"replica,greatest,";

impl Kept {
    // The rows with names.
    fn named(self, alloc: Global) -> Result<Vec<u8>, AllocError> {
        let Kept { rows, names } = self;
        if names.is_empty() {
            return Ok(rows);
        }
        with_names(alloc, rows.starts_with(OF_OFFICES), &names, &rows)
    }
}

/// Whether rows are printed as a table. The lines of `find --ids` are not rows.
pub fn is_table(matches: &ArgMatches<'_>) -> bool {
    matches.get_flag("table") && !matches.get_flag("ids")
}

impl<W: Write> Rows<W> {
    /// The rows of a command that prints to this writer. If its names of offices cannot be read again, the table has none.
    pub fn sink(rt: &HostRuntime, matches: &ArgMatches<'_>, out: W) -> Writing<Rows<W>> {
        let mut rows = Rows {
            out,
            kept: None,
            is_short: false,
        };
        if is_table(matches) {
            rows.keep(rt, matches);
        }
        Writing::new(rows)
    }

    // Keeps the rows for a table.
    fn keep(&mut self, rt: &HostRuntime, matches: &ArgMatches<'_>) {
        let names = match names_again(rt, matches) {
            Ok(names) => names,
            Err(_) => {
                self.is_short = true;
                Vec::new(rt.alloc())
            }
        };
        self.kept = Some(Kept {
            rows: Vec::new(rt.alloc()),
            names,
        });
    }
}

impl<W: Write> Write for Rows<W> {
    fn write(&mut self, bytes: &[u8]) -> io::Result<usize> {
        let Some(kept) = &mut self.kept else {
            return self.out.write(bytes);
        };
        if kept.rows.extend_from_slice(bytes).is_err() {
            self.is_short = true;
            return Err(io::Error::from(ErrorKind::OutOfMemory));
        }
        Ok(bytes.len())
    }

    fn flush(&mut self) -> io::Result<()> {
        self.out.flush()
    }
}

/// The answer of a command that wrote these rows. With `--table` it prints the table of them first, also if the command failed with rows.
pub fn answered<W: Write + Drop, A: Drop>(
    alloc: Global,
    sink: Writing<Rows<W>>,
    answer: A,
) -> Result<A, CliFault> {
    let Rows {
        out,
        kept,
        is_short,
    } = sink.into_inner();
    if is_short {
        return Err(CliFault::Memory);
    }
    let Some(kept) = kept else {
        return Ok(answer);
    };
    let Ok(rows) = kept.named(alloc) else {
        return Err(CliFault::Memory);
    };
    match told_as_table(alloc, &rows, answer, &mut Writing::new(out)) {
        Ok(answer) => Ok(answer),
        Err(TableFault::WriteFailed(written)) => Err(CliFault::Out(OutFault::WriteFailed(written))),
        Err(TableFault::Memory) => Err(CliFault::Memory),
    }
}
