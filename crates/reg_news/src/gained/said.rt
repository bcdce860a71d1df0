//! What a register gained that no row shows, in words.

use crate::gained::hidden::Hidden;
use crate::gained::revived::Revived;
use crate::gained::risen::Risen;
use crate::said::write_cut;
use reg_report::{Row, key_of};
use std::{fmt, str};

// The offices, and the entries, that are named; of more, only the number is printed.
const NAMED: usize = 3;

impl fmt::Display for Risen {
    fn fmt<W: fmt::Write>(&self, f: &mut fmt::Formatter<W>) -> fmt::Result {
        let (office, rise, came) = (self.office, self.rise, self.came);
        write!(
            f,
            "the greatest number of {office} rose by {rise}; operations of it that came: {came}"
        )
    }
}

/// A line for each kind of thing that was gained, and nothing if there is none.
impl fmt::Display for Hidden {
    fn fmt<W: fmt::Write>(&self, f: &mut fmt::Formatter<W>) -> fmt::Result {
        write_retired(f, self.retired)?;
        write_awaited(f, self.awaited_before, self.awaited)?;
        write_risen(f, &self.risen)?;
        write_bytes(f, self.bytes_before, self.bytes)
    }
}

/// A line, if there are any entries.
impl fmt::Display for Revived {
    fn fmt<W: fmt::Write>(&self, f: &mut fmt::Formatter<W>) -> fmt::Result {
        let count = self.rows.len();
        if count == 0 {
            return Ok(());
        }
        let is = if count == 1 {
            "entry is"
        } else {
            "entries are"
        };
        write!(f, "{count} {is} retired in a FILE, and not here (")?;
        for (at, row) in self.rows.iter().take(NAMED).enumerate() {
            if at > 0 {
                f.write_str(", ")?;
            }
            write_key(f, row)?;
        }
        let end = if count > NAMED { ", ..)" } else { ")" };
        let they = if count == 1 { "it" } else { "they" };
        writeln!(
            f,
            "{end}: {they} may have been superseded; look at the own register of each office that --from names"
        )
    }
}

fn write_key<W: fmt::Write>(f: &mut fmt::Formatter<W>, row: &Row) -> fmt::Result {
    let key = key_of(row);
    write_cut(f, str::from_utf8(key.authority).unwrap_or(""))?;
    f.write_str(":")?;
    write_cut(f, str::from_utf8(key.code).unwrap_or(""))
}

fn write_retired<W: fmt::Write>(f: &mut fmt::Formatter<W>, retired: usize) -> fmt::Result {
    match retired {
        0 => Ok(()),
        1 => writeln!(
            f,
            "1 entry was retired by another office than the one that entered it, for good"
        ),
        _ => writeln!(
            f,
            "{retired} entries were retired by other offices than those that entered them, for good"
        ),
    }
}

fn write_awaited<W: fmt::Write>(
    f: &mut fmt::Formatter<W>,
    before: usize,
    awaited: usize,
) -> fmt::Result {
    if awaited <= before {
        return Ok(());
    }
    if awaited == 1 {
        return writeln!(
            f,
            "1 id is awaited, and none was before: what comes under it may be retired already"
        );
    }
    writeln!(
        f,
        "{awaited} ids are awaited, and {before} were before: what comes under them may be retired already"
    )
}

fn write_risen<W: fmt::Write>(f: &mut fmt::Formatter<W>, risen: &[Risen]) -> fmt::Result {
    for one in risen.iter().take(NAMED) {
        writeln!(f, "{one}")?;
    }
    if risen.len() > NAMED {
        let more = risen.len() - NAMED;
        writeln!(f, "so did those of more offices: {more}")?;
    }
    Ok(())
}

fn write_bytes<W: fmt::Write>(
    f: &mut fmt::Formatter<W>,
    before: Option<usize>,
    after: Option<usize>,
) -> fmt::Result {
    if before == after {
        return Ok(());
    }
    match (before, after) {
        (Some(before), Some(after)) => writeln!(
            f,
            "the register's file has {after} bytes of at most 67,108,864; it had {before}"
        ),
        (Some(before), None) => writeln!(
            f,
            "the register's file would have more than 67,108,864 bytes; it has {before}"
        ),
        _ => Ok(()),
    }
}
