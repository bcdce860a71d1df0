//! What an import brought, where sentences are on.
use byte_io::write_all;
use clap::ArgMatches;
use cli_change::say_news;
use cli_faults::print_lines;
use cli_open::{Rows, answered};
use reg_lint::ANY_RULES;
use reg_lint::engine::{entered_text, usual_of};
use reg_news::News;
use reg_state::Register;
use std::alloc::{AllocError, Global};
use std::str;

/// A copy of a register, if one was noted and there was memory for it.
pub type NotedRegister = Option<Result<Register, AllocError>>;

/// What a register has that it had not before, and with `--lint` what an expert would ask about it, as it is printed.
#[derive(Drop)]
pub struct Brought {
    pub news: Option<News>,
    pub rows: Vec<u8>,
}

impl Brought {
    /// Nothing.
    pub fn nothing(alloc: Global) -> Brought {
        Brought {
            news: None,
            rows: Vec::new(alloc),
        }
    }

    /// Adds the rows about the entries that the later register has and the earlier one has not, unless memory runs out.
    pub fn ask(
        &mut self,
        rt: &HostRuntime,
        matches: &ArgMatches<'_>,
        earlier: &NotedRegister,
        later: &NotedRegister,
    ) {
        let (Some(Ok(earlier)), Some(Ok(later))) = (earlier, later) else {
            return;
        };
        if let Ok(rows) = usual_rows(rt.alloc(), earlier, later) {
            if let Ok(shown) = shown(rt, matches, &rows) {
                self.rows = shown;
            }
        }
    }
}

// The rows by the rules that are looked at where none is named.
fn usual_rows(alloc: Global, earlier: &Register, later: &Register) -> Result<Vec<u8>, AllocError> {
    let rules = usual_of(alloc, &ANY_RULES)?;
    let rows = entered_text(alloc, &rules, earlier, later)?;
    Ok(rows)
}

// The rows as the command prints its own: as CSV, or with `--table` as a table.
fn shown(rt: &HostRuntime, matches: &ArgMatches<'_>, rows: &[u8]) -> Result<Vec<u8>, AllocError> {
    let mut shown = Vec::new(rt.alloc());
    let mut sink = Rows::sink(rt, matches, &mut shown);
    let answer = write_all(&mut sink, rows);
    match answered(rt.alloc(), sink, answer) {
        Ok(Ok(())) => Ok(shown),
        _ => Err(AllocError),
    }
}

/// Says what was brought: the news, and then the rows.
pub fn say_brought(rt: &HostRuntime, brought: &Brought) {
    say_news(rt, &brought.news);
    if let Ok(rows) = str::from_utf8(&brought.rows) {
        print_lines(rt, rows);
    }
}
