//! Which entries are handed on.

ghost use Rattle.std.specs.Prelude.{◌≡◌, map, IfOk};
ghost use Rattle.reg_query.specs.Found.{AreFoundIn};
ghost use Rattle.reg_report.specs.Seen.{row_seen};
ghost use Rattle.reg_export.specs.Choice.{asked, status_of};

use reg_query::{Query, Wanted, found};
use reg_report::Row;
use reg_state::Register;
use std::alloc::{AllocError, Global};

/// Which entries are handed on: those that meet both criteria.
#[derive(Clone, Copy)]
pub struct Choice<'a> {
    /// The status; if none is given, each entry that is not retired.
    pub status: Option<Wanted>,
    /// The authority. Letters A to Z match in either case.
    pub authority: Option<&'a str>,
}

fn status_of(wanted: Option<Wanted>) -> Wanted
    ensures { result ≡ status_of wanted }
{
    match wanted {
        Some(wanted) => wanted,
        None => Wanted::Live,
    }
}

impl<'a> Choice<'a> {
    fn query(&self) -> Query<'a>
        ensures { result ≡ asked self.now }
    {
        Query {
            word: None,
            key: None,
            authority: self.authority,
            code: None,
            name: None,
            area: None,
            at: None,
            kind: None,
            text: None,
            status: Some(status_of(self.status)),
        }
    }
}

/// The rows of the entries that a choice asks for, by id.
pub fn found_for(
    alloc: Global,
    register: &Register,
    choice: &Choice<'_>,
) -> Result<Vec<Row>, AllocError>
    ensures { IfOk result (λ made. AreFoundIn register.now (asked choice.now) (map row_seen made.items)) }
{
    let query = choice.query();
    let made = found(alloc, register, &query)?;
    Ok(made)
}
