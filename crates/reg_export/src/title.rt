//! The title of an entry.

ghost use Rattle.std.specs.Prelude.{◌≡◌};
ghost use Rattle.reg_op.specs.Text.{printed};
ghost use Rattle.reg_report.specs.Seen.{row_seen};
ghost use Rattle.reg_export.specs.Titles.{IsTitle};

use crs_export::Title;
use reg_report::{Row, status_word};

/// The title of a row, whose printed id is given.
pub fn title_of<'a>(row: &'a Row, entry: &'a [u8]) -> Title<'a>
    requires { entry.now ≡ printed row.now.entry }
    ensures { IsTitle (row_seen row.now) result }
{
    let key = row.definition.key();
    let name = row.definition.name();
    Title {
        entry,
        authority: key.authority.as_bytes(),
        code: key.code.as_bytes(),
        name: name.as_bytes(),
        status: status_word(row),
    }
}
