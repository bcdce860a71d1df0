//! What holds of a key.

ghost use Rattle.std.specs.Prelude.{◌↔◌, List, None, Contains, IsTrue, map};
ghost use Rattle.reg_op.specs.Rows.{Row as OneRow};
ghost use Rattle.reg_op.specs.Set.{Ascends};
ghost use Rattle.reg_report.specs.Keys.{key_bytes};
ghost use Rattle.reg_disorder.specs.Marks.{mark_cmp, mark_seen, AreMarks};
ghost use Rattle.reg_disorder.specs.Standings.{IsStanding};

use crate::mark::Mark;
use reg_report::KeyText;

/// What holds of a key. A superseded entry counts more than a valid one beside it: whoever settles the key passes its links on.
#[derive(Clone, Copy, Debug, PartialEq, Eq)]
pub enum Standing {
    /// It has no entry.
    Absent,
    /// It has entries, and all are retired.
    Withdrawn,
    /// An entry is not retired, and none is superseded.
    Valid,
    /// An entry is superseded.
    Superseded,
}

/// Whether the mark is among these, which are in order.
pub fn has_mark(marks: &[Mark<'_>], mark: &Mark<'_>) -> bool
    requires { Ascends mark_cmp (map mark_seen marks.now) }
    ensures { IsTrue result ↔ Contains (map mark_seen marks.now) (mark_seen mark.now) }
{
    marks.binary_search(mark).is_ok()
}

// Whether an entry of the key has this status.
fn has_status(marks: &[Mark<'_>], key: KeyText<'_>, live: bool, superseded: bool) -> bool
    requires { Ascends mark_cmp (map mark_seen marks.now) }
    ensures { IsTrue result ↔ Contains (map mark_seen marks.now) (record { key = key_bytes key.entry; live = live; superseded = superseded; by = None }) }
{
    has_mark(
        marks,
        &Mark {
            key,
            live,
            superseded,
            by: None,
        },
    )
}

/// What holds of a key, by the marks of the rows.
pub fn standing_of(marks: &[Mark<'_>], key: KeyText<'_>) -> Standing
    requires { Ascends mark_cmp (map mark_seen marks.now) }
    ensures { (rs : List OneRow) → AreMarks rs (map mark_seen marks.now) → IsStanding result rs (key_bytes key.entry) }
{
    if has_status(marks, key, true, true) {
        return Standing::Superseded;
    }
    if has_status(marks, key, true, false) {
        return Standing::Valid;
    }
    if has_status(marks, key, false, false) {
        return Standing::Withdrawn;
    }
    Standing::Absent
}
