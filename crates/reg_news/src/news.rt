//! What a change of a register brings.

ghost use Rattle.std.specs.Prelude.{◌≡◌, length, map, IfOk};
ghost use Rattle.reg_op.specs.Set as set;
ghost use Rattle.reg_op.specs.declared.status.Status.TheVariants.{Superseded, Retired};
ghost use Rattle.reg_op.specs.Rows.{rows, awaited};
ghost use Rattle.reg_report.specs.Conflicts.{bytes_of};
ghost use Rattle.reg_report.specs.Contenders.{conflict_seen};
ghost use Rattle.reg_op.specs.Set.{Ascends};
ghost use Rattle.reg_report.specs.Rows.{row_cmp};
ghost use Rattle.reg_report.specs.Seen.{row_seen};
ghost use Rattle.reg_disorder.specs.Lists.{listed_seen};
ghost use Rattle.reg_news.specs.News.{has_status, count_of, CountsGaps, AreInConflict, HaveAmiss, AreFresh, IsNews};

use crate::codes::{Code, codes_between};
use crate::keys::{fresh, push_key};
use crs_value::Key;
use reg_disorder::{Disorder, ListedEntry, amiss};
use reg_op::Status;
use reg_report::{Conflict, Row, awaited, conflicts, gaps, rows};
use reg_state::Register;
use std::alloc::{AllocError, Global};

/// A number before a change and after it.
#[derive(Clone, Copy, Debug, PartialEq, Eq)]
pub struct Grown {
    pub before: usize,
    pub now: usize,
}

/// What a change of a register brings.
#[derive(Drop)]
pub struct News {
    pub entries: Grown,
    pub superseded: Grown,
    pub retired: Grown,
    /// Keys in conflict that were not.
    pub conflicts: Vec<Key>,
    /// Keys with several live entries of one text that had none before.
    pub duplicates: Vec<Key>,
    /// Keys with a superseded entry from which no chain leads to a valid one, and that had none before.
    pub dangling: Vec<Key>,
    /// Codes that are in use again, and those that are superseded anew.
    pub codes: Vec<Code>,
    /// Keys whose entries are all retired now.
    pub withdrawn: Vec<Key>,
    /// Awaited ids.
    pub awaited: Grown,
    /// Ranges of missing counts.
    pub gaps: Grown,
}

fn is_superseded(row: &Row) -> bool
    ensures { result ≡ has_status Superseded (row_seen row.now).status }
{
    match row.status {
        Status::Valid => false,
        Status::Superseded => true,
        Status::Retired => false,
    }
}

fn is_retired(row: &Row) -> bool
    ensures { result ≡ has_status Retired (row_seen row.now).status }
{
    match row.status {
        Status::Valid => false,
        Status::Superseded => false,
        Status::Retired => true,
    }
}

fn count_superseded(rows: &[Row]) -> usize
    ensures { result ≡ count_of Superseded (map row_seen rows.now) }
{
    rows.iter().filter(|row| is_superseded(row)).count()
}

fn count_retired(rows: &[Row]) -> usize
    ensures { result ≡ count_of Retired (map row_seen rows.now) }
{
    rows.iter().filter(|row| is_retired(row)).count()
}

fn keys_of_conflicts(alloc: Global, conflicts: &[Conflict]) -> Result<Vec<Key>, AllocError>
    ensures { IfOk result (λ keys. map bytes_of keys.items ≡ map (λ c. (conflict_seen c).key) conflicts.now) }
{
    let mut keys = Vec::new(alloc);
    for conflict in conflicts {
        push_key(alloc, &mut keys, &conflict.authority, &conflict.code)?;
    }
    Ok(keys)
}

fn conflict_keys(alloc: Global, register: &Register) -> Result<Vec<Key>, AllocError>
    ensures { IfOk result (λ keys. AreInConflict (rows register.now.ops) (map bytes_of keys.items)) }
{
    let conflicts = conflicts(alloc, register)?;
    let keys = keys_of_conflicts(alloc, &conflicts)?;
    Ok(keys)
}

fn keys_of_listed(alloc: Global, listed: &[ListedEntry]) -> Result<Vec<Key>, AllocError>
    ensures { IfOk result (λ keys. map bytes_of keys.items ≡ map (λ l. (listed_seen l).key) listed.now) }
{
    let mut keys = Vec::new(alloc);
    for one in listed {
        push_key(alloc, &mut keys, &one.authority, &one.code)?;
    }
    Ok(keys)
}

fn amiss_keys(alloc: Global, rows: &[Row], way: Disorder) -> Result<Vec<Key>, AllocError>
    ensures { IfOk result (λ keys. HaveAmiss way (map row_seen rows.now) (map bytes_of keys.items)) }
{
    let listed = amiss(alloc, rows, way)?;
    let keys = keys_of_listed(alloc, &listed)?;
    Ok(keys)
}

fn fresh_conflicts(alloc: Global, old: &Register, new: &Register) -> Result<Vec<Key>, AllocError>
    ensures { IfOk result (λ keys. AreFresh AreInConflict (rows old.now.ops) (rows new.now.ops) (map bytes_of keys.items)) }
{
    let before = conflict_keys(alloc, old)?;
    let after = conflict_keys(alloc, new)?;
    let keys = fresh(alloc, &before, after)?;
    Ok(keys)
}

fn fresh_amiss(
    alloc: Global,
    earlier: &[Row],
    later: &[Row],
    way: Disorder,
) -> Result<Vec<Key>, AllocError>
    ensures { IfOk result (λ keys. AreFresh (HaveAmiss way) (map row_seen earlier.now) (map row_seen later.now) (map bytes_of keys.items)) }
{
    let before = amiss_keys(alloc, earlier, way)?;
    let after = amiss_keys(alloc, later, way)?;
    let keys = fresh(alloc, &before, after)?;
    Ok(keys)
}

fn grown_awaited(alloc: Global, old: &Register, new: &Register) -> Result<Grown, AllocError>
    ensures before { IfOk result (λ n. n.before ≡ length (set.items (awaited old.now.ops))) }
    ensures now { IfOk result (λ n. n.now ≡ length (set.items (awaited new.now.ops))) }
{
    let before = awaited(alloc, old)?.len();
    let now = awaited(alloc, new)?.len();
    Ok(Grown { before, now })
}

fn count_gaps(alloc: Global, register: &Register) -> Result<usize, AllocError>
    ensures { IfOk result (CountsGaps register.now.seen) }
{
    let gaps = gaps(alloc, register)?;
    Ok(gaps.len())
}

fn grown_gaps(alloc: Global, old: &Register, new: &Register) -> Result<Grown, AllocError>
    ensures before { IfOk result (λ n. CountsGaps old.now.seen n.before) }
    ensures now { IfOk result (λ n. CountsGaps new.now.seen n.now) }
{
    let before = count_gaps(alloc, old)?;
    let now = count_gaps(alloc, new)?;
    Ok(Grown { before, now })
}

// The news of two registers with these rows.
fn news_between(
    alloc: Global,
    old: &Register,
    new: &Register,
    earlier: &[Row],
    later: &[Row],
) -> Result<News, AllocError>
    requires earlier { map row_seen earlier.now ≡ rows old.now.ops }
    requires later { map row_seen later.now ≡ rows new.now.ops }
    requires earlier_order { Ascends row_cmp (map row_seen earlier.now) }
    requires later_order { Ascends row_cmp (map row_seen later.now) }
    ensures { IfOk result (IsNews old.now new.now) }
{
    let awaited = grown_awaited(alloc, old, new)?;
    let gaps = grown_gaps(alloc, old, new)?;
    let entries = Grown {
        before: earlier.len(),
        now: later.len(),
    };
    let superseded = Grown {
        before: count_superseded(earlier),
        now: count_superseded(later),
    };
    let retired = Grown {
        before: count_retired(earlier),
        now: count_retired(later),
    };
    let conflicts = fresh_conflicts(alloc, old, new)?;
    let duplicates = fresh_amiss(alloc, earlier, later, Disorder::Duplicates)?;
    let dangling = fresh_amiss(alloc, earlier, later, Disorder::Dangling)?;
    let codes = codes_between(alloc, earlier, later)?;
    let withdrawn = fresh_amiss(alloc, earlier, later, Disorder::Withdrawn)?;
    Ok(News {
        entries,
        superseded,
        retired,
        conflicts,
        duplicates,
        dangling,
        codes,
        withdrawn,
        awaited,
        gaps,
    })
}

/// What the second register has that the first one has not.
pub fn news_of(alloc: Global, old: &Register, new: &Register) -> Result<News, AllocError>
    ensures { IfOk result (IsNews old.now new.now) }
{
    let earlier = rows(alloc, old)?;
    let later = rows(alloc, new)?;
    let news = news_between(alloc, old, new, &earlier, &later)?;
    Ok(news)
}
