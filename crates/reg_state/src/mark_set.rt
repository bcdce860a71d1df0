//! The least marks, and their join.

ghost use Rattle.std.specs.Prelude.{◌≡◌, ℕ, ◌<◌, ◌≤◌, ◌++◌, ◌&&◌, true, false, not, Bool, None, IfOk, OnOk, OnErr, IfSome, IfNone, filter};
ghost use Rattle.std.specs.List.{insert, list_any};
ghost use Rattle.std.specs.Vec.{vec_capacity, vec_len};
ghost use Rattle.std.specs.List.Sorted.{IsSorted};
ghost use Rattle.reg_op.specs.Set as set;
ghost use Rattle.reg_op.specs.Finite.{any};
ghost use Rattle.reg_op.specs.Ids.{is_before, is_same};
ghost use Rattle.reg_op.specs.Lists.{passes};
ghost use Rattle.reg_state.specs.MarkSets.{mark_cmp, firsts, has, covers, is_at, is_covered, least, lessens, AreLeast, BeginsAt};
ghost use Rattle.reg_state.specs.MarkLaws.{joined_marks, merged_marks, AlwaysAgree, marks_laws};

use crate::mark::{Mark, MarkTarget, comes_first, covers, is_at, is_below};
use reg_op::OpId;
use reg_op::joining::{Join, JoinFault};
use std::alloc::{AllocError, Global};
use std::convert::Infallible;
use std::marker::Model;

/// The least mark of each retired entry, or of each pair in which one supersedes the other. They are sorted.
#[derive(Drop)]
pub struct Marks {
    marks: Vec<Mark>,
}

impl Model for Marks {
    ghost use Rattle.reg_op.specs.Set as set;
    ghost use Rattle.reg_state.specs.MarkSets.{MarkSet, mark_code, AreMarks};

    ghost Value = { MarkSet };

    ghost coded = { set.code mark_code };

    ghost view = { λ m. set.from_list m.marks.items };

    ghost invariant = { λ m. AreMarks m.marks.items };
}

impl Marks {
    /// No marks, without allocating.
    pub fn new(alloc: Global) -> Marks
        ensures { result ≡ set.empty }
    {
        Marks {
            marks: Vec::new(alloc),
        }
    }

    /// The least of some marks.
    pub fn of(alloc: Global, marks: Vec<Mark>) -> Result<Marks, AllocError>
        ensures { IfOk result (λ made. made ≡ least (set.from_list marks.items)) }
    {
        let marks = least_of(alloc, marks)?;
        Ok(Marks { marks })
    }

    /// The least id that marks a target.
    pub fn least(&self, target: &MarkTarget) -> Option<OpId>
        ensures found { IfSome result (λ id. set.contains self.now (record { target = target.now; id = id }) ≡ true) }
        ensures none { IfNone result (any (λ m. is_at target.now m) self.now ≡ false) }
        ensures least { AreLeast self.now }
    {
        let Some(mark) = first_from(&self.marks, target) else {
            return None;
        };
        if is_at(&mark, target) {
            return Some(mark.id);
        }
        None
    }

    /// Whether an entry is retired, or superseded by another.
    pub fn is_touched(&self, entry: OpId) -> bool
        ensures { result ≡ any (λ m. is_same entry m.target.entry) self.now }
    {
        match first_from(&self.marks, &MarkTarget { entry, by: None }) {
            Some(mark) => entry.is_same(&mark.target.entry),
            None => false,
        }
    }

    /// Whether some mark makes this one redundant.
    pub fn lessens(&self, mark: &Mark) -> bool
        ensures { result ≡ any (λ p. lessens p mark.now) self.now }
    {
        if self.has_earlier(mark) {
            return true;
        }
        match mark.target.by {
            None => false,
            Some(_) => self.is_retired(mark.target.entry),
        }
    }

    fn is_retired(&self, entry: OpId) -> bool
        ensures { result ≡ any (λ p. is_at (record { entry = entry; by = None }) p) self.now }
    {
        match self.least(&MarkTarget { entry, by: None }) {
            Some(_) => true,
            None => false,
        }
    }

    // Whether a lesser id marks the same.
    fn has_earlier(&self, mark: &Mark) -> bool
        ensures { result ≡ any (λ p. is_at mark.now.target p && is_before p.id mark.now.id) self.now }
    {
        match self.least(&mark.target) {
            Some(least) => least.is_before(&mark.id),
            None => false,
        }
    }

    /// Whether a mark at the target would make some mark redundant, if it came first.
    pub fn has_covered(&self, target: &MarkTarget) -> bool
        ensures { result ≡ any (λ m. covers target.now m) self.now }
    {
        match first_from(&self.marks, target) {
            Some(first) => covers(target, &first),
            None => false,
        }
    }

    /// Adds a mark and removes those that it makes redundant. A redundant mark changes nothing.
    pub fn insert(&mut self, mark: Mark) -> Result<(), AllocError>
        ensures ok { OnOk result (self.new ≡ least (set.insert self.old mark)) }
        ensures err { OnErr result (self.new ≡ self.old) }
    {
        if self.lessens(&mark) {
            return Ok(());
        }
        self.marks.reserve(1)?;
        remove_covered(&mut self.marks, &mark.target);
        put_in_place(&mut self.marks, mark);
        Ok(())
    }

    /// A copy with its own memory.
    pub fn try_clone(&self, alloc: Global) -> Result<Marks, AllocError>
        ensures { IfOk result (λ copy. copy ≡ self.now) }
    {
        let marks = Vec::from_slice(alloc, &self.marks)?;
        Ok(Marks { marks })
    }
}

// The first mark at a target or after it, which decides for all.
fn first_from(marks: &[Mark], target: &MarkTarget) -> Option<Mark>
    requires { IsSorted mark_cmp marks.now }
    ensures told { (t : Mark → Bool) → BeginsAt target.now t → list_any t marks.now ≡ passes t result }
    ensures there { IfSome result (λ m. has marks.now m ≡ true) }
{
    let at = marks.partition_point(|mark| is_below(mark, target));
    if at < marks.len() {
        return Some(marks[at]);
    }
    None
}

// Removes the marks that a mark at the target makes redundant. There are seldom any.
fn remove_covered(marks: &mut Vec<Mark>, target: &MarkTarget)
    requires { IsSorted mark_cmp marks.old.items }
    ensures items { marks.new.items ≡ filter (λ m. not (covers target.now m)) marks.old.items }
    ensures len { vec_len marks.new ≤ vec_len marks.old }
    ensures capacity { vec_capacity marks.new ≡ vec_capacity marks.old }
{
    let Some(first) = first_from(marks, target) else {
        return;
    };
    if covers(target, &first) {
        marks.retain(|mark| !covers(target, mark));
    }
}

// Inserts a mark before the first that is not below it. There is room.
fn put_in_place(marks: &mut Vec<Mark>, mark: Mark)
    requires sorted { IsSorted mark_cmp marks.old.items }
    requires room { vec_len marks.old < vec_capacity marks.old }
    ensures sorted { IsSorted mark_cmp marks.new.items }
    ensures put { (i : ℕ) × (marks.new.items ≡ insert marks.old.items i mark) }
{
    let at = marks.partition_point(|other| comes_first(other, &mark));
    if let Err(_) = marks.insert(at, mark) {
        return;
    }
}

// The least marks of a list, sorted.
fn least_of(alloc: Global, all: Vec<Mark>) -> Result<Vec<Mark>, AllocError>
    ensures sorted { IfOk result (λ made. IsSorted mark_cmp made.items) }
    ensures least { IfOk result (λ made. set.from_list {R = mark_cmp} made.items ≡ least (set.from_list all.items)) }
{
    let mut sorted = all;
    sorted.sort()?;
    firsts_of(alloc, &sorted)
}

// The marks that none before them covers.
fn firsts_of(alloc: Global, sorted: &[Mark]) -> Result<Vec<Mark>, AllocError>
    ensures { IfOk result (λ made. made.items ≡ firsts None sorted.now) }
{
    let mut made = Vec::with_capacity(alloc, sorted.len())?;
    let mut last: Option<MarkTarget> = None;
    let mut rest = sorted;
    while let Some((mark, others)) = rest.split_first() {
        if !is_covered(&last, mark) {
            made.push(*mark)?;
            last = Some(mark.target);
        }
        rest = others;
    }
    Ok(made)
}

fn is_covered(last: &Option<MarkTarget>, mark: &Mark) -> bool
    ensures { result ≡ is_covered last.now mark.now }
{
    match last {
        None => false,
        Some(target) => covers(target, mark),
    }
}

impl Join for Marks {
    type Clash = Infallible;

    ghost nothing = { set.empty };

    ghost joined = { joined_marks };

    ghost merged = { merged_marks };

    ghost agree = { AlwaysAgree };

    ghost is_value = { AreLeast };

    fn empty(alloc: Global) -> Marks {
        Marks::new(alloc)
    }

    fn join(&self, alloc: Global, other: &Marks) -> Result<Marks, JoinFault<Infallible>> {
        match both_of(alloc, &self.marks, &other.marks) {
            Ok(marks) => Ok(Marks { marks }),
            Err(_) => Err(JoinFault::Memory),
        }
    }

    ghost laws = { marks_laws };
}

// The least marks of two sorted lists.
fn both_of(alloc: Global, left: &[Mark], right: &[Mark]) -> Result<Vec<Mark>, AllocError>
    requires left { IsSorted mark_cmp left.now }
    requires right { IsSorted mark_cmp right.now }
    ensures sorted { IfOk result (λ made. IsSorted mark_cmp made.items) }
    ensures least { IfOk result (λ made. set.from_list {R = mark_cmp} made.items ≡ least (set.from_list (left.now ++ right.now))) }
{
    let merged = merged_of(alloc, left, right)?;
    firsts_of(alloc, &merged)
}

// Two sorted lists as one, by a walk along both.
fn merged_of(alloc: Global, left: &[Mark], right: &[Mark]) -> Result<Vec<Mark>, AllocError>
    requires left { IsSorted mark_cmp left.now }
    requires right { IsSorted mark_cmp right.now }
    ensures sorted { IfOk result (λ made. IsSorted mark_cmp made.items) }
    ensures covered { IfOk result (λ made. (m : Mark) → has made.items m ≡ has (left.now ++ right.now) m) }
{
    let mut made = Vec::new(alloc);
    let mut lefts = left;
    let mut rights = right;
    while let (Some((a, left_rest)), Some((b, right_rest))) = (
        lefts.split_first(),
        rights.split_first(),
    ) {
        if comes_first(b, a) {
            made.push(*b)?;
            rights = right_rest;
        } else {
            made.push(*a)?;
            lefts = left_rest;
        }
    }
    made.extend_from_slice(lefts)?;
    made.extend_from_slice(rights)?;
    Ok(made)
}
