//! A command that was stopped, run again.

ghost use Rattle.std.specs.Prelude.{◌≡◌, ◌⊎◌, ◌+◌, ◌≤◌, ◌<◌, ◌↔◌, ◌&&◌, ℕ, true, IsTrue, List, length};
ghost use Rattle.std.specs.List.{list_all};
ghost use Rattle.reg_op.specs.Set as set;
ghost use Rattle.reg_op.specs.Contents.{IsContent};
ghost use Rattle.reg_office.specs.Making.{greatest, numbered};
ghost use Rattle.reg_journal.specs.Journal.{is_own};
ghost use Rattle.reg_journal.specs.Again.{is_again, is_found, is_valid, still_holds, would_double, LastAgain};

use crate::forged::{is_of, op_at};
use crate::office_file::OfficeFile;
use reg_office::last_count;
use reg_op::{Op, OpBody, OpId, Status};
use reg_report::{is_entered, is_retired};
use reg_state::{Register, Seen};
use uuid::Uuid;

impl OfficeFile {
    /// The number from which on the office made these effects with this note before, if the command was stopped. Either a register has
    /// not seen the operations, which its join with the office file has, and which still hold there; or the text that they enter
    /// would have a second entry. The last such number.
    pub fn again(
        &self,
        seen: &Seen,
        joined: &Register,
        note: &str,
        effects: &[OpBody],
    ) -> Option<u32>
        ensures { LastAgain (is_again seen.now joined.now.ops self.now.replica note.now effects.now) result }
    {
        let replica = self.replica();
        let greatest = last_count(joined.seen(), replica);
        if effects.is_empty() {
            return None;
        }
        if effects.len() > greatest as usize {
            return None;
        }
        // No number above this one leaves room for all effects.
        let most = greatest - (effects.len() as u32 - 1);
        let mut last = 0;
        let mut rest = joined.ops().as_slice();
        while let Some((op, others)) = rest.split_first() {
            let id = op.id();
            let again = is_again(seen, joined, replica, id, most, note, effects);
            last = later(last, id.count(), again);
            rest = others;
        }
        if last == 0 {
            return None;
        }
        Some(last)
    }
}

// The greater of two numbers, of which the second one counts only if it will do.
fn later(last: u32, number: u32, does: bool) -> u32
    ensures grows { last ≤ result }
    ensures counts { does ≡ true → number ≤ result }
    ensures either { (result ≡ last) ⊎ ((does ≡ true) × (result ≡ number)) }
{
    if does && last < number { number } else { last }
}

// Whether the office made the effects from this id on, and they are found. No number above `most` leaves room for all effects.
fn is_again(
    seen: &Seen,
    joined: &Register,
    replica: Uuid,
    id: OpId,
    most: u32,
    note: &str,
    effects: &[OpBody],
) -> bool
    requires some { 0 < length effects.now }
    requires most { most + length effects.now ≡ greatest replica joined.now.seen + 1 }
    requires content { IsContent joined.now }
    ensures { result ≡ (is_own replica id && is_again seen.now joined.now.ops replica note.now effects.now id.count) }
{
    if !is_of(id, replica) {
        return false;
    }
    let first = id.count();
    if most < first {
        return false;
    }
    are_found(seen, joined, replica, first, note, effects)
}

// Whether the operations with these effects, numbered from the first number, are found.
fn are_found(
    seen: &Seen,
    joined: &Register,
    replica: Uuid,
    first: u32,
    note: &str,
    effects: &[OpBody],
) -> bool
    requires positive { 0 < first }
    requires fits { first + length effects.now ≤ 4294967296 }
    ensures { result ≡ list_all (is_found seen.now joined.now.ops) (numbered replica first note.now effects.now) }
{
    let mut at = 0;
    while at < effects.len() {
        let Some(id) = OpId::new(replica, first + at as u32) else {
            unreachable!();
        };
        if !is_found(seen, joined, id, note, &effects[at]) {
            return false;
        }
        at += 1;
    }
    true
}

// Whether the operation is found.
fn is_found(seen: &Seen, joined: &Register, id: OpId, note: &str, effect: &OpBody) -> bool
    ensures { result ≡ is_found seen.now joined.now.ops (record { id = id; body = effect.now; note = note.now }) }
{
    has_op(joined, id, note, effect)
        && still_holds(joined, id, effect)
        && (!seen.contains(id) || would_double(joined, id, effect))
}

// Whether the register has the operation.
fn has_op(register: &Register, id: OpId, note: &str, effect: &OpBody) -> bool
    ensures { result ≡ set.contains register.now.ops (record { id = id; body = effect.now; note = note.now }) }
{
    let ops = register.ops().as_slice();
    match op_at(ops, id) {
        Some(op) => does(op, note, effect),
        None => false,
    }
}

// Whether the operation has this effect and this note.
fn does(op: &Op, note: &str, effect: &OpBody) -> bool
    ensures { IsTrue result ↔ ((op.now.body ≡ effect.now) × (op.now.note ≡ note.now)) }
{
    op.body().is_same(effect) && op.note().as_bytes() == note.as_bytes()
}

// Whether an effect still holds in the register that has it.
fn still_holds(register: &Register, id: OpId, effect: &OpBody) -> bool
    requires { (note : List ℕ) × (set.contains register.now.ops (record { id = id; body = effect.now; note = note }) ≡ true) }
    ensures { result ≡ still_holds register.now.ops id effect.now }
{
    match effect {
        OpBody::Enter(_) => !is_retired(register, id),
        OpBody::Supersede { old, newer } => {
            is_entered(register, *old)
                && is_entered(register, *newer)
                && !is_retired(register, *newer)
        }
        OpBody::Retire { entry } => is_entered(register, *entry),
    }
}

// Whether the effect enters a text whose entry is valid.
fn would_double(register: &Register, id: OpId, effect: &OpBody) -> bool
    ensures { result ≡ would_double register.now.ops id effect.now }
{
    match effect {
        OpBody::Enter(_) => is_valid(register.status(id)),
        OpBody::Supersede { old: _, newer: _ } => false,
        OpBody::Retire { entry: _ } => false,
    }
}

fn is_valid(status: Option<Status>) -> bool
    ensures { result ≡ is_valid status }
{
    match status {
        None => false,
        Some(Status::Valid) => true,
        Some(Status::Superseded) => false,
        Some(Status::Retired) => false,
    }
}
