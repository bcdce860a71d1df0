//! What is gathered of a register before its page is made.

ghost use Rattle.std.specs.Prelude.{IfOk};
ghost use Rattle.reg_page.specs.Gathered.{IsGathered};

use crate::acts::acts_by_entry;
use crate::described::{Described, all_described};
use reg_lint::Rule;
use reg_op::{Op, OpId};
use reg_report::{Conflict, awaited, conflicts};
use reg_state::Register;
use std::alloc::{AllocError, Global};

/// The entries of a register by id, its supersessions and retirements by entry, its conflicts and its awaited ids.
#[derive(Drop)]
pub struct Gathered {
    pub described: Vec<Described>,
    pub acts: Vec<Op>,
    pub conflicts: Vec<Conflict>,
    pub awaited: Vec<OpId>,
}

/// What a page of the register shows except for gaps, with what is asked by these rules. What takes most room comes last, when the lists that the others
/// needed are gone.
pub fn gather(alloc: Global, rules: &[Rule], register: &Register) -> Result<Gathered, AllocError>
    ensures { IfOk result (IsGathered rules.now register.now) }
{
    let conflicts = conflicts(alloc, register)?;
    let awaited = awaited(alloc, register)?;
    let acts = acts_by_entry(alloc, register)?;
    let described = all_described(alloc, rules, register)?;
    Ok(Gathered {
        described,
        acts,
        conflicts,
        awaited,
    })
}
