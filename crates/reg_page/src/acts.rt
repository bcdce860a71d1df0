//! The operations on entries.

ghost use Rattle.std.specs.Prelude.{◌≡◌, ◌++◌, ◌∷◌, [], filter, not, IfOk, OnOk};
ghost use Rattle.std.specs.List.Sorted.{IsSortedByKey, IsStableByKey};
ghost use Rattle.std.specs.Ordering.{is_lt};
ghost use Rattle.reg_op.specs.Ids.{id_cmp};
ghost use Rattle.reg_op.specs.Operations.{Op as Operation};
ghost use Rattle.reg_op.specs.Status.{is_enter};
ghost use Rattle.reg_page.specs.Page.{subject, is_on, acts_in};

use reg_op::{Op, OpBody, OpId};
use reg_state::Register;
use std::alloc::{AllocError, Global};

fn is_act(op: &Op) -> bool
    ensures { result ≡ not (is_enter op.now.body) }
{
    match op.body() {
        OpBody::Enter(_) => false,
        OpBody::Supersede { old: _, newer: _ } => true,
        OpBody::Retire { entry: _ } => true,
    }
}

// The supersessions and retirements of a register, by id.
fn acts(alloc: Global, register: &Register) -> Result<Vec<Op>, AllocError>
    ensures { IfOk result (λ made. made.items ≡ acts_in register.now.ops) }
{
    let mut made = Vec::new(alloc);
    let mut rest = register.ops().as_slice();
    while let Some((op, others)) = rest.split_first() {
        push_act(alloc, &mut made, op)?;
        rest = others;
    }
    Ok(made)
}

// Appends a copy, unless the operation enters an entry.
fn push_act(alloc: Global, made: &mut Vec<Op>, op: &Op) -> Result<(), AllocError>
    ensures { OnOk result (made.new.items ≡ made.old.items ++ filter (λ (o : Operation). not (is_enter o.body)) (op.now ∷ [])) }
{
    if !is_act(op) {
        return Ok(());
    }
    let copy = op.try_clone(alloc)?;
    made.push(copy)?;
    Ok(())
}

// The entry that an operation supersedes or retires, or that it enters.
fn subject(op: &Op) -> OpId
    ensures { result ≡ subject op.now }
{
    match op.body() {
        OpBody::Enter(_) => op.id(),
        OpBody::Supersede { old, newer: _ } => *old,
        OpBody::Retire { entry } => *entry,
    }
}

/// The supersessions and retirements of a register, by entry and then by id.
pub fn acts_by_entry(alloc: Global, register: &Register) -> Result<Vec<Op>, AllocError>
    ensures sorted { IfOk result (λ made. IsSortedByKey subject id_cmp made.items) }
    ensures same { IfOk result (λ made. IsStableByKey subject id_cmp (acts_in register.now.ops) made.items) }
{
    let mut made = acts(alloc, register)?;
    made.sort_by_key(|op| subject(op))?;
    Ok(made)
}

fn is_below(op: &Op, entry: OpId) -> bool
    ensures { result ≡ is_lt (id_cmp (subject op.now) entry) }
{
    subject(op).cmp(&entry).is_lt()
}

fn is_up_to(op: &Op, entry: OpId) -> bool
    ensures { result ≡ not (is_lt (id_cmp entry (subject op.now))) }
{
    !entry.cmp(&subject(op)).is_lt()
}

/// The operations on an entry, among operations by entry.
pub fn acts_on<'a>(acts: &'a [Op], entry: OpId) -> &'a [Op]
    requires { IsSortedByKey subject id_cmp acts.now }
    ensures { result.now ≡ filter (is_on entry) acts.now }
{
    let low = acts.partition_point(|op| is_below(op, entry));
    let rest = &acts[low..];
    let count = rest.partition_point(|op| is_up_to(op, entry));
    &rest[..count]
}
