//! The supersessions between entries that are not retired.

ghost use Rattle.std.specs.Prelude.{◌≡◌, ◌++◌, IfOk, OnOk};
ghost use Rattle.reg_op.specs.declared.operation.OpBody.TheVariants.{Supersede};
ghost use Rattle.reg_disorder.specs.Links.{stands, link_in, links_in};

use reg_op::{Op, OpBody, OpId};
use reg_report::{is_entered, is_retired};
use reg_state::Register;
use std::alloc::{AllocError, Global};

/// An entry, and one that supersedes it.
#[derive(Clone, Copy, Debug, PartialEq, Eq, PartialOrd, Ord)]
pub struct Link {
    pub old: OpId,
    pub newer: OpId,
}

/// Whether the register has such an entry, and it is not retired.
pub fn stands(register: &Register, entry: OpId) -> bool
    ensures { result ≡ stands register.now.ops entry }
{
    is_entered(register, entry) && !is_retired(register, entry)
}

// Appends the link, if neither of its ends is retired.
fn push_link(links: &mut Vec<Link>, register: &Register, link: Link) -> Result<(), AllocError>
    ensures { OnOk result (links.new.items ≡ links.old.items ++ link_in register.now.ops (Supersede link.old link.newer)) }
{
    if !(stands(register, link.old) && stands(register, link.newer)) {
        return Ok(());
    }
    links.push(link)?;
    Ok(())
}

// Appends the link of an operation, if it supersedes an entry, and neither is retired.
fn push_link_of(links: &mut Vec<Link>, register: &Register, op: &Op) -> Result<(), AllocError>
    ensures { OnOk result (links.new.items ≡ links.old.items ++ link_in register.now.ops op.now.body) }
{
    match op.body() {
        OpBody::Enter(_) => Ok(()),
        OpBody::Retire { entry: _ } => Ok(()),
        OpBody::Supersede { old, newer } => push_link(
            links,
            register,
            Link {
                old: *old,
                newer: *newer,
            },
        ),
    }
}

/// The supersessions between entries that are not retired, by their operations.
pub fn links(alloc: Global, register: &Register) -> Result<Vec<Link>, AllocError>
    ensures { IfOk result (λ links. links.items ≡ links_in register.now.ops) }
{
    let ops = register.ops().as_slice();
    let mut links = Vec::new(alloc);
    for op in ops {
        push_link_of(&mut links, register, op)?;
    }
    Ok(links)
}
