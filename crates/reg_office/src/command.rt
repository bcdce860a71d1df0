//! The effects of a command, and why an office refuses it.

ghost use Rattle.std.specs.Prelude.{◌≡◌, ℕ, List, map, IfOk};
ghost use Rattle.reg_office.specs.Making.{objections, numbered};
ghost use Rattle.reg_office.specs.Effects.{effect_of, fault_of};

use crate::OfficeFault;
use crate::repeat::first_repeat;
use reg_op::{OpBody, OpId};
use reg_report::{is_entered, is_retired};
use reg_state::Register;
use std::alloc::{AllocError, Global};

/// The effect of a command on each entry that it names.
#[derive(Clone, Copy)]
pub enum Command {
    Retire,
    Supersede(OpId),
}

impl Command {
    // Why the command is refused for this entry (`again`: it was named before).
    fn fault(&self, register: &Register, again: bool, entry: OpId) -> Option<OfficeFault>
        ensures { result ≡ fault_of self.now register.now.ops again entry }
    {
        match *self {
            Command::Retire => {
                if !is_entered(register, entry) {
                    return Some(OfficeFault::UnknownEntry(entry));
                }
                if is_retired(register, entry) || again {
                    return Some(OfficeFault::AlreadyRetired(entry));
                }
                None
            }
            Command::Supersede(old) => {
                if !is_entered(register, old) {
                    return Some(OfficeFault::UnknownEntry(old));
                }
                if !is_entered(register, entry) {
                    return Some(OfficeFault::UnknownEntry(entry));
                }
                if old.is_same(&entry) {
                    return Some(OfficeFault::SameEntry);
                }
                if is_retired(register, old) {
                    return Some(OfficeFault::AlreadyRetired(old));
                }
                if is_retired(register, entry) {
                    return Some(OfficeFault::AlreadyRetired(entry));
                }
                if register.is_superseded_by(old, entry) || again {
                    return Some(OfficeFault::AlreadySuperseded(entry));
                }
                None
            }
        }
    }

    /// The first refusal among the entries.
    pub fn first_fault(
        &self,
        alloc: Global,
        register: &Register,
        named: &[OpId],
    ) -> Option<OfficeFault>
        ensures { (replica : List ℕ) (n : ℕ) (note : List ℕ) → result ≡ objections register.now (numbered replica n note (map (effect_of self.now) named.now)) }
    {
        let repeat = first_repeat(alloc, named);
        for (k, entry) in named.iter().enumerate() {
            if let Some(fault) = self.fault(register, k == repeat, *entry) {
                return Some(fault);
            }
        }
        None
    }

    fn effect(&self, named: OpId) -> OpBody
        ensures { result ≡ effect_of self.now named }
    {
        match *self {
            Command::Retire => OpBody::Retire { entry: named },
            Command::Supersede(old) => OpBody::Supersede { old, newer: named },
        }
    }

    /// The effect on each entry.
    pub fn bodies(&self, alloc: Global, named: &[OpId]) -> Result<Vec<OpBody>, AllocError>
        ensures { IfOk result (λ bodies. bodies.items ≡ map (effect_of self.now) named.now) }
    {
        let mut bodies = Vec::with_capacity(alloc, named.len())?;
        for entry in named {
            bodies.push(self.effect(*entry))?;
        }
        Ok(bodies)
    }
}
