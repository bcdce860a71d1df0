//! An office: a register, and the UUID under which it makes operations.

ghost use Rattle.std.specs.Prelude.{◌≡◌, ◌+◌, ◌<◌, ◌≤◌, ◌⊎◌, [], ◌∷◌, map, length, Ok, Err, OnErr, IfOk, IfErr};
ghost use Rattle.reg_op.specs.Set as set;
ghost use Rattle.reg_op.specs.Operations.{Op as Operation, op_cmp};
ghost use Rattle.reg_op.specs.declared.operation.OpBody.TheVariants as body;
ghost use Rattle.reg_op.specs.Contents.{state, joined};
ghost use Rattle.reg_office.specs.declared.fault.OfficeFault.TheVariants as fault;
ghost use Rattle.reg_office.specs.Making.{greatest, numbered, AreAllowed, made};
ghost use Rattle.reg_office.specs.Commands.{retirements, supersessions, Does};
ghost use Rattle.reg_office.specs.Effects.{effect_of};

use crate::OfficeFault;
use crate::command::Command;
use crate::making::{ids_of, is_spent, next_count, ops_of, register_of};
use crate::note::{note_fault, note_of};
use reg_op::{Op, OpBody, OpId};
use reg_state::{Join, JoinFault, Register, Run, TakeFault};
use std::alloc::{AllocError, Global};
use uuid::Uuid;
use wkt_crs::Definition;

/// An office: the UUID of a replica, and its register.
#[derive(Drop)]
pub struct Office {
    replica: Uuid,
    register: Register,
}

impl Office {
    /// The office with this UUID and register.
    pub fn new(replica: Uuid, register: Register) -> Office
        ensures replica { result.replica ≡ replica }
        ensures register { result.register ≡ register }
    {
        Office { replica, register }
    }

    /// The register as it is now.
    pub fn register(&self) -> &Register
        ensures { result.now ≡ self.now.register }
    {
        &self.register
    }

    /// Returns the register.
    pub fn into_register(self) -> Register
        ensures { result ≡ self.register }
    {
        let Office {
            replica: _,
            register,
        } = self;
        register
    }

    /// Enters a definition.
    pub fn enter(&mut self, definition: Definition, note: &str) -> Result<OpId, OfficeFault>
        ensures ok { IfOk result (λ id. Does self.old.register self.old.replica note.now (body.Enter definition ∷ []) self.new.register (id ∷ [])) }
        ensures refused { (f : OfficeFault) → made self.old.register self.old.replica note.now (body.Enter definition ∷ []) ≡ Err f → result ≡ Err f }
        ensures fault { IfErr result (λ f. (made self.old.register self.old.replica note.now (body.Enter definition ∷ []) ≡ Err f) ⊎ (f ≡ fault.Memory)) }
        ensures unchanged { OnErr result (self.new ≡ self.old) }
        ensures replica { self.new.replica ≡ self.old.replica }
    {
        if let Some(fault) = note_fault(note) {
            return Err(fault);
        }
        let Some(first) = next_count(self.register.seen(), self.replica, 1) else {
            return Err(OfficeFault::CountSpent);
        };
        let Some(id) = OpId::new(self.replica, first) else {
            unreachable!();
        };
        let Ok(noted) = note_of(self.register.allocator(), note) else {
            return Err(OfficeFault::Memory);
        };
        let Ok(op) = Op::new(id, OpBody::Enter(definition), noted) else {
            unreachable!();
        };
        match self.register.take(op) {
            Ok(()) => Ok(id),
            Err(TakeFault::Memory) => Err(OfficeFault::Memory),
            Err(TakeFault::Clash(_)) => unreachable!(),
        }
    }

    /// Retires entries.
    pub fn retire(
        &mut self,
        alloc: Global,
        entries: &[OpId],
        note: &str,
    ) -> Result<Vec<OpId>, OfficeFault>
        ensures ok { IfOk result (λ ids. Does self.old.register self.old.replica note.now (retirements entries.now) self.new.register ids.items) }
        ensures refused { (f : OfficeFault) → made self.old.register self.old.replica note.now (retirements entries.now) ≡ Err f → result ≡ Err f }
        ensures fault { IfErr result (λ f. (made self.old.register self.old.replica note.now (retirements entries.now) ≡ Err f) ⊎ (f ≡ fault.Memory)) }
        ensures unchanged { OnErr result (self.new ≡ self.old) }
        ensures replica { self.new.replica ≡ self.old.replica }
    {
        self.run(alloc, &Command::Retire, entries, note)
    }

    /// Supersedes an old entry by newer ones.
    pub fn supersede(
        &mut self,
        alloc: Global,
        old: OpId,
        newer: &[OpId],
        note: &str,
    ) -> Result<Vec<OpId>, OfficeFault>
        ensures ok { IfOk result (λ ids. Does self.old.register self.old.replica note.now (supersessions old newer.now) self.new.register ids.items) }
        ensures refused { (f : OfficeFault) → made self.old.register self.old.replica note.now (supersessions old newer.now) ≡ Err f → result ≡ Err f }
        ensures fault { IfErr result (λ f. (made self.old.register self.old.replica note.now (supersessions old newer.now) ≡ Err f) ⊎ (f ≡ fault.Memory)) }
        ensures unchanged { OnErr result (self.new ≡ self.old) }
        ensures replica { self.new.replica ≡ self.old.replica }
    {
        self.run(alloc, &Command::Supersede(old), newer, note)
    }

    /// Makes an operation of each effect, all with the note. The caller has checked that the register allows them.
    pub fn make(
        &mut self,
        alloc: Global,
        bodies: &[OpBody],
        note: &str,
    ) -> Result<Vec<OpId>, OfficeFault>
        requires { AreAllowed self.old.register self.old.replica note.now bodies.now }
        ensures ok { IfOk result (λ ids. Does self.old.register self.old.replica note.now bodies.now self.new.register ids.items) }
        ensures refused { (f : OfficeFault) → made self.old.register self.old.replica note.now bodies.now ≡ Err f → result ≡ Err f }
        ensures fault { IfErr result (λ f. (made self.old.register self.old.replica note.now bodies.now ≡ Err f) ⊎ (f ≡ fault.Memory)) }
        ensures unchanged { OnErr result (self.new ≡ self.old) }
        ensures replica { self.new.replica ≡ self.old.replica }
    {
        if let Some(fault) = note_fault(note) {
            return Err(fault);
        }
        let seen = self.register.seen();
        if bodies.is_empty() {
            return Ok(Vec::new(alloc));
        }
        let Some(first) = next_count(seen, self.replica, bodies.len()) else {
            return Err(OfficeFault::CountSpent);
        };
        match self.joined(alloc, first, bodies, note) {
            Ok((register, ids)) => {
                self.register = register;
                Ok(ids)
            }
            Err(_) => Err(OfficeFault::Memory),
        }
    }

    // Makes the operations of a command, unless it is refused.
    fn run(
        &mut self,
        alloc: Global,
        command: &Command,
        named: &[OpId],
        note: &str,
    ) -> Result<Vec<OpId>, OfficeFault>
        ensures ok { IfOk result (λ ids. Does self.old.register self.old.replica note.now (map (effect_of command.now) named.now) self.new.register ids.items) }
        ensures refused { (f : OfficeFault) → made self.old.register self.old.replica note.now (map (effect_of command.now) named.now) ≡ Err f → result ≡ Err f }
        ensures fault { IfErr result (λ f. (made self.old.register self.old.replica note.now (map (effect_of command.now) named.now) ≡ Err f) ⊎ (f ≡ fault.Memory)) }
        ensures unchanged { OnErr result (self.new ≡ self.old) }
        ensures replica { self.new.replica ≡ self.old.replica }
    {
        if let Some(fault) = note_fault(note) {
            return Err(fault);
        }
        if let Some(fault) = command.first_fault(alloc, &self.register, named) {
            return Err(fault);
        }
        if is_spent(self.register.seen(), self.replica, named.len()) {
            return Err(OfficeFault::CountSpent);
        }
        let Ok(bodies) = command.bodies(alloc, named) else {
            return Err(OfficeFault::Memory);
        };
        self.make(alloc, &bodies, note)
    }

    // The register after new operations, and their ids.
    fn joined(
        &self,
        alloc: Global,
        first: u32,
        bodies: &[OpBody],
        note: &str,
    ) -> Result<(Register, Vec<OpId>), AllocError>
        requires short { length note.now ≤ 200 }
        requires some { 0 < length bodies.now }
        requires fits { first + length bodies.now ≤ 4294967296 }
        requires first { first ≡ greatest self.now.replica self.now.register.seen + 1 }
        requires allowed { AreAllowed self.now.register self.now.replica note.now bodies.now }
        ensures register { IfOk result (λ p. joined self.now.register (state (set.from_list {R = op_cmp} (numbered self.now.replica first note.now bodies.now))) ≡ Ok p.0) }
        ensures ids { IfOk result (λ p. p.1.items ≡ map (λ (o : Operation). o.id) (numbered self.now.replica first note.now bodies.now)) }
    {
        let noted = note_of(alloc, note)?;
        let ops = ops_of(alloc, self.replica, first, &noted, bodies)?;
        let ids = ids_of(alloc, &ops)?;
        let run = Run {
            replica: self.replica,
            low: first,
            high: first + (bodies.len() as u32 - 1),
        };
        let fresh = register_of(alloc, ops, run)?;
        let _content = self.register.seen();
        match self.register.join(alloc, &fresh) {
            Ok(register) => Ok((register, ids)),
            Err(JoinFault::Memory) => Err(AllocError),
            Err(JoinFault::Clash(_)) => unreachable!(),
        }
    }
}
