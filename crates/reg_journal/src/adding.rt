//! What an office file has after a command.

ghost use Rattle.std.specs.Prelude.{◌≡◌, ◌+◌, ◌-◌, ◌++◌, [], ◌∷◌, IfOk, OnOk};
ghost use Rattle.reg_op.specs.Set as set;
ghost use Rattle.reg_state.specs.Runs.{ids_from};
ghost use Rattle.reg_office.specs.Making.{greatest};
ghost use Rattle.reg_journal.specs.Adding.{added, is_changed, is_new, left_by, new_in, new_ops, stood_to};
ghost use Rattle.reg_op.specs.Contents.{Content};

use crate::forged::is_of;
use crate::office_file::OfficeFile;
use reg_office::last_count;
use reg_op::{Op, OpId};
use reg_state::{ContentFault, Join, JoinFault, Register, Run, Seen};
use std::alloc::{AllocError, Global};

impl OfficeFile {
    /// The office file with the operations that a command made: those of the register under numbers above the last one.
    pub fn with_made(&self, alloc: Global, register: &Register) -> Result<OfficeFile, AllocError>
        ensures { IfOk result (λ f. f ≡ added self.now register.now) }
    {
        let last = self.last_in(register);
        let fresh = self.new_in(alloc, register)?;
        let _fresh = fresh.seen();
        let _content = register.seen();
        let _office = self.last();
        match self.made().join(alloc, &fresh) {
            Ok(made) => Ok(OfficeFile {
                replica: self.replica(),
                last,
                stood: self.stood(),
                made,
            }),
            Err(JoinFault::Memory) => Err(AllocError),
            Err(JoinFault::Clash(_)) => unreachable!(),
        }
    }

    /// The office file after the office read a register that has seen this number of it, and made this one of it.
    pub fn left_by(
        &self,
        alloc: Global,
        stood: u32,
        register: &Register,
    ) -> Result<OfficeFile, AllocError>
        ensures { (x : Content) → stood ≡ greatest self.now.replica x.seen → IfOk result (λ f. f ≡ left_by self.now x register.now) }
    {
        let mut next = self.with_made(alloc, register)?;
        next.stood_to(stood);
        Ok(next)
    }

    /// Notes that this number stood in a register, or else the last one that the office gave.
    pub fn stood_to(&mut self, number: u32)
        ensures { self.new ≡ stood_to self.old number }
    {
        let stood = if self.stood < number {
            number
        } else {
            self.stood
        };
        self.stood = if stood < self.last { stood } else { self.last };
    }

    /// Whether it has other numbers than this one.
    pub fn is_changed(&self, other: &OfficeFile) -> bool
        ensures { result ≡ is_changed self.now other.now }
    {
        self.last != other.last || self.stood != other.stood
    }

    // The last number that the office gave, if it made what is in the register.
    fn last_in(&self, register: &Register) -> u32
        ensures { result ≡ (added self.now register.now).last }
    {
        let stands = last_count(register.seen(), self.replica);
        if self.last < stands {
            return stands;
        }
        self.last
    }

    // What the register has of the office above the last number.
    fn new_in(&self, alloc: Global, register: &Register) -> Result<Register, AllocError>
        ensures { IfOk result (λ x. x ≡ new_in self.now register.now) }
    {
        let all = register.ops().as_slice();
        let ops = self.new_ops(alloc, all)?;
        let greatest = last_count(register.seen(), self.replica());
        let seen = self.new_numbers(alloc, greatest)?;
        match Register::from_content(alloc, ops, seen) {
            Ok(register) => Ok(register),
            Err(ContentFault::Memory) => Err(AllocError),
            Err(ContentFault::NotKept(_)) => unreachable!(),
        }
    }

    // Copies of the operations that the office made above its last number.
    fn new_ops(&self, alloc: Global, ops: &[Op]) -> Result<Vec<Op>, AllocError>
        ensures { IfOk result (λ made. made.items ≡ new_ops self.now ops.now) }
    {
        let mut made = Vec::new(alloc);
        let mut rest = ops;
        while let [op, others @ ..] = rest {
            self.push_new(alloc, &mut made, op)?;
            rest = others;
        }
        Ok(made)
    }

    // Appends a copy of an operation, if the office made it above its last number.
    fn push_new(&self, alloc: Global, made: &mut Vec<Op>, op: &Op) -> Result<(), AllocError>
        ensures { OnOk result (made.new.items ≡ made.old.items ++ new_ops self.now (op.now ∷ [])) }
    {
        if !self.is_new(op.id()) {
            return Ok(());
        }
        made.push(op.try_clone(alloc)?)?;
        Ok(())
    }

    pub(crate) fn is_new(&self, id: OpId) -> bool
        ensures { result ≡ is_new self.now id }
    {
        is_of(id, self.replica) && self.last < id.count()
    }

    // The numbers above the last one, up to this one.
    fn new_numbers(&self, alloc: Global, greatest: u32) -> Result<Seen, AllocError>
        ensures { IfOk result (λ s. s ≡ set.from_list (ids_from self.now.replica (self.now.last + 1) (greatest - self.now.last))) }
    {
        let mut seen = Seen::new(alloc);
        if greatest <= self.last() {
            return Ok(seen);
        }
        seen.add_run(Run {
            replica: self.replica(),
            low: self.last() + 1,
            high: greatest,
        })?;
        Ok(seen)
    }
}
