//! Joins files to a register, and leaves out those that are refused.

ghost use Rattle.std.specs.Prelude.{◌≡◌, ◌++◌, ◌∷◌, [], IfOk};
ghost use Rattle.reg_op.specs.Contents.{joined};
ghost use Rattle.reg_op.specs.Pieces.{PieceRefusal, joined_piece};
ghost use Rattle.reg_commands.specs.Merge.{begun};
ghost use Rattle.reg_take.specs.Taken.{Progress, Shows, file_of, fault_of, left_out, after_register, after_piece, taken, each_taken, IsRefusal};

use crate::files::Arrival;
use reg_engine::{CliFault, InputFault, Refusal};
use reg_op::OpId;
use reg_state::{Join, JoinFault, Piece, PieceFault, Register};
use std::alloc::{AllocError, Global};
use std::fmt;

/// A file that is left out: its index among the files, from 0, and why. It prints as the line of the fault without `file K: ` or
/// `refused: `.
#[derive(Clone, Copy)]
pub enum LeftOut {
    /// It was not read. The number counts all files that the command reads.
    Unread {
        file: usize,
        number: usize,
        fault: InputFault,
    },
    /// It clashes with what was joined before.
    Clash {
        file: usize,
        id: OpId,
    },
    /// It is a piece whose basis was not seen.
    Basis {
        file: usize,
        id: OpId,
    },
    /// Somebody else gave this number in the name of the office.
    Forged {
        file: usize,
        id: OpId,
    },
}

impl LeftOut {
    /// Its index among the files, from 0.
    pub fn file(&self) -> usize
        ensures { result ≡ file_of self.now }
    {
        match self {
            LeftOut::Unread { file, .. } => *file,
            LeftOut::Clash { file, .. } => *file,
            LeftOut::Basis { file, .. } => *file,
            LeftOut::Forged { file, .. } => *file,
        }
    }

    /// Why it is left out.
    pub fn fault(&self) -> CliFault
        ensures { result ≡ fault_of self.now }
    {
        match self {
            LeftOut::Unread { number, fault, .. } => CliFault::File {
                number: *number,
                fault: *fault,
            },
            LeftOut::Clash { id, .. } => CliFault::Refused(Refusal::Clash(*id)),
            LeftOut::Basis { id, .. } => CliFault::Refused(Refusal::Basis(*id)),
            LeftOut::Forged { id, .. } => CliFault::Refused(Refusal::Forged(*id)),
        }
    }
}

impl fmt::Display for LeftOut {
    fn fmt<W: fmt::Write>(&self, f: &mut fmt::Formatter<W>) -> fmt::Result {
        match self {
            LeftOut::Unread { fault, .. } => fault.fmt(f),
            LeftOut::Clash { id, .. } => Refusal::Clash(*id).fmt(f),
            LeftOut::Basis { id, .. } => Refusal::Basis(*id).fmt(f),
            LeftOut::Forged { id, .. } => Refusal::Forged(*id).fmt(f),
        }
    }
}

/// What a walk over the files does: it leaves out those that were not read, or those with forged numbers; it joins the registers, or
/// the pieces.
#[derive(Clone, Copy)]
pub enum TakePhase {
    Unread,
    Forged,
    Registers,
    Pieces,
}

/// The register so far, and the files that are left out.
#[derive(Drop)]
pub struct Taking {
    pub register: Register,
    pub left: Vec<LeftOut>,
}

impl Taking {
    pub(crate) fn leave(self, one: LeftOut) -> Result<Taking, AllocError>
        ensures register { IfOk result (λ new. new.register ≡ self.register) }
        ensures left { IfOk result (λ new. new.left.items ≡ self.left.items ++ one ∷ []) }
    {
        let Taking { register, left } = self;
        let mut all = left;
        all.push(one)?;
        Ok(Taking {
            register,
            left: all,
        })
    }

    fn refuse_piece(self, file: usize, fault: PieceFault) -> Result<Taking, AllocError>
        ensures register { IfOk result (λ new. new.register ≡ self.register) }
        ensures left { IfOk result (λ new. (why : PieceRefusal) × IsRefusal fault why × (new.left.items ≡ self.left.items ++ left_out file why ∷ [])) }
    {
        match fault {
            PieceFault::Basis(id) => self.leave(LeftOut::Basis { file, id }),
            PieceFault::Clash(id) => self.leave(LeftOut::Clash { file, id }),
            PieceFault::Memory => Err(AllocError),
        }
    }

    pub(crate) fn with(self, joined: Register) -> Taking
        ensures register { result.register ≡ joined }
        ensures left { result.left.items ≡ self.left.items }
    {
        let Taking { register: _, left } = self;
        Taking {
            register: joined,
            left,
        }
    }

    // Joins a register, unless it clashes.
    fn take_register(
        self,
        alloc: Global,
        file: usize,
        register: &Register,
    ) -> Result<Taking, AllocError>
        ensures { (t : Progress) → Shows self t → IfOk result (λ new. Shows new (after_register t file register.now (begun (joined t.content register.now)))) }
    {
        match self.register.join(alloc, register) {
            Ok(joined) => Ok(self.with(joined)),
            Err(JoinFault::Clash(id)) => self.leave(LeftOut::Clash { file, id }),
            Err(JoinFault::Memory) => Err(AllocError),
        }
    }

    // Joins a piece, unless its basis is not held or it clashes.
    pub(crate) fn take_piece(
        self,
        alloc: Global,
        file: usize,
        piece: &Piece,
    ) -> Result<Taking, AllocError>
        ensures { (t : Progress) → Shows self t → IfOk result (λ new. Shows new (after_piece t file piece.now (joined_piece t.content piece.now))) }
    {
        match self.register.join_piece(alloc, piece) {
            Ok(joined) => Ok(self.with(joined)),
            Err(fault) => self.refuse_piece(file, fault),
        }
    }

    // What the walk does with one file.
    fn step(
        self,
        alloc: Global,
        phase: TakePhase,
        file: usize,
        arrival: &Arrival,
    ) -> Result<Taking, AllocError>
        ensures { (t : Progress) → Shows self t → IfOk result (λ new. Shows new (taken phase t file arrival.now)) }
    {
        match arrival {
            Arrival::Unread { number, fault } => match phase {
                TakePhase::Unread => self.leave(LeftOut::Unread {
                    file,
                    number: *number,
                    fault: *fault,
                }),
                TakePhase::Forged => Ok(self),
                TakePhase::Registers => Ok(self),
                TakePhase::Pieces => Ok(self),
            },
            Arrival::Register(register) => match phase {
                TakePhase::Unread => Ok(self),
                TakePhase::Forged => Ok(self),
                TakePhase::Registers => self.take_register(alloc, file, register),
                TakePhase::Pieces => Ok(self),
            },
            Arrival::Piece(piece) => match phase {
                TakePhase::Unread => Ok(self),
                TakePhase::Forged => Ok(self),
                TakePhase::Registers => Ok(self),
                TakePhase::Pieces => self.take_piece(alloc, file, piece),
            },
            Arrival::Forged(id) => match phase {
                TakePhase::Unread => Ok(self),
                TakePhase::Forged => self.leave(LeftOut::Forged { file, id: *id }),
                TakePhase::Registers => Ok(self),
                TakePhase::Pieces => Ok(self),
            },
        }
    }

    /// One of the walks over the files.
    pub(crate) fn walk(
        self,
        alloc: Global,
        phase: TakePhase,
        arrivals: &[Arrival],
    ) -> Result<Taking, AllocError>
        ensures { (t : Progress) → Shows self t → IfOk result (λ new. Shows new (each_taken phase t 0 arrivals.now)) }
    {
        let mut taking = self;
        for (file, arrival) in arrivals.iter().enumerate() {
            taking = taking.step(alloc, phase, file, arrival)?;
        }
        Ok(taking)
    }
}
