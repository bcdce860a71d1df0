//! Registers, and pieces, that are joined at once if none of them is refused.

ghost use Rattle.std.specs.Prelude.{◌≡◌, ◌++◌, [], ◌∷◌, IfOk, OnOk};
ghost use Rattle.reg_take.specs.Taken.{Progress, Shows, each_taken};
ghost use Rattle.reg_take.specs.AtOnce.{registers_in, pieces_in};
ghost use Rattle.reg_take.specs.declared.taking.TakePhase.TheVariants as phase;

use crate::files::Arrival;
use crate::taking::{TakePhase, Taking};
use reg_op::Op;
use reg_state::{JoinFault, Piece, PieceFault, Register};
use reg_tree::{join_pieces, join_registers};
use std::alloc::{AllocError, Global};

// Appends a copy of a register, if the file gave one.
fn push_register(
    alloc: Global,
    made: &mut Vec<Register>,
    arrival: &Arrival,
) -> Result<(), AllocError>
    ensures { OnOk result (made.new.items ≡ made.old.items ++ registers_in (arrival.now ∷ [])) }
{
    match arrival {
        Arrival::Register(register) => {
            made.push(register.try_clone(alloc)?)?;
            Ok(())
        }
        Arrival::Piece(_) => Ok(()),
        Arrival::Unread { .. } => Ok(()),
        Arrival::Forged(_) => Ok(()),
    }
}

// Copies of a register and of the registers among the files, in order.
fn with_registers(
    alloc: Global,
    register: &Register,
    arrivals: &[Arrival],
) -> Result<Vec<Register>, AllocError>
    ensures { IfOk result (λ made. made.items ≡ register.now ∷ registers_in arrivals.now) }
{
    let mut made = Vec::new(alloc);
    made.push(register.try_clone(alloc)?)?;
    let mut rest = arrivals;
    while let Some((arrival, others)) = rest.split_first() {
        push_register(alloc, &mut made, arrival)?;
        rest = others;
    }
    Ok(made)
}

fn copies(alloc: Global, ops: &[Op]) -> Result<Vec<Op>, AllocError>
    ensures { IfOk result (λ made. made.items ≡ ops.now) }
{
    let mut made = Vec::with_capacity(alloc, ops.len())?;
    for op in ops {
        made.push(op.try_clone(alloc)?)?;
    }
    Ok(made)
}

fn copy(alloc: Global, piece: &Piece) -> Result<Piece, AllocError>
    ensures { IfOk result (λ copy. copy ≡ piece.now) }
{
    let ops = copies(alloc, piece.ops())?;
    let basis = piece.basis().try_clone(alloc)?;
    let seen = piece.seen().try_clone(alloc)?;
    match Piece::from_parts(alloc, ops, basis, seen) {
        Ok(copy) => Ok(copy),
        Err(_) => Err(AllocError),
    }
}

// Appends a copy of a piece, if the file gave one.
fn push_piece(alloc: Global, made: &mut Vec<Piece>, arrival: &Arrival) -> Result<(), AllocError>
    ensures { OnOk result (made.new.items ≡ made.old.items ++ pieces_in (arrival.now ∷ [])) }
{
    match arrival {
        Arrival::Piece(piece) => {
            made.push(copy(alloc, piece)?)?;
            Ok(())
        }
        Arrival::Register(_) => Ok(()),
        Arrival::Unread { .. } => Ok(()),
        Arrival::Forged(_) => Ok(()),
    }
}

// Copies of the pieces among the files, in order.
fn copies_of_pieces(alloc: Global, arrivals: &[Arrival]) -> Result<Vec<Piece>, AllocError>
    ensures { IfOk result (λ made. made.items ≡ pieces_in arrivals.now) }
{
    let mut made = Vec::new(alloc);
    let mut rest = arrivals;
    while let Some((arrival, others)) = rest.split_first() {
        push_piece(alloc, &mut made, arrival)?;
        rest = others;
    }
    Ok(made)
}

impl Taking {
    /// Joins the registers among the files. If one is refused, they are joined in order, and those that are refused are left out.
    pub(crate) fn take_registers(
        self,
        alloc: Global,
        arrivals: &[Arrival],
    ) -> Result<Taking, AllocError>
        ensures { (t : Progress) → Shows self t → IfOk result (λ new. Shows new (each_taken phase.Registers t 0 arrivals.now)) }
    {
        if arrivals.len() < 3 {
            return self.walk(alloc, TakePhase::Registers, arrivals);
        }
        let _seen = self.register.seen();
        let all = with_registers(alloc, &self.register, arrivals)?;
        match join_registers(alloc, &all) {
            Ok(joined) => Ok(self.with(joined)),
            Err(JoinFault::Clash(_)) => self.walk(alloc, TakePhase::Registers, arrivals),
            Err(JoinFault::Memory) => Err(AllocError),
        }
    }

    /// Joins the pieces among the files. If one is refused, they are joined in order, and those that are refused are left out.
    pub(crate) fn take_pieces(
        self,
        alloc: Global,
        arrivals: &[Arrival],
    ) -> Result<Taking, AllocError>
        ensures { (t : Progress) → Shows self t → IfOk result (λ new. Shows new (each_taken phase.Pieces t 0 arrivals.now)) }
    {
        let pieces = copies_of_pieces(alloc, arrivals)?;
        if pieces.len() < 3 {
            return self.walk(alloc, TakePhase::Pieces, arrivals);
        }
        let register = self.register.try_clone(alloc)?;
        match join_pieces(alloc, register, &pieces) {
            Ok(joined) => Ok(self.with(joined)),
            Err(PieceFault::Memory) => Err(AllocError),
            Err(_) => self.walk(alloc, TakePhase::Pieces, arrivals),
        }
    }
}
