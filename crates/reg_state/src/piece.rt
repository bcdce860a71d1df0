//! Pieces: the part of a register outside a basis.

ghost use Rattle.std.specs.Prelude.{◌≡◌, ◌↔◌, true, false, Ok, Err, Some, None, OnOk, IfOk};
ghost use Rattle.reg_op.specs.Set as set;
ghost use Rattle.reg_op.specs.Ids.{Id};
ghost use Rattle.reg_op.specs.Operations.{Op as Operation, op_cmp};
ghost use Rattle.reg_op.specs.Kept.{first_dropped};
ghost use Rattle.reg_op.specs.Lists.{ById, has, content_at};
ghost use Rattle.reg_op.specs.Pieces.{IsPiece, piece_for, joined_piece, Basis, Clash};
ghost use Rattle.reg_state.specs.Pieces.{piece_of};

use crate::register::{ContentFault, Register};
use crate::seen::Seen;
use reg_op::joining::{Join, JoinFault};
use reg_op::{Op, OpId};
use std::alloc::{AllocError, Global};
use std::fmt;
use std::marker::Model;

/// Why a piece is not joined.
#[derive(Clone, Copy, Debug, PartialEq, Eq)]
pub enum PieceFault {
    /// The least id of the basis that the register has not seen.
    Basis(OpId),
    /// The least id that has another body.
    Clash(OpId),
    Memory,
}

impl PieceFault {
    ghost use Rattle.reg_state.specs.Names.{piece_name, piece_id};

    /// The name that is printed.
    pub fn name(self) -> &'static str
        ensures { result.now ≡ piece_name self }
    {
        match self {
            PieceFault::Basis(_) => "Basis",
            PieceFault::Clash(_) => "Clash",
            PieceFault::Memory => "Memory",
        }
    }

    /// The id that it names, if any.
    pub fn id(self) -> Option<OpId>
        ensures { result ≡ piece_id self }
    {
        match self {
            PieceFault::Basis(id) => Some(id),
            PieceFault::Clash(id) => Some(id),
            PieceFault::Memory => None,
        }
    }
}

impl fmt::Display for PieceFault {
    fn fmt<W: fmt::Write>(&self, f: &mut fmt::Formatter<W>) -> fmt::Result {
        match self {
            PieceFault::Basis(id) => write!(f, "Basis {id}"),
            PieceFault::Clash(id) => write!(f, "Clash {id}"),
            PieceFault::Memory => f.write_str("out of memory"),
        }
    }
}

/// A piece: the operations and the seen ids that a register with the basis lacks.
#[derive(Drop)]
pub struct Piece {
    basis: Seen,
    part: Register,
}

impl Model for Piece {
    ghost use Rattle.reg_op.specs.Pieces.{Piece as PieceValue};
    ghost use Rattle.reg_op.specs.Codes.{piece_code};
    ghost use Rattle.reg_state.specs.Pieces.{piece_of, IsBasisOf};

    ghost Value = { PieceValue };

    ghost coded = { piece_code };

    ghost view = { λ p. piece_of p.basis p.part };

    ghost invariant = { λ p. IsBasisOf p.basis p.part };
}

impl Piece {
    /// A piece of operations ordered by id, all of them seen and none redundant. No seen id is in the basis.
    pub fn from_parts(
        alloc: Global,
        ops: Vec<Op>,
        basis: Seen,
        seen: Seen,
    ) -> Result<Piece, ContentFault>
        requires by_id { ById ops.items }
        requires are_seen { (o : Operation) → has ops.items o ≡ true → set.contains seen o.id ≡ true }
        requires apart { (i : Id) → set.contains seen i ≡ true → set.contains basis i ≡ false }
        ensures ok { IfOk result (λ p. p ≡ piece_of basis (content_at ops.items seen)) }
        ensures kept { OnOk result (first_dropped (set.from_list {R = op_cmp} ops.items) ≡ None) }
        ensures not_kept { (id : Id) → result ≡ Err (ContentFault.NotKept id) → first_dropped (set.from_list {R = op_cmp} ops.items) ≡ Some id }
    {
        let _first = basis.run(0);
        let part = Register::from_content(alloc, ops, seen)?;
        Ok(Piece { basis, part })
    }

    /// The ids that a register must have seen before it can join the piece.
    pub fn basis(&self) -> &Seen
        ensures value { result.now ≡ self.now.basis }
        ensures piece { IsPiece self.now }
    {
        let _ops = self.part.ops();
        &self.basis
    }

    /// The ids that were seen outside the basis.
    pub fn seen(&self) -> &Seen
        ensures value { result.now ≡ self.now.seen }
        ensures piece { IsPiece self.now }
    {
        self.part.seen()
    }

    /// The operations, by id.
    pub fn ops(&self) -> &[Op]
        ensures items { result.now ≡ set.items self.now.ops }
        ensures by_id { ById result.now }
        ensures piece { IsPiece self.now }
    {
        self.part.ops().as_slice()
    }
}

impl Register {
    /// The part of the register outside a basis: its operations and its seen ids.
    pub fn piece_for(&self, alloc: Global, basis: &Seen) -> Result<Piece, AllocError>
        ensures { IfOk result (λ piece. piece ≡ piece_for self.now basis.now) }
    {
        let part = self.outside(alloc, basis)?;
        let _first = basis.run(0);
        let basis = basis.try_clone(alloc)?;
        Ok(Piece { basis, part })
    }

    /// Joins a piece, if its basis was seen. A missing id of the basis is reported first, then a clash, both before
    /// anything is allocated.
    pub fn join_piece(&self, alloc: Global, piece: &Piece) -> Result<Register, PieceFault>
        ensures ok { IfOk result (λ r. joined_piece self.now piece.now ≡ Ok r) }
        ensures basis { (id : Id) → (result ≡ Err (PieceFault.Basis id)) ↔ (joined_piece self.now piece.now ≡ Err (Basis id)) }
        ensures clash { (id : Id) → (result ≡ Err (PieceFault.Clash id)) ↔ (joined_piece self.now piece.now ≡ Err (Clash id)) }
    {
        if let Some(id) = piece.basis.first_outside(self.seen()) {
            return Err(PieceFault::Basis(id));
        }
        match self.join(alloc, &piece.part) {
            Ok(register) => Ok(register),
            Err(fault) => match fault {
                JoinFault::Clash(id) => Err(PieceFault::Clash(id)),
                JoinFault::Memory => Err(PieceFault::Memory),
            },
        }
    }
}
