//! Pieces, joined to a register at once if none is refused.

ghost use Rattle.std.specs.Prelude.{◌≡◌, ◌∷◌, map, Ok, Err, IfOk};
ghost use Rattle.std.specs.Bool.{OnTrue};
ghost use Rattle.reg_op.specs.Ids.{Id};
ghost use Rattle.reg_op.specs.Pieces.{part_of, Basis, Clash};
ghost use Rattle.reg_tree.specs.Chain.{Fit, with_pieces};
ghost use Rattle.reg_tree.specs.Listed.{ops_at, ops_in};

use crate::agreeing::{agree, push_ops};
use crate::needs::needs_of;
use crate::registers::join_halves;
use reg_op::Op;
use reg_op::joining::Join;
use reg_state::{Piece, PieceFault, Register};
use std::alloc::{AllocError, Global};

// The operations of the register and of the pieces.
fn ops_with<'a>(
    alloc: Global,
    register: &'a Register,
    pieces: &'a [Piece],
) -> Result<Vec<&'a Op>, AllocError>
    ensures { IfOk result (λ made. ops_at made.items ≡ ops_in (register.now ∷ map part_of pieces.now)) }
{
    let mut made = Vec::new(alloc);
    push_ops(&mut made, register.ops().as_slice())?;
    for piece in pieces {
        push_ops(&mut made, piece.ops())?;
    }
    Ok(made)
}

// Whether nothing is refused when the pieces are joined to the register.
fn fit(alloc: Global, register: &Register, pieces: &[Piece]) -> Result<bool, AllocError>
    ensures { IfOk result (λ fit. OnTrue fit (Fit register.now pieces.now)) }
{
    let needs = needs_of(alloc, pieces)?;
    if needs.basis.first_outside(register.seen()).is_some() {
        return Ok(false);
    }
    let ops = ops_with(alloc, register, pieces)?;
    agree(ops)
}

fn copies(alloc: Global, ops: &[Op]) -> Result<Vec<Op>, AllocError>
    ensures { IfOk result (λ made. made.items ≡ ops.now) }
{
    let mut made = Vec::with_capacity(alloc, ops.len())?;
    for op in ops {
        made.push(op.try_clone(alloc)?)?;
    }
    Ok(made)
}

// The register of what a piece brings.
fn register_of(alloc: Global, piece: &Piece) -> Result<Register, AllocError>
    ensures { IfOk result (λ register. register ≡ part_of piece.now) }
{
    let ops = copies(alloc, piece.ops())?;
    let seen = piece.seen().try_clone(alloc)?;
    match Register::from_content(alloc, ops, seen) {
        Ok(register) => Ok(register),
        Err(_) => Err(AllocError),
    }
}

fn registers_of(alloc: Global, pieces: &[Piece]) -> Result<Vec<Register>, AllocError>
    ensures { IfOk result (λ made. made.items ≡ map part_of pieces.now) }
{
    let mut made = Vec::new(alloc);
    for piece in pieces {
        made.push(register_of(alloc, piece)?)?;
    }
    Ok(made)
}

fn join_at_once(
    alloc: Global,
    register: &Register,
    pieces: &[Piece],
) -> Result<Register, AllocError>
    requires { Fit register.now pieces.now }
    ensures { IfOk result (λ r. with_pieces (Ok register.now) pieces.now ≡ Ok r) }
{
    let parts = registers_of(alloc, pieces)?;
    let brought = join_halves(alloc, &parts)?;
    match register.join(alloc, &brought) {
        Ok(all) => Ok(all),
        Err(_) => Err(AllocError),
    }
}

// The pieces, joined to the register one after another.
fn join_each(alloc: Global, register: Register, pieces: &[Piece]) -> Result<Register, PieceFault>
    ensures ok { IfOk result (λ r. with_pieces (Ok register) pieces.now ≡ Ok r) }
    ensures basis { (id : Id) → result ≡ Err (PieceFault.Basis id) → with_pieces (Ok register) pieces.now ≡ Err (Basis id) }
    ensures clash { (id : Id) → result ≡ Err (PieceFault.Clash id) → with_pieces (Ok register) pieces.now ≡ Err (Clash id) }
{
    let mut joined = register;
    for piece in pieces {
        joined = match joined.join_piece(alloc, piece) {
            Ok(joined) => joined,
            Err(fault) => return Err(fault),
        };
    }
    Ok(joined)
}

/// Joins the pieces to the register, as if one after another. If one is refused, they are joined in this way, so that the first
/// refusal is found. Otherwise pieces of n operations in all take n log n steps.
pub fn join_pieces(
    alloc: Global,
    register: Register,
    pieces: &[Piece],
) -> Result<Register, PieceFault>
    ensures ok { IfOk result (λ r. with_pieces (Ok register) pieces.now ≡ Ok r) }
    ensures basis { (id : Id) → result ≡ Err (PieceFault.Basis id) → with_pieces (Ok register) pieces.now ≡ Err (Basis id) }
    ensures clash { (id : Id) → result ≡ Err (PieceFault.Clash id) → with_pieces (Ok register) pieces.now ≡ Err (Clash id) }
{
    if pieces.len() < 2 {
        return join_each(alloc, register, pieces);
    }
    match fit(alloc, &register, pieces) {
        Ok(true) => match join_at_once(alloc, &register, pieces) {
            Ok(all) => Ok(all),
            Err(_) => Err(PieceFault::Memory),
        },
        Ok(false) => join_each(alloc, register, pieces),
        Err(_) => Err(PieceFault::Memory),
    }
}
