//! What each file had that was joined, as far as the register tells.

ghost use Rattle.std.specs.Prelude.{◌≡◌, ◌++◌, ◌∷◌, IfOk, OnOk};
ghost use Rattle.reg_take.specs.Inputs.{read, is_left, joined_at, inputs_from};

use crate::effect::TakeEffect;
use crate::files::Arrival;
use crate::taking::LeftOut;
use reg_state::Register;
use reg_tree::undone::piece_over;
use std::alloc::{AllocError, Global};

// Appends what the file had, if it gave a register or a piece.
fn push_read(
    alloc: Global,
    made: &mut Vec<Register>,
    register: &Register,
    arrival: &Arrival,
) -> Result<(), AllocError>
    ensures { OnOk result (made.new.items ≡ made.old.items ++ read register.now arrival.now) }
{
    match arrival {
        Arrival::Register(other) => {
            made.push(other.try_clone(alloc)?)?;
            Ok(())
        }
        Arrival::Piece(piece) => {
            made.push(piece_over(alloc, register, piece)?)?;
            Ok(())
        }
        Arrival::Unread { .. } => Ok(()),
        Arrival::Forged(_) => Ok(()),
    }
}

// Whether the file with this index is left out.
fn is_left(left: &[LeftOut], file: usize) -> bool
    ensures { result ≡ is_left left.now file }
{
    left.iter().any(|one| one.file() == file)
}

// Appends what the file with this index had, unless it is left out.
fn push_joined(
    alloc: Global,
    made: &mut Vec<Register>,
    effect: &TakeEffect,
    file: usize,
    arrival: &Arrival,
) -> Result<(), AllocError>
    ensures { OnOk result (made.new.items ≡ made.old.items ++ joined_at effect.now.before effect.now.left.items file arrival.now) }
{
    if is_left(&effect.left, file) {
        return Ok(());
    }
    push_read(alloc, made, &effect.before, arrival)
}

/// The register before a take, and what each file had that was joined to it: a register, or a piece, read over the register before.
pub fn inputs_of(alloc: Global, effect: &TakeEffect) -> Result<Vec<Register>, AllocError>
    ensures { IfOk result (λ made. made.items ≡ effect.now.before ∷ inputs_from effect.now.before effect.now.left.items 0 effect.now.arrivals.items) }
{
    let mut made = Vec::new(alloc);
    made.push(effect.before.try_clone(alloc)?)?;
    for (file, arrival) in effect.arrivals.iter().enumerate() {
        push_joined(alloc, &mut made, effect, file, arrival)?;
    }
    Ok(made)
}
