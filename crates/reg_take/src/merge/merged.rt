//! The registers that were merged, and their join.

ghost use Rattle.std.specs.Prelude.{◌≡◌, ◌++◌, map, IfOk, OnOk};
ghost use Rattle.reg_news.specs.News.{IsNews};
ghost use Rattle.reg_take.specs.Merging.{first_of};
ghost use Rattle.reg_tree.specs.Over.{piece_over};

use reg_news::{News, news_of};
use reg_state::{Piece, Register};
use reg_tree::undone::piece_over;
use std::alloc::{AllocError, Global};

/// The registers and the pieces that were merged, in order, and the join of all.
#[derive(Drop)]
pub struct Merged {
    pub registers: Vec<Register>,
    pub pieces: Vec<Piece>,
    pub joined: Register,
}

impl Merged {
    /// What the join has and the first register has not. Without registers, the first one is empty.
    pub fn news(&self, alloc: Global) -> Result<News, AllocError>
        ensures { IfOk result (IsNews (first_of self.now.registers.items) self.now.joined) }
    {
        news_since(alloc, &self.registers, &self.joined)
    }

    /// The registers, and what each piece had, as far as the first register tells.
    pub fn inputs(&self, alloc: Global) -> Result<Vec<Register>, AllocError>
        ensures { IfOk result (λ made. made.items ≡ self.now.registers.items ++ map (piece_over (first_of self.now.registers.items)) self.now.pieces.items) }
    {
        let mut made = Vec::new(alloc);
        push_copies(alloc, &mut made, &self.registers)?;
        match self.registers.split_first() {
            Some((first, _)) => push_over(alloc, &mut made, first, &self.pieces)?,
            None => push_over(alloc, &mut made, &Register::new(alloc), &self.pieces)?,
        }
        Ok(made)
    }
}

fn push_copies(
    alloc: Global,
    made: &mut Vec<Register>,
    registers: &[Register],
) -> Result<(), AllocError>
    ensures { OnOk result (made.new.items ≡ made.old.items ++ registers.now) }
{
    for register in registers {
        made.push(register.try_clone(alloc)?)?;
    }
    Ok(())
}

// Appends what each piece had, as far as the register tells.
fn push_over(
    alloc: Global,
    made: &mut Vec<Register>,
    register: &Register,
    pieces: &[Piece],
) -> Result<(), AllocError>
    ensures { OnOk result (made.new.items ≡ made.old.items ++ map (piece_over register.now) pieces.now) }
{
    for piece in pieces {
        made.push(piece_over(alloc, register, piece)?)?;
    }
    Ok(())
}

fn news_since(alloc: Global, registers: &[Register], joined: &Register) -> Result<News, AllocError>
    ensures { IfOk result (IsNews (first_of registers.now) joined.now) }
{
    let Some((first, _)) = registers.split_first() else {
        return news_of(alloc, &Register::new(alloc), joined);
    };
    news_of(alloc, first, joined)
}
