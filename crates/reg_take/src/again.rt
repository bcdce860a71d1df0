//! Pieces that are tried again: the basis of a piece may come with a later one.

ghost use Rattle.std.specs.Prelude.{ℕ, IfOk};
ghost use Rattle.reg_take.specs.Taken.{Progress, Shows, tried, each_tried, tried_again, rounds, AllWait};

use crate::files::Arrival;
use crate::taking::{LeftOut, Taking};
use std::alloc::{AllocError, Global};

impl Taking {
    // Tries a file again, if it is a piece that waits for its basis.
    fn try_one(
        self,
        alloc: Global,
        arrivals: &[Arrival],
        one: &LeftOut,
    ) -> Result<Taking, AllocError>
        ensures { (t : Progress) → Shows self t → IfOk result (λ new. Shows new (tried arrivals.now t one.now)) }
    {
        match one {
            LeftOut::Basis { file, .. } => match arrivals.get(*file) {
                Some(Arrival::Piece(piece)) => self.take_piece(alloc, *file, piece),
                _ => self.leave(*one),
            },
            _ => self.leave(*one),
        }
    }

    // Tries each of these files again.
    fn try_each(
        self,
        alloc: Global,
        arrivals: &[Arrival],
        waiting: &[LeftOut],
    ) -> Result<Taking, AllocError>
        ensures { (t : Progress) → Shows self t → IfOk result (λ new. Shows new (each_tried arrivals.now t waiting.now)) }
    {
        let mut taking = self;
        let mut rest = waiting;
        while let Some((one, others)) = rest.split_first() {
            taking = taking.try_one(alloc, arrivals, one)?;
            rest = others;
        }
        Ok(taking)
    }

    // Tries each file again that is left out.
    fn try_all(self, alloc: Global, arrivals: &[Arrival]) -> Result<Taking, AllocError>
        ensures { (t : Progress) → Shows self t → IfOk result (λ new. Shows new (tried_again arrivals.now t)) }
    {
        let Taking { register, left } = self;
        let cleared = Taking {
            register,
            left: Vec::new(alloc),
        };
        cleared.try_each(alloc, arrivals, &left)
    }

    /// Tries the pieces again that wait for their bases, until none of them can be joined.
    pub(crate) fn try_again(self, alloc: Global, arrivals: &[Arrival]) -> Result<Taking, AllocError>
        ensures { (t : Progress) → Shows self t → IfOk result (λ new. (n : ℕ) × Shows new (rounds arrivals.now n t) × AllWait arrivals.now (rounds arrivals.now n t)) }
    {
        let mut before = self.left.len();
        let mut taking = self.try_all(alloc, arrivals)?;
        while taking.left.len() < before {
            before = taking.left.len();
            taking = taking.try_all(alloc, arrivals)?;
        }
        Ok(taking)
    }
}
