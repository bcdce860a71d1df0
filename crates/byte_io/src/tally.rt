//! A count that only proofs read. It takes no memory, so it has no limit.
ghost use Rattle.std.specs.Prelude.{◌≡◌, ℕ, ◌+◌};
ghost use Rattle.std.specs.Borrow.{ftrue};

use std::marker::Model;

/// The number of times that something has happened. Clauses name it `count`.
#[derive(Drop)]
pub struct Tally {
    pub ghost count: { ℕ },
}

impl Model for Tally {
    ghost also_owns = { λ _. ftrue };
}

impl Tally {
    /// The count 0.
    pub fn none() -> Tally
        ensures { result.count ≡ 0 }
    {
        Tally {}
    }

    /// The count after one more time.
    pub fn after(_before: &Tally) -> Tally
        ensures { result.count ≡ _before.now.count + 1 }
    {
        Tally {}
    }
}
