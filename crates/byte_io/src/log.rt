//! A list of bytes that only proofs read. It takes no memory, so its length has no limit.
ghost use Rattle.std.specs.Prelude.{◌≡◌, ℕ, List, [], ◌++◌};
ghost use Rattle.std.specs.Borrow.{ftrue};

use std::marker::Model;

/// The bytes that a device has moved. Clauses name them `bytes`.
#[derive(Drop)]
pub struct Log {
    pub ghost bytes: { List ℕ },
}

impl Model for Log {
    ghost also_owns = { λ _. ftrue };
}

impl Log {
    /// No bytes.
    pub fn empty() -> Log
        ensures { result.bytes ≡ [] }
    {
        Log {}
    }

    /// Adds these bytes.
    pub fn note(&mut self, _bytes: &[u8])
        ensures { self.new.bytes ≡ self.old.bytes ++ _bytes.now }
    {}
}
