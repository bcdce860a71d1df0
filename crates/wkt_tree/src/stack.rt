//! The delimiters that are open.

ghost use Rattle.std.specs.Prelude.{◌≡◌, ◌<◌, ◌≤◌, ◌^◌, List, [], ◌∷◌, length, Some, None, IsTrue, ◌↔◌, nat_le, if◌then◌else◌};
ghost use Rattle.std.specs.Bool.{OnFalse};
ghost use Rattle.wkt_tree.specs.declared.token.Delimiter.{Delimiter};
ghost use Rattle.wkt_tree.specs.Bits.{delimiter, delimiters};
ghost use Rattle.wkt_tree.specs.Machine.{closed, state};

use crate::machine::Phase;
use crate::token::Delimiter;
use std::marker::Model;

/// How many delimiters may be open at once.
const LIMIT: u32 = 16;

/// At most sixteen delimiters, the innermost first: a bit for each, the innermost the lowest.
#[derive(Drop)]
pub(crate) struct Stack {
    depth: u32,
    rounds: u32,
}

impl Model for Stack {
    ghost Value = { List Delimiter };

    ghost view = { λ s. delimiters s.depth s.rounds };

    ghost invariant = { λ s. (s.depth ≤ 16) × (s.rounds < 2 ^ s.depth) };
}

#[inline(always)]
fn bit_of(kind: Delimiter) -> u32
    ensures below { result < 2 }
    ensures stands { delimiter result ≡ kind }
{
    match kind {
        Delimiter::Square => 0,
        Delimiter::Round => 1,
    }
}

impl Stack {
    #[inline(always)]
    pub(crate) fn new() -> Self
        ensures { result ≡ [] }
    {
        Stack {
            depth: 0,
            rounds: 0,
        }
    }

    #[inline(always)]
    pub(crate) fn is_full(&self) -> bool
        ensures { result ≡ nat_le 16 (length self.now) }
    {
        self.depth == LIMIT
    }

    #[inline(always)]
    pub(crate) fn is_empty(&self) -> bool
        ensures { IsTrue result ↔ (self.now ≡ []) }
    {
        self.depth == 0
    }

    #[inline(always)]
    pub(crate) fn push(&mut self, kind: Delimiter)
        requires { length self.old < 16 }
        ensures { self.new ≡ kind ∷ self.old }
    {
        self.rounds = self.rounds * 2 + bit_of(kind);
        self.depth += 1;
    }

    /// Removes the innermost, if it is of this kind.
    #[inline(always)]
    pub(crate) fn pop(&mut self, kind: Delimiter) -> bool
        ensures ends { closed kind self.old ≡ (if result then Some (state Phase.Past self.new) else None) }
        ensures kept { OnFalse result (self.new ≡ self.old) }
    {
        if self.depth == 0 || self.rounds % 2 != bit_of(kind) {
            return false;
        }
        self.rounds /= 2;
        self.depth -= 1;
        true
    }
}
