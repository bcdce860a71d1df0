//! Keys in the order of their bytes.

ghost use Rattle.std.specs.Prelude.{◌≡◌, IfOk};

use crs_part::TryClone;
use std::alloc::{AllocError, Global};
use std::cmp::Ordering;
use wkt_crs::SharedKey;

/// A key in an index. The bytes of the authority order keys, and then those of the code.
#[derive(Drop)]
pub struct IndexedKey {
    pub key: SharedKey,
}

impl IndexedKey {
    /// This key.
    pub fn of(alloc: Global, key: &SharedKey) -> Result<IndexedKey, AllocError>
        ensures { IfOk result (λ made. made.key ≡ key.now) }
    {
        let key = key.try_clone(alloc)?;
        Ok(IndexedKey { key })
    }
}

impl PartialEq for IndexedKey {
    ghost use Rattle.std.specs.Ordering.{nat_cmp, on, then_cmp, eq_by_cmp};
    ghost use Rattle.std.specs.Cmp.Lexicographic.{slice_cmp};
    ghost use Rattle.std.specs.Cmp.Rules.{comparing};
    ghost use Rattle.std.proofs.Common.{rules};

    ghost eq = { eq_by_cmp (then_cmp (on (λ k. k.key.authority.bytes) (slice_cmp nat_cmp)) (on (λ k. k.key.code.bytes) (slice_cmp nat_cmp))) };

    ghost laws = { Prim.search (comparing, rules) };

    fn eq(&self, other: &IndexedKey) -> bool {
        self.cmp(other).is_eq()
    }
}

impl Eq for IndexedKey {
    ghost use Rattle.std.specs.Cmp.Rules.{comparing};
    ghost use Rattle.std.proofs.Common.{rules};

    ghost laws = { Prim.search (comparing, rules) };
}

impl PartialOrd for IndexedKey {
    ghost use Rattle.std.specs.Ordering.{nat_cmp, on, then_cmp, as_partial_cmp};
    ghost use Rattle.std.specs.Cmp.Lexicographic.{slice_cmp};
    ghost use Rattle.std.specs.Cmp.{partial_order_from_own_ties};
    ghost use Rattle.std.specs.Cmp.Rules.{comparing};
    ghost use Rattle.std.proofs.Common.{rules};

    ghost partial_cmp = { as_partial_cmp (then_cmp (on (λ k. k.key.authority.bytes) (slice_cmp nat_cmp)) (on (λ k. k.key.code.bytes) (slice_cmp nat_cmp))) };

    ghost laws = { partial_order_from_own_ties (Prim.search (comparing, rules)) (Prim.search (comparing, rules)) };

    fn partial_cmp(&self, other: &IndexedKey) -> Option<Ordering> {
        Some(self.cmp(other))
    }
}

impl Ord for IndexedKey {
    ghost use Rattle.std.specs.Prelude.{refl};
    ghost use Rattle.std.specs.Ordering.{nat_cmp, on, then_cmp};
    ghost use Rattle.std.specs.Cmp.Lexicographic.{slice_cmp};
    ghost use Rattle.std.specs.Cmp.Rules.{comparing};
    ghost use Rattle.std.proofs.Common.{rules};

    ghost cmp = { then_cmp (on (λ k. k.key.authority.bytes) (slice_cmp nat_cmp)) (on (λ k. k.key.code.bytes) (slice_cmp nat_cmp)) };

    ghost total = { Prim.search (comparing, rules) };

    ghost matches_partial_cmp = { λ a b. refl };

    ghost matches_eq = { λ a b. refl };

    fn cmp(&self, other: &IndexedKey) -> Ordering {
        let mine = self.key.get();
        let its = other.key.get();
        mine.authority
            .as_bytes()
            .cmp(its.authority.as_bytes())
            .then(mine.code.as_bytes().cmp(its.code.as_bytes()))
    }
}
