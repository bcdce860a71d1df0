//! Texts of definitions in the order of their bytes.

ghost use Rattle.std.specs.Prelude.{◌≡◌, IfOk};

use std::alloc::{AllocError, Global};
use std::cmp::Ordering;
use wkt_crs::Definition;

/// The text of a definition in an index.
#[derive(Drop)]
pub struct IndexedText {
    pub definition: Definition,
}

impl IndexedText {
    /// The text of this definition, which is not copied.
    pub fn of(alloc: Global, definition: &Definition) -> Result<IndexedText, AllocError>
        ensures { IfOk result (λ made. made.definition ≡ definition.now) }
    {
        let definition = definition.try_clone(alloc)?;
        Ok(IndexedText { definition })
    }
}

impl PartialEq for IndexedText {
    ghost use Rattle.std.specs.Ordering.{nat_cmp, on, eq_by_cmp};
    ghost use Rattle.std.specs.Cmp.Lexicographic.{slice_cmp};
    ghost use Rattle.std.specs.Cmp.Rules.{comparing};
    ghost use Rattle.std.proofs.Common.{rules};

    ghost eq = { eq_by_cmp (on (λ t. t.definition) (slice_cmp nat_cmp)) };

    ghost laws = { Prim.search (comparing, rules) };

    fn eq(&self, other: &IndexedText) -> bool {
        self.cmp(other).is_eq()
    }
}

impl Eq for IndexedText {
    ghost use Rattle.std.specs.Cmp.Rules.{comparing};
    ghost use Rattle.std.proofs.Common.{rules};

    ghost laws = { Prim.search (comparing, rules) };
}

impl PartialOrd for IndexedText {
    ghost use Rattle.std.specs.Ordering.{nat_cmp, on, as_partial_cmp};
    ghost use Rattle.std.specs.Cmp.Lexicographic.{slice_cmp};
    ghost use Rattle.std.specs.Cmp.{partial_order_from_own_ties};
    ghost use Rattle.std.specs.Cmp.Rules.{comparing};
    ghost use Rattle.std.proofs.Common.{rules};

    ghost partial_cmp = { as_partial_cmp (on (λ t. t.definition) (slice_cmp nat_cmp)) };

    ghost laws = { partial_order_from_own_ties (Prim.search (comparing, rules)) (Prim.search (comparing, rules)) };

    fn partial_cmp(&self, other: &IndexedText) -> Option<Ordering> {
        Some(self.cmp(other))
    }
}

impl Ord for IndexedText {
    ghost use Rattle.std.specs.Prelude.{refl};
    ghost use Rattle.std.specs.Ordering.{nat_cmp, on};
    ghost use Rattle.std.specs.Cmp.Lexicographic.{slice_cmp};
    ghost use Rattle.std.specs.Cmp.Rules.{comparing};
    ghost use Rattle.std.proofs.Common.{rules};

    ghost cmp = { on (λ t. t.definition) (slice_cmp nat_cmp) };

    ghost total = { Prim.search (comparing, rules) };

    ghost matches_partial_cmp = { λ a b. refl };

    ghost matches_eq = { λ a b. refl };

    fn cmp(&self, other: &IndexedText) -> Ordering {
        self.definition.as_bytes().cmp(other.definition.as_bytes())
    }
}
