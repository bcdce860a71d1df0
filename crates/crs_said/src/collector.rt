//! A visitor that keeps what a system claims about the nodes that it meets.

ghost use Rattle.std.specs.Prelude.{◌≡◌, ◌++◌, Bool, false, List, map, IfOk};
ghost use Rattle.std.specs.List.{flat_map};
ghost use Rattle.crs_said.specs.Claims.{Said, claim_seen};
ghost use Rattle.crs_said.specs.Parts.{claims_of};

use crate::claim::Claim;
use crate::parts::push_claims;
use crs_names::{Node, Visitor};
use std::alloc::{AllocError, Global};

/// The claims about the nodes so far, unless an allocation has failed.
#[derive(Drop)]
pub(crate) struct Collector {
    pub(crate) alloc: Global,
    pub(crate) claims: Vec<Claim>,
    pub(crate) failed: bool,
}

impl<'a> Visitor<'a> for Collector {
    ghost has = { λ first now all rest. now.failed ≡ false → map claim_seen now.claims.items ++ flat_map claims_of rest ≡ flat_map claims_of all };

    fn meet(&mut self, node: Node<'a>) {
        if self.failed {
            return;
        }
        if push_claims(self.alloc, &mut self.claims, node).is_err() {
            self.failed = true;
        }
    }
}

impl Collector {
    /// The claims, unless an allocation has failed.
    pub(crate) fn claims(self) -> Result<Vec<Claim>, AllocError>
        ensures { (want : List Said) → (self.failed ≡ false → map claim_seen self.claims.items ≡ want) → IfOk result (λ claims. map claim_seen claims.items ≡ want) }
    {
        let Collector {
            mut claims,
            failed,
            ..
        } = self;
        if failed {
            return Err(AllocError);
        }
        claims.shrink_to_fit();
        Ok(claims)
    }
}
