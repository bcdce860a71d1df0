//! The replicas of the seen ids.

ghost use Rattle.std.specs.Prelude.{◌≡◌, IfOk};
ghost use Rattle.reg_op.specs.Set as set;
ghost use Rattle.reg_state.specs.Runs.{replica_cmp, seen_of, AreRuns};
ghost use Rattle.reg_query.specs.Offices.{replicas_of};

use reg_state::Run;
use std::alloc::{AllocError, Global};
use uuid::Uuid;

// The replicas in order, each once.
fn distinct(replicas: Vec<Uuid>) -> Vec<Uuid>
    ensures { result.items ≡ set.items (set.from_list {R = replica_cmp} replicas.items) }
{
    let mut made = replicas;
    made.sort_unstable();
    made.dedup();
    made
}

/// The replicas of some runs in order, each once.
pub(crate) fn replicas_of(alloc: Global, runs: &[Run]) -> Result<Vec<Uuid>, AllocError>
    requires { AreRuns runs.now }
    ensures { IfOk result (λ replicas. replicas.items ≡ set.items (replicas_of (seen_of runs.now))) }
{
    let mut made = Vec::new(alloc);
    for run in runs {
        made.push(run.replica)?;
    }
    Ok(distinct(made))
}
