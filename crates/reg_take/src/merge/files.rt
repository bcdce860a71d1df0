//! A merge of files.

ghost use Rattle.std.specs.Prelude.{map, None, IfOk, IfErr};
ghost use Rattle.byte_out.specs.Input.{kept_of, first_kept};
ghost use Rattle.reg_commands.specs.Merge.{ends, IsMergeFault};
ghost use Rattle.reg_take.specs.Merging.{IsMergedFrom};

use crate::merge::joining::join_parts;
use crate::merge::merged::Merged;
use byte_out::{Input, Place, first_kept};
use reg_engine::{CliFault, Parts, publish_register, read_parts};
use std::alloc::Global;

/// Does what `run_merge` does, and returns the registers, the pieces and their join.
pub fn merge_files<S: Input, P: Place>(
    alloc: Global,
    sources: &mut [S],
    place: &mut P,
) -> Result<Merged, CliFault>
    ensures merged { IfOk result (IsMergedFrom
        (ends (map S.state sources.old) None (P.state place.old))
        (ends (map S.state sources.new) (first_kept (map (λ s. kept_of (S.keeps s) (S.state s)) sources.new)) (P.state place.new))) }
    ensures fault { IfErr result (IsMergeFault
        (ends (map S.state sources.old) None (P.state place.old))
        (ends (map S.state sources.new) (first_kept (map (λ s. kept_of (S.keeps s) (S.state s)) sources.new)) (P.state place.new))) }
{
    let parts = match read_parts(alloc, sources) {
        Ok(parts) => parts,
        Err(fault) => return Err(fault),
    };
    let joined = match join_parts(alloc, &parts) {
        Ok(joined) => joined,
        Err(fault) => return Err(fault),
    };
    let Ok(read) = first_kept(sources) else {
        return Err(CliFault::Memory);
    };
    match publish_register(alloc, &joined, read, place) {
        Ok(()) => {
            let Parts { registers, pieces } = parts;
            Ok(Merged {
                registers,
                pieces,
                joined,
            })
        }
        Err(fault) => Err(fault),
    }
}
