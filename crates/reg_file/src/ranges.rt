//! Ids, as ranges by replica.

ghost use Rattle.std.specs.Prelude.{IfOk, IfErr};
ghost use Rattle.reg_file.specs.Readers.{StopsIn};
ghost use Rattle.reg_file.specs.Reading.{spans, group, groups, ranges};
ghost use Rattle.reg_file.specs.Steps.{AddsGroup, AddsSpans, IsUnder, IsUpTo, ReadsGroups, ReadsSeen};

use crate::fault::Stop;
use crate::fields::{group_of, number_of, span_of};
use reg_state::{Run, Seen};
use std::alloc::Global;
use uuid::Uuid;

// This many ranges of a replica.
fn add_spans<'a>(
    basis: &Seen,
    seen: &mut Seen,
    replica: Uuid,
    count: u32,
    bytes: &'a [u8],
) -> Result<&'a [u8], Stop>
    requires { IsUnder seen.old replica 1 }
    ensures ok { IfOk result (λ rest. AddsSpans basis.now seen.old seen.new replica count bytes.now rest.now) }
    ensures err { IfErr result (StopsIn (spans basis.now replica count) bytes.now) }
{
    let mut rest = bytes;
    let mut floor = 1u64;
    for _ in 0..count {
        let (span, after) = match span_of(basis, replica, floor, rest) {
            Ok(read) => read,
            Err(stop) => return Err(stop),
        };
        seen.add_run(Run {
            replica,
            low: span.low,
            high: span.high,
        })?;
        floor = u64::from(span.high) + 2;
        rest = after;
    }
    Ok(rest)
}

// A replica above the last one, with its ranges.
fn add_group<'a>(
    basis: &Seen,
    seen: &mut Seen,
    last: Option<Uuid>,
    bytes: &'a [u8],
) -> Result<(Uuid, &'a [u8]), Stop>
    requires { IsUpTo seen.old last }
    ensures ok { IfOk result (λ x. AddsGroup basis.now seen.old seen.new last bytes.now x.0 x.1.now) }
    ensures err { IfErr result (StopsIn (group basis.now last) bytes.now) }
{
    let (heading, rest) = match group_of(last, bytes) {
        Ok(read) => read,
        Err(stop) => return Err(stop),
    };
    match add_spans(basis, seen, heading.0, heading.1, rest) {
        Ok(after) => Ok((heading.0, after)),
        Err(stop) => Err(stop),
    }
}

// This many replicas.
fn add_groups<'a>(
    alloc: Global,
    basis: &Seen,
    count: u32,
    bytes: &'a [u8],
) -> Result<(Seen, &'a [u8]), Stop>
    ensures ok { IfOk result (λ x. ReadsGroups basis.now count bytes.now x.0 x.1.now) }
    ensures err { IfErr result (StopsIn (groups basis.now count) bytes.now) }
{
    let mut seen = Seen::new(alloc);
    let mut last = None;
    let mut rest = bytes;
    for _ in 0..count {
        let (replica, after) = match add_group(basis, &mut seen, last, rest) {
            Ok(read) => read,
            Err(stop) => return Err(stop),
        };
        last = Some(replica);
        rest = after;
    }
    Ok((seen, rest))
}

/// The ids of some ranges. None of them overlaps the basis.
pub fn seen_of<'a>(alloc: Global, basis: &Seen, bytes: &'a [u8]) -> Result<(Seen, &'a [u8]), Stop>
    ensures ok { IfOk result (λ x. ReadsSeen basis.now bytes.now x.0 x.1.now) }
    ensures err { IfErr result (StopsIn (ranges basis.now) bytes.now) }
{
    let (count, rest) = match number_of(bytes) {
        Ok(read) => read,
        Err(stop) => return Err(stop),
    };
    let (seen, after) = match add_groups(alloc, basis, count, rest) {
        Ok(read) => read,
        Err(stop) => return Err(stop),
    };
    Ok((seen, after))
}
