//! The gaps of a page, made and written in turn.

ghost use Rattle.std.specs.Prelude.{◌++◌, ℕ, List, None, IfOk, IfErr};
ghost use Rattle.byte_io.specs.Device.{SinkState};
ghost use Rattle.html_page.specs.Pieces.{html};
ghost use Rattle.reg_report.specs.Between.{gaps_at, gaps_between};
ghost use Rattle.reg_page.specs.Blocks.{gap_pieces, gap_section};
ghost use Rattle.reg_page.specs.Page.{named};
ghost use Rattle.reg_page.specs.Writing.{IsUnderWay, IsStopped};

use crate::gaps::{count_gaps, push_gap_before};
use crate::writing::pass_enough;
use byte_io::Sink;
use csv_table::offices::Name;
use html_page::markup::{GAPS_END, GAPS_START};
use html_page::push_mark;
use reg_engine::CliFault;
use reg_state::Run;
use std::alloc::Global;

// Makes the bytes of the gap between two runs, if there is one, and writes those that wait if they are enough. The answer is how many
// were written so far.
fn write_gap<K: Sink>(
    alloc: Global,
    waiting: &mut Vec<u8>,
    names: &[Name],
    before: Option<Run>,
    run: Run,
    written: usize,
    sink: &mut K,
) -> Result<usize, CliFault>
    ensures passed { (first : SinkState) (text rest : List ℕ)
        → IsUnderWay first text (K.state sink.old) waiting.old.items (html (gap_pieces (named names.now) (gaps_at before run)) ++ rest) written
        → IfOk result (IsUnderWay first text (K.state sink.new) waiting.new.items rest) }
    ensures fault { (first : SinkState) (text rest : List ℕ)
        → IsUnderWay first text (K.state sink.old) waiting.old.items (html (gap_pieces (named names.now) (gaps_at before run)) ++ rest) written
        → IfErr result (IsStopped text first (K.state sink.new)) }
{
    if let Err(_) = push_gap_before(alloc, waiting, names, before, run) {
        return Err(CliFault::Memory);
    }
    match pass_enough(waiting, written, sink) {
        Ok(total) => Ok(total),
        Err(fault) => Err(fault),
    }
}

fn write_each_gap<K: Sink>(
    alloc: Global,
    waiting: &mut Vec<u8>,
    names: &[Name],
    runs: &[Run],
    written: usize,
    sink: &mut K,
) -> Result<usize, CliFault>
    ensures passed { (first : SinkState) (text rest : List ℕ)
        → IsUnderWay first text (K.state sink.old) waiting.old.items (html (gap_pieces (named names.now) (gaps_between None runs.now)) ++ rest) written
        → IfOk result (IsUnderWay first text (K.state sink.new) waiting.new.items rest) }
    ensures fault { (first : SinkState) (text rest : List ℕ)
        → IsUnderWay first text (K.state sink.old) waiting.old.items (html (gap_pieces (named names.now) (gaps_between None runs.now)) ++ rest) written
        → IfErr result (IsStopped text first (K.state sink.new)) }
{
    let mut done = written;
    let mut before: Option<Run> = None;
    let mut rest = runs;
    while let Some((one, others)) = rest.split_first() {
        done = match write_gap(alloc, waiting, names, before, *one, done, sink) {
            Ok(total) => total,
            Err(fault) => return Err(fault),
        };
        before = Some(*one);
        rest = others;
    }
    Ok(done)
}

/// Writes the gaps between runs, if there are some, each of which is made when those before it are. The answer is how many bytes were
/// written so far.
pub fn write_gaps<K: Sink>(
    alloc: Global,
    waiting: &mut Vec<u8>,
    names: &[Name],
    runs: &[Run],
    written: usize,
    sink: &mut K,
) -> Result<usize, CliFault>
    ensures passed { (first : SinkState) (text rest : List ℕ)
        → IsUnderWay first text (K.state sink.old) waiting.old.items (html (gap_section (named names.now) (gaps_between None runs.now)) ++ rest) written
        → IfOk result (IsUnderWay first text (K.state sink.new) waiting.new.items rest) }
    ensures fault { (first : SinkState) (text rest : List ℕ)
        → IsUnderWay first text (K.state sink.old) waiting.old.items (html (gap_section (named names.now) (gaps_between None runs.now)) ++ rest) written
        → IfErr result (IsStopped text first (K.state sink.new)) }
{
    if count_gaps(runs) == 0 {
        return Ok(written);
    }
    if let Err(_) = push_mark(waiting, GAPS_START) {
        return Err(CliFault::Memory);
    }
    let done = match write_each_gap(alloc, waiting, names, runs, written, sink) {
        Ok(done) => done,
        Err(fault) => return Err(fault),
    };
    if let Err(_) = push_mark(waiting, GAPS_END) {
        return Err(CliFault::Memory);
    }
    Ok(done)
}
