//! The blocks of a page and its gaps, made and written in turn.

ghost use Rattle.std.specs.Prelude.{◌≡◌, ◌++◌, [], ℕ, List, None, IfOk, OnOk, IfErr};
ghost use Rattle.std.specs.List.Sorted.{IsSortedByKey};
ghost use Rattle.byte_io.specs.Device.{SinkState};
ghost use Rattle.byte_io.specs.Whole.{WritesAll};
ghost use Rattle.html_page.specs.Pieces.{html, Appends};
ghost use Rattle.reg_op.specs.Ids.{id_cmp};
ghost use Rattle.reg_report.specs.Between.{gaps_between};
ghost use Rattle.reg_page.specs.Blocks.{setting, pieces_of, bytes_of, gap_section};
ghost use Rattle.reg_page.specs.Descriptions.{AscendById};
ghost use Rattle.reg_page.specs.Page.{subject, named};
ghost use Rattle.reg_page.specs.Writing.{IsUnderWay, IsStopped};

use crate::block::Block;
use crate::conflicts::{push_key, push_sides};
use crate::described::Described;
use crate::entries::push_entry;
use crate::gap_writing::write_gaps;
use crate::missing::push_awaited_id;
use byte_io::{Sink, write_all};
use csv_table::offices::Name;
use html_page::{push_end, push_mark};
use reg_engine::{CliFault, OutFault};
use reg_op::Op;
use reg_state::{Register, Run};
use std::alloc::{AllocError, Global};

/// So many bytes are written at once, or more. So a page with fewer bytes is complete before its first byte is written.
const ENOUGH: usize = 1_048_576;

// Appends the bytes of a block.
fn push_block(
    alloc: Global,
    page: &mut Vec<u8>,
    names: &[Name],
    register: &Register,
    described: &[Described],
    acts: &[Op],
    block: &Block<'_>,
) -> Result<(), AllocError>
    requires ascend { AscendById described.now }
    requires sorted { IsSortedByKey subject id_cmp acts.now }
    ensures { OnOk result (Appends page.old.items page.new.items (pieces_of (setting names.now register.now.ops described.now acts.now) block.now)) }
{
    match block {
        Block::Mark(constant) => push_mark(page, *constant),
        Block::Key(one) => push_key(page, one),
        Block::Pair(one, other) => push_sides(alloc, page, names, one, other),
        Block::Awaited(id) => push_awaited_id(alloc, page, names, id),
        Block::Row(one, contested) => push_entry(
            alloc, page, names, register, described, acts, one, None, *contested,
        ),
        Block::Linked(one, other, contested) => push_entry(
            alloc,
            page,
            names,
            register,
            described,
            acts,
            one,
            Some(other.id),
            *contested,
        ),
        Block::End => push_end(page),
    }
}

// Writes the bytes that wait. The answer is how many were written so far.
fn pass_on<K: Sink>(waiting: &mut Vec<u8>, written: usize, sink: &mut K) -> Result<usize, CliFault>
    ensures passed { (first : SinkState) (text rest : List ℕ) → IsUnderWay first text (K.state sink.old) waiting.old.items rest written
        → IfOk result (IsUnderWay first text (K.state sink.new) [] rest) }
    ensures fault { (first : SinkState) (text rest : List ℕ) → IsUnderWay first text (K.state sink.old) waiting.old.items rest written
        → IfErr result (IsStopped text first (K.state sink.new)) }
    ensures none { OnOk result (waiting.new.items ≡ []) }
{
    let Some(total) = written.checked_add(waiting.len()) else {
        return Err(CliFault::Memory);
    };
    match write_all(sink, waiting) {
        Ok(()) => {
            waiting.clear();
            Ok(total)
        }
        Err(fault) => Err(CliFault::Out(OutFault::WriteFailed(written + fault.written))),
    }
}

/// Writes the bytes that wait if they are enough. The answer is how many were written so far.
pub fn pass_enough<K: Sink>(
    waiting: &mut Vec<u8>,
    written: usize,
    sink: &mut K,
) -> Result<usize, CliFault>
    ensures passed { (first : SinkState) (text rest : List ℕ) → IsUnderWay first text (K.state sink.old) waiting.old.items rest written
        → IfOk result (IsUnderWay first text (K.state sink.new) waiting.new.items rest) }
    ensures fault { (first : SinkState) (text rest : List ℕ) → IsUnderWay first text (K.state sink.old) waiting.old.items rest written
        → IfErr result (IsStopped text first (K.state sink.new)) }
{
    if waiting.len() < ENOUGH {
        return Ok(written);
    }
    match pass_on(waiting, written, sink) {
        Ok(total) => Ok(total),
        Err(fault) => Err(fault),
    }
}

// Makes the bytes of a block, and writes those that wait if they are enough. The answer is how many were written so far.
fn write_block<K: Sink>(
    alloc: Global,
    waiting: &mut Vec<u8>,
    names: &[Name],
    register: &Register,
    described: &[Described],
    acts: &[Op],
    block: &Block<'_>,
    written: usize,
    sink: &mut K,
) -> Result<usize, CliFault>
    requires ascend { AscendById described.now }
    requires sorted { IsSortedByKey subject id_cmp acts.now }
    ensures passed { (first : SinkState) (text rest : List ℕ)
        → IsUnderWay first text (K.state sink.old) waiting.old.items (html (pieces_of (setting names.now register.now.ops described.now acts.now) block.now) ++ rest) written
        → IfOk result (IsUnderWay first text (K.state sink.new) waiting.new.items rest) }
    ensures fault { (first : SinkState) (text rest : List ℕ)
        → IsUnderWay first text (K.state sink.old) waiting.old.items (html (pieces_of (setting names.now register.now.ops described.now acts.now) block.now) ++ rest) written
        → IfErr result (IsStopped text first (K.state sink.new)) }
{
    if let Err(_) = push_block(alloc, waiting, names, register, described, acts, block) {
        return Err(CliFault::Memory);
    }
    match pass_enough(waiting, written, sink) {
        Ok(total) => Ok(total),
        Err(fault) => Err(fault),
    }
}

// Writes the bytes of the blocks, each of which is made when those before it are. The answer is how many were written so far.
fn write_blocks<K: Sink>(
    alloc: Global,
    waiting: &mut Vec<u8>,
    names: &[Name],
    register: &Register,
    described: &[Described],
    acts: &[Op],
    blocks: &[Block<'_>],
    written: usize,
    sink: &mut K,
) -> Result<usize, CliFault>
    requires ascend { AscendById described.now }
    requires sorted { IsSortedByKey subject id_cmp acts.now }
    ensures passed { (first : SinkState) (text rest : List ℕ)
        → IsUnderWay first text (K.state sink.old) waiting.old.items (bytes_of (setting names.now register.now.ops described.now acts.now) blocks.now ++ rest) written
        → IfOk result (IsUnderWay first text (K.state sink.new) waiting.new.items rest) }
    ensures fault { (first : SinkState) (text rest : List ℕ)
        → IsUnderWay first text (K.state sink.old) waiting.old.items (bytes_of (setting names.now register.now.ops described.now acts.now) blocks.now ++ rest) written
        → IfErr result (IsStopped text first (K.state sink.new)) }
{
    let mut done = written;
    for i in 0..blocks.len() {
        done = match write_block(
            alloc, waiting, names, register, described, acts, &blocks[i], done, sink,
        ) {
            Ok(total) => total,
            Err(fault) => return Err(fault),
        };
    }
    Ok(done)
}

// Writes the bytes that wait, those of the blocks, and those of the gaps between runs. The answer is how many were written.
fn write_front<K: Sink>(
    alloc: Global,
    waiting: &mut Vec<u8>,
    names: &[Name],
    register: &Register,
    described: &[Described],
    acts: &[Op],
    blocks: &[Block<'_>],
    runs: &[Run],
    sink: &mut K,
) -> Result<usize, CliFault>
    requires ascend { AscendById described.now }
    requires sorted { IsSortedByKey subject id_cmp acts.now }
    ensures passed { (rest : List ℕ) → IfOk result (IsUnderWay (K.state sink.old)
        (waiting.old.items ++ (bytes_of (setting names.now register.now.ops described.now acts.now) blocks.now ++ (html (gap_section (named names.now) (gaps_between None runs.now)) ++ rest)))
        (K.state sink.new) waiting.new.items rest) }
    ensures fault { (rest : List ℕ) → IfErr result (IsStopped
        (waiting.old.items ++ (bytes_of (setting names.now register.now.ops described.now acts.now) blocks.now ++ (html (gap_section (named names.now) (gaps_between None runs.now)) ++ rest)))
        (K.state sink.old) (K.state sink.new)) }
{
    let done = match write_blocks(
        alloc, waiting, names, register, described, acts, blocks, 0, sink,
    ) {
        Ok(done) => done,
        Err(fault) => return Err(fault),
    };
    match write_gaps(alloc, waiting, names, runs, done, sink) {
        Ok(total) => Ok(total),
        Err(fault) => Err(fault),
    }
}

// Writes the bytes that wait, and those of the last blocks.
fn write_rest<K: Sink>(
    alloc: Global,
    waiting: &mut Vec<u8>,
    names: &[Name],
    register: &Register,
    described: &[Described],
    acts: &[Op],
    blocks: &[Block<'_>],
    written: usize,
    sink: &mut K,
) -> Result<(), CliFault>
    requires ascend { AscendById described.now }
    requires sorted { IsSortedByKey subject id_cmp acts.now }
    ensures written { (first : SinkState) (text : List ℕ)
        → IsUnderWay first text (K.state sink.old) waiting.old.items (bytes_of (setting names.now register.now.ops described.now acts.now) blocks.now) written
        → OnOk result (WritesAll text first (K.state sink.new)) }
    ensures fault { (first : SinkState) (text : List ℕ)
        → IsUnderWay first text (K.state sink.old) waiting.old.items (bytes_of (setting names.now register.now.ops described.now acts.now) blocks.now) written
        → IfErr result (IsStopped text first (K.state sink.new)) }
{
    let done = match write_blocks(
        alloc, waiting, names, register, described, acts, blocks, written, sink,
    ) {
        Ok(done) => done,
        Err(fault) => return Err(fault),
    };
    match pass_on(waiting, done, sink) {
        Ok(_) => Ok(()),
        Err(fault) => Err(fault),
    }
}

/// Writes the bytes that wait, those of the blocks before the gaps, those of the gaps between runs, and those of the blocks after them.
/// Each block and each gap is made when those before it are.
pub fn write_parts<K: Sink>(
    alloc: Global,
    waiting: &mut Vec<u8>,
    names: &[Name],
    register: &Register,
    described: &[Described],
    acts: &[Op],
    blocks: &[Block<'_>],
    runs: &[Run],
    later: &[Block<'_>],
    sink: &mut K,
) -> Result<(), CliFault>
    requires ascend { AscendById described.now }
    requires sorted { IsSortedByKey subject id_cmp acts.now }
    ensures written { OnOk result (WritesAll
        (waiting.old.items ++ (bytes_of (setting names.now register.now.ops described.now acts.now) blocks.now
        ++ (html (gap_section (named names.now) (gaps_between None runs.now)) ++ bytes_of (setting names.now register.now.ops described.now acts.now) later.now)))
        (K.state sink.old) (K.state sink.new)) }
    ensures fault { IfErr result (IsStopped
        (waiting.old.items ++ (bytes_of (setting names.now register.now.ops described.now acts.now) blocks.now
        ++ (html (gap_section (named names.now) (gaps_between None runs.now)) ++ bytes_of (setting names.now register.now.ops described.now acts.now) later.now)))
        (K.state sink.old) (K.state sink.new)) }
{
    let done = match write_front(
        alloc, waiting, names, register, described, acts, blocks, runs, sink,
    ) {
        Ok(done) => done,
        Err(fault) => return Err(fault),
    };
    match write_rest(
        alloc, waiting, names, register, described, acts, later, done, sink,
    ) {
        Ok(()) => Ok(()),
        Err(fault) => Err(fault),
    }
}
