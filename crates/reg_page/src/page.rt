//! The whole page.

ghost use Rattle.std.specs.Prelude.{◌≡◌, ◌⊎◌, true, false, List, [], ℕ, filter, map, None, IfOk, OnOk, IfErr};
ghost use Rattle.std.specs.List.Sorted.{IsSortedByKey};
ghost use Rattle.byte_io.specs.Whole.{WritesAll};
ghost use Rattle.html_page.specs.Pieces.{html, Appends};
ghost use Rattle.html_page.specs.Templates.{page as page_pieces};
ghost use Rattle.reg_report.specs.Between.{gaps_between};
ghost use Rattle.reg_report.specs.Contenders.{conflict_seen};
ghost use Rattle.reg_op.specs.Ids.{id_cmp};
ghost use Rattle.reg_op.specs.Text.{printed};
ghost use Rattle.reg_engine.specs.declared.fault.CliFault.TheVariants.{Memory};
ghost use Rattle.reg_page.specs.declared.described.Described.{Described as OneDescribed};
ghost use Rattle.reg_page.specs.Blocks.{Setting, bytes_of, Lists, rows_with};
ghost use Rattle.reg_page.specs.Descriptions.{AscendById, InOrder};
ghost use Rattle.reg_page.specs.Page.{subject, conflict_of, is_among, AscendByKey, figures_of, shown_of, named, IsPage};
ghost use Rattle.reg_page.specs.Parts.{top, unsettled, table};
ghost use Rattle.reg_page.specs.Writing.{IsStopped, IsUnwritten};

use crate::block::Block;
use crate::contested::list_conflicts;
use crate::described::Described;
use crate::figures::{count_retired, count_superseded, count_valid};
use crate::gaps::count_gaps;
use crate::gathered::{Gathered, gather};
use crate::missing::list_awaited;
use crate::table::list_table;
use crate::writing::write_parts;
use byte_io::Sink;
use csv_table::offices::Name;
use html_page::markup::AFTER_FIGURES;
use html_page::{PageFigures, push_figures, push_head, push_mark};
use reg_engine::CliFault;
use reg_lint::Rule;
use reg_op::{Op, OpId};
use reg_report::Conflict;
use reg_state::{Register, Run};
use std::alloc::{AllocError, Global};

fn figures_of(
    register: &Register,
    described: &[Described],
    conflicts: &[Conflict],
    awaited: &[OpId],
    runs: &[Run],
) -> PageFigures
    ensures { result ≡ figures_of register.now described.now (map conflict_seen conflicts.now) awaited.now (gaps_between None runs.now) }
{
    PageFigures {
        entries: described.len(),
        valid: count_valid(register, described),
        superseded: count_superseded(register, described),
        retired: count_retired(register, described),
        conflicts: conflicts.len(),
        awaited: awaited.len(),
        gaps: count_gaps(runs),
        operations: register.ops().as_slice().len(),
    }
}

fn push_top(
    alloc: Global,
    page: &mut Vec<u8>,
    title: &[u8],
    figures: &PageFigures,
) -> Result<(), AllocError>
    ensures { OnOk result (Appends page.old.items page.new.items (top title.now figures.now)) }
{
    push_head(page, title)?;
    push_figures(alloc, page, figures)?;
    push_mark(page, AFTER_FIGURES)?;
    Ok(())
}

// Lists the conflicts and the awaited ids.
fn list_unsettled<'a>(
    blocks: &mut Vec<Block<'a>>,
    described: &'a [Described],
    conflicts: &'a [Conflict],
    awaited: &'a [OpId],
) -> Result<(), AllocError>
    requires { AscendById described.now }
    ensures { (m : Setting) → OnOk result (Lists m blocks.old.items blocks.new.items (unsettled m.named (map (conflict_of described.now) (map conflict_seen conflicts.now)) (map printed awaited.now))) }
{
    list_conflicts(blocks, described, conflicts)?;
    list_awaited(blocks, awaited)?;
    Ok(())
}

// The blocks between the figures and the gaps.
fn first_blocks<'a>(
    alloc: Global,
    described: &'a [Described],
    conflicts: &'a [Conflict],
    awaited: &'a [OpId],
) -> Result<Vec<Block<'a>>, AllocError>
    requires { AscendById described.now }
    ensures { (m : Setting) → IfOk result (λ made. bytes_of m made.items ≡ html (unsettled m.named (map (conflict_of described.now) (map conflict_seen conflicts.now)) (map printed awaited.now))) }
{
    let mut blocks = Vec::new(alloc);
    list_unsettled(&mut blocks, described, conflicts, awaited)?;
    Ok(blocks)
}

// The blocks after the gaps.
fn last_blocks<'a>(
    alloc: Global,
    register: &Register,
    described: &'a [Described],
    conflicts: &[Conflict],
) -> Result<Vec<Block<'a>>, AllocError>
    requires { AscendByKey conflicts.now }
    ensures { IfOk result (λ made. (rows : List OneDescribed) × InOrder described.now rows
        × ((m : Setting) → bytes_of m made.items ≡ html (table m.named (rows_with m (map conflict_seen conflicts.now) [] false register.now.ops rows) (rows_with m [] (filter (is_among false register.now.ops) rows) true register.now.ops rows)))) }
{
    let mut blocks = Vec::new(alloc);
    list_table(alloc, &mut blocks, register, described, conflicts)?;
    Ok(blocks)
}

// What stands before the blocks.
fn top_of(alloc: Global, title: &[u8], figures: &PageFigures) -> Result<Vec<u8>, AllocError>
    ensures { IfOk result (λ made. made.items ≡ html (top title.now figures.now)) }
{
    let mut page = Vec::new(alloc);
    push_top(alloc, &mut page, title, figures)?;
    Ok(page)
}

// Writes the page of these parts.
fn write_page<K: Sink>(
    alloc: Global,
    names: &[Name],
    register: &Register,
    title: &[u8],
    described: &[Described],
    acts: &[Op],
    conflicts: &[Conflict],
    awaited: &[OpId],
    runs: &[Run],
    sink: &mut K,
) -> Result<(), CliFault>
    requires ascend { AscendById described.now }
    requires sorted { IsSortedByKey subject id_cmp acts.now }
    requires keys { AscendByKey conflicts.now }
    ensures written { OnOk result ((rows : List OneDescribed) × InOrder described.now rows
        × WritesAll (html (page_pieces (named names.now) (shown_of register.now title.now rows acts.now (map conflict_seen conflicts.now) awaited.now (gaps_between None runs.now)))) (K.state sink.old) (K.state sink.new)) }
    ensures fault { IfErr result (λ f. ((f ≡ Memory) × (K.state sink.new ≡ K.state sink.old)) ⊎ ((rows : List OneDescribed) × InOrder described.now rows
        × IsStopped (html (page_pieces (named names.now) (shown_of register.now title.now rows acts.now (map conflict_seen conflicts.now) awaited.now (gaps_between None runs.now)))) (K.state sink.old) (K.state sink.new) f)) }
{
    let figures = figures_of(register, described, conflicts, awaited, runs);
    let blocks = match first_blocks(alloc, described, conflicts, awaited) {
        Ok(blocks) => blocks,
        Err(_) => return Err(CliFault::Memory),
    };
    let later = match last_blocks(alloc, register, described, conflicts) {
        Ok(later) => later,
        Err(_) => return Err(CliFault::Memory),
    };
    let mut waiting = match top_of(alloc, title, &figures) {
        Ok(waiting) => waiting,
        Err(_) => return Err(CliFault::Memory),
    };
    match write_parts(
        alloc,
        &mut waiting,
        names,
        register,
        described,
        acts,
        &blocks,
        runs,
        &later,
        sink,
    ) {
        Ok(()) => Ok(()),
        Err(fault) => Err(fault),
    }
}

/// Writes the page of a register, with what is asked by these rules. In the place of ids, names of offices are read. What the page is
/// made of is complete before its first byte is written; if memory runs out after that, the output stops.
pub fn print_page<K: Sink>(
    alloc: Global,
    rules: &[Rule],
    register: &Register,
    title: &[u8],
    names: &[Name],
    sink: &mut K,
) -> Result<(), CliFault>
    ensures printed { OnOk result ((text : List ℕ) × IsPage rules.now title.now names.now register.now text × WritesAll text (K.state sink.old) (K.state sink.new)) }
    ensures fault { IfErr result (IsUnwritten (IsPage rules.now title.now names.now register.now) (K.state sink.old) (K.state sink.new)) }
{
    let Gathered {
        described,
        acts,
        conflicts,
        awaited,
    } = match gather(alloc, rules, register) {
        Ok(found) => found,
        Err(_) => return Err(CliFault::Memory),
    };
    let runs = register.seen().runs();
    match write_page(
        alloc, names, register, title, &described, &acts, &conflicts, &awaited, runs, sink,
    ) {
        Ok(()) => Ok(()),
        Err(fault) => Err(fault),
    }
}
