//! What a register lacks: the blocks of awaited ids, and the bytes of awaited ids and of gaps.

ghost use Rattle.std.specs.Prelude.{map, OnOk};
ghost use Rattle.std.specs.List.{flat_map};
ghost use Rattle.uuid.specs.Text.{hyphenated_text, lower};
ghost use Rattle.html_page.specs.Pieces.{Appends};
ghost use Rattle.html_page.specs.Templates.{awaited, gap_start, gap, section};
ghost use Rattle.html_page.specs.declared.markup.TheConstants.{AWAITED_START as START, AWAITED_END as END};
ghost use Rattle.reg_op.specs.Text.{printed};
ghost use Rattle.reg_page.specs.Blocks.{Setting, Lists};
ghost use Rattle.reg_page.specs.Page.{gap_of, named};

use crate::block::Block;
use crate::names::{read_for_id, read_for_office};
use csv_table::offices::Name;
use html_page::markup::{AWAITED_END, AWAITED_START};
use html_page::{push_awaited, push_gap_counts, push_gap_start};
use reg_op::OpId;
use reg_report::Gap;
use std::alloc::{AllocError, Global};
use uuid::Uuid;

fn list_each_awaited<'a>(blocks: &mut Vec<Block<'a>>, ids: &'a [OpId]) -> Result<(), AllocError>
    ensures { (m : Setting) → OnOk result (Lists m blocks.old.items blocks.new.items (flat_map (awaited m.named) (map printed ids.now))) }
{
    let mut rest = ids;
    while let Some((id, others)) = rest.split_first() {
        blocks.push(Block::Awaited(id))?;
        rest = others;
    }
    Ok(())
}

/// Lists the awaited ids, if there are some.
pub fn list_awaited<'a>(blocks: &mut Vec<Block<'a>>, ids: &'a [OpId]) -> Result<(), AllocError>
    ensures { (m : Setting) → OnOk result (Lists m blocks.old.items blocks.new.items (section START.now (awaited m.named) END.now (map printed ids.now))) }
{
    if ids.is_empty() {
        return Ok(());
    }
    blocks.push(Block::Mark(AWAITED_START))?;
    list_each_awaited(blocks, ids)?;
    blocks.push(Block::Mark(AWAITED_END))?;
    Ok(())
}

/// Appends what is read in the place of an awaited id.
pub fn push_awaited_id(
    alloc: Global,
    page: &mut Vec<u8>,
    names: &[Name],
    id: &OpId,
) -> Result<(), AllocError>
    ensures { OnOk result (Appends page.old.items page.new.items (awaited (named names.now) (printed id.now))) }
{
    let read = read_for_id(alloc, names, *id)?;
    push_awaited(page, &read)?;
    Ok(())
}

// Appends what is read in the place of the UUID of an office with missing operations.
fn push_replica(
    alloc: Global,
    page: &mut Vec<u8>,
    names: &[Name],
    replica: Uuid,
) -> Result<(), AllocError>
    ensures { OnOk result (Appends page.old.items page.new.items (gap_start (named names.now (hyphenated_text lower replica)))) }
{
    let read = read_for_office(alloc, names, replica)?;
    push_gap_start(page, &read)?;
    Ok(())
}

/// Appends a gap.
pub fn push_gap(
    alloc: Global,
    page: &mut Vec<u8>,
    names: &[Name],
    one: &Gap,
) -> Result<(), AllocError>
    ensures { OnOk result (Appends page.old.items page.new.items (gap (named names.now) (gap_of one.now))) }
{
    push_replica(alloc, page, names, one.replica)?;
    push_gap_counts(alloc, page, one.low, one.high)?;
    Ok(())
}
