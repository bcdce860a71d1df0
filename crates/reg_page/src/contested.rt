//! The blocks of conflicts.

ghost use Rattle.std.specs.Prelude.{map, OnOk};
ghost use Rattle.std.specs.List.{flat_map};
ghost use Rattle.html_page.specs.Templates.{pair, conflict, section};
ghost use Rattle.html_page.specs.declared.markup.TheConstants.{CONFLICTS_START as START, CONFLICTS_END as END};
ghost use Rattle.reg_report.specs.declared.conflict.Conflict.{Conflict as OneConflict};
ghost use Rattle.reg_report.specs.Contenders.{conflict_seen};
ghost use Rattle.reg_page.specs.Descriptions.{AscendById};
ghost use Rattle.reg_page.specs.Page.{described_at, pairs_of, pairs_from, pairs_among, conflict_of};
ghost use Rattle.reg_page.specs.Blocks.{Setting, Lists};

use crate::block::Block;
use crate::described::Described;
use crate::links::described_at;
use html_page::markup::{CONFLICTS_END, CONFLICTS_START};
use reg_op::OpId;
use reg_report::Conflict;
use std::alloc::AllocError;

// Lists two entries of a key, if both were entered.
fn list_pair<'a>(
    blocks: &mut Vec<Block<'a>>,
    described: &'a [Described],
    first: OpId,
    second: OpId,
) -> Result<(), AllocError>
    requires { AscendById described.now }
    ensures { (m : Setting) → OnOk result (Lists m blocks.old.items blocks.new.items (flat_map (pair m.named) (pairs_of (described_at described.now first) (described_at described.now second)))) }
{
    let Some(one) = described_at(described, first) else {
        return Ok(());
    };
    let Some(other) = described_at(described, second) else {
        return Ok(());
    };
    blocks.push(Block::Pair(one, other))?;
    Ok(())
}

// Lists each entry beside the next one.
fn list_pairs<'a>(
    blocks: &mut Vec<Block<'a>>,
    described: &'a [Described],
    entries: &[OpId],
) -> Result<(), AllocError>
    requires { AscendById described.now }
    ensures { (m : Setting) → OnOk result (Lists m blocks.old.items blocks.new.items (flat_map (pair m.named) (pairs_among described.now entries.now))) }
{
    let Some((first, others)) = entries.split_first() else {
        return Ok(());
    };
    list_others(blocks, described, *first, others)?;
    Ok(())
}

fn list_others<'a>(
    blocks: &mut Vec<Block<'a>>,
    described: &'a [Described],
    first: OpId,
    others: &[OpId],
) -> Result<(), AllocError>
    requires { AscendById described.now }
    ensures { (m : Setting) → OnOk result (Lists m blocks.old.items blocks.new.items (flat_map (pair m.named) (pairs_from described.now first others.now))) }
{
    let mut last = first;
    let mut rest = others;
    while let Some((second, later)) = rest.split_first() {
        list_pair(blocks, described, last, *second)?;
        last = *second;
        rest = later;
    }
    Ok(())
}

fn list_conflict<'a>(
    blocks: &mut Vec<Block<'a>>,
    described: &'a [Described],
    one: &'a Conflict,
) -> Result<(), AllocError>
    requires { AscendById described.now }
    ensures { (m : Setting) → OnOk result (Lists m blocks.old.items blocks.new.items (conflict m.named (conflict_of described.now (conflict_seen one.now)))) }
{
    blocks.push(Block::Key(one))?;
    list_pairs(blocks, described, &one.entries)?;
    Ok(())
}

fn list_each<'a>(
    blocks: &mut Vec<Block<'a>>,
    described: &'a [Described],
    conflicts: &'a [Conflict],
) -> Result<(), AllocError>
    requires { AscendById described.now }
    ensures { (m : Setting) → OnOk result (Lists m blocks.old.items blocks.new.items (flat_map (conflict m.named) (map (λ (k : OneConflict). conflict_of described.now (conflict_seen k)) conflicts.now))) }
{
    let mut rest = conflicts;
    while let Some((one, others)) = rest.split_first() {
        list_conflict(blocks, described, one)?;
        rest = others;
    }
    Ok(())
}

/// Lists the keys in conflict, if there are some.
pub fn list_conflicts<'a>(
    blocks: &mut Vec<Block<'a>>,
    described: &'a [Described],
    conflicts: &'a [Conflict],
) -> Result<(), AllocError>
    requires { AscendById described.now }
    ensures { (m : Setting) → OnOk result (Lists m blocks.old.items blocks.new.items (section START.now (conflict m.named) END.now (map (λ (k : OneConflict). conflict_of described.now (conflict_seen k)) conflicts.now))) }
{
    if conflicts.is_empty() {
        return Ok(());
    }
    blocks.push(Block::Mark(CONFLICTS_START))?;
    list_each(blocks, described, conflicts)?;
    blocks.push(Block::Mark(CONFLICTS_END))?;
    Ok(())
}
