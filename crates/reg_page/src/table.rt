//! The entries that are not retired, and those that are.

ghost use Rattle.std.specs.Prelude.{◌≡◌, ◌++◌, ◌∷◌, [], true, false, List, filter, map, option_map, IfOk, OnOk};
ghost use Rattle.std.specs.List.{flat_map};
ghost use Rattle.html_page.specs.Templates.{entry, section};
ghost use Rattle.html_page.specs.declared.markup.TheConstants as markup;
ghost use Rattle.reg_page.specs.declared.described.Described.{Described as OneDescribed};
ghost use Rattle.reg_page.specs.Descriptions.{at, InOrder};
ghost use Rattle.reg_report.specs.Contenders.{conflict_seen};
ghost use Rattle.reg_page.specs.Page.{entry_of, row_of, is_among, AscendByKey};
ghost use Rattle.reg_page.specs.SameTexts.{AscendByText};
ghost use Rattle.reg_page.specs.Parts.{table};
ghost use Rattle.reg_page.specs.Blocks.{Setting, pieces_of, Lists, rows_with};

use crate::block::Block;
use crate::described::{Described, by_key};
use crate::figures::is_retired;
use crate::same::{by_text, is_in_conflict, same_text};
use html_page::markup::{ENTRIES_END, ENTRIES_START, RETIRED_END, RETIRED_START};
use reg_report::Conflict;
use reg_state::Register;
use std::alloc::{AllocError, Global};

// Whether an entry is one of the retired ones, or one of the others.
fn is_among(gone: bool, register: &Register, one: &Described) -> bool
    ensures { result ≡ is_among gone register.now.ops one.now }
{
    if gone {
        return is_retired(register, one);
    }
    !is_retired(register, one)
}

// Appends the entry, if it is among them.
fn push_one<'a>(
    made: &mut Vec<&'a Described>,
    gone: bool,
    register: &Register,
    one: &'a Described,
) -> Result<(), AllocError>
    ensures { OnOk result (at made.new.items ≡ at made.old.items ++ filter (is_among gone register.now.ops) (one.now ∷ [])) }
{
    if !is_among(gone, register, one) {
        return Ok(());
    }
    made.push(one)?;
    Ok(())
}

// The retired entries, or the others.
fn part_of<'a>(
    alloc: Global,
    gone: bool,
    register: &Register,
    rows: &[&'a Described],
) -> Result<Vec<&'a Described>, AllocError>
    ensures { IfOk result (λ made. at made.items ≡ filter (is_among gone register.now.ops) (at rows.now)) }
{
    let mut made = Vec::new(alloc);
    for i in 0..rows.len() {
        push_one(&mut made, gone, register, rows[i])?;
    }
    Ok(made)
}

fn block_of<'a>(one: &'a Described, same: Option<&'a Described>, contested: bool) -> Block<'a>
    ensures { (m : Setting) → pieces_of m result ≡ entry m.named (entry_of m.ops m.described m.acts (option_map (λ t. t.now.id) same.entry) contested one.now) }
{
    match same {
        Some(other) => Block::Linked(one, other, contested),
        None => Block::Row(one, contested),
    }
}

// Lists the rows of entries, if these keys are in conflict, and the rows of other entries have these texts.
fn list_rows<'a>(
    blocks: &mut Vec<Block<'a>>,
    rows: &[&'a Described],
    conflicts: &[Conflict],
    told: &[&'a Described],
) -> Result<(), AllocError>
    requires keys { AscendByKey conflicts.now }
    requires texts { AscendByText told.now }
    ensures { (m : Setting) → OnOk result (Lists m blocks.old.items blocks.new.items (flat_map (entry m.named) (map (row_of m.ops m.described m.acts (map conflict_seen conflicts.now) (at told.now)) (at rows.now)))) }
{
    for i in 0..rows.len() {
        let one = rows[i];
        let same = same_text(told, one);
        let contested = is_in_conflict(conflicts, one);
        blocks.push(block_of(one, same, contested))?;
    }
    Ok(())
}

fn list_gone_rows<'a>(
    blocks: &mut Vec<Block<'a>>,
    gone: &[&'a Described],
    told: &[&'a Described],
) -> Result<(), AllocError>
    requires { AscendByText told.now }
    ensures { (m : Setting) → OnOk result (Lists m blocks.old.items blocks.new.items (section markup.RETIRED_START.now (entry m.named) markup.RETIRED_END.now (map (row_of m.ops m.described m.acts [] (at told.now)) (at gone.now)))) }
{
    if gone.is_empty() {
        return Ok(());
    }
    blocks.push(Block::Mark(RETIRED_START))?;
    list_rows(blocks, gone, &[], told)?;
    blocks.push(Block::Mark(RETIRED_END))?;
    Ok(())
}

// Lists the retired entries, if there are some, and the rows of the others have their texts.
fn list_gone<'a>(
    alloc: Global,
    blocks: &mut Vec<Block<'a>>,
    register: &Register,
    rows: &[&'a Described],
    live: Vec<&'a Described>,
) -> Result<(), AllocError>
    ensures { (m : Setting) → OnOk result (Lists m blocks.old.items blocks.new.items (section markup.RETIRED_START.now (entry m.named) markup.RETIRED_END.now (rows_with m [] (at live.entry.items) true register.now.ops (at rows.now)))) }
{
    let gone = part_of(alloc, true, register, rows)?;
    let told = by_text(live)?;
    list_gone_rows(blocks, &gone, &told)?;
    Ok(())
}

fn list_both<'a>(
    alloc: Global,
    blocks: &mut Vec<Block<'a>>,
    register: &Register,
    rows: &[&'a Described],
    conflicts: &[Conflict],
) -> Result<(), AllocError>
    requires { AscendByKey conflicts.now }
    ensures { (m : Setting) → OnOk result (Lists m blocks.old.items blocks.new.items (table m.named (rows_with m (map conflict_seen conflicts.now) [] false register.now.ops (at rows.now)) (rows_with m [] (filter (is_among false register.now.ops) (at rows.now)) true register.now.ops (at rows.now)))) }
{
    let live = part_of(alloc, false, register, rows)?;
    blocks.push(Block::Mark(ENTRIES_START))?;
    list_rows(blocks, &live, conflicts, &[])?;
    blocks.push(Block::Mark(ENTRIES_END))?;
    list_gone(alloc, blocks, register, rows, live)?;
    blocks.push(Block::End)?;
    Ok(())
}

/// Lists a row for each entry, by key and then by id: those that are not retired, and then those that are.
pub fn list_table<'a>(
    alloc: Global,
    blocks: &mut Vec<Block<'a>>,
    register: &Register,
    described: &'a [Described],
    conflicts: &[Conflict],
) -> Result<(), AllocError>
    requires { AscendByKey conflicts.now }
    ensures { OnOk result ((rows : List OneDescribed) × InOrder described.now rows × ((m : Setting) → Lists m blocks.old.items blocks.new.items (table m.named (rows_with m (map conflict_seen conflicts.now) [] false register.now.ops rows) (rows_with m [] (filter (is_among false register.now.ops) rows) true register.now.ops rows)))) }
{
    let rows = by_key(alloc, described)?;
    list_both(alloc, blocks, register, &rows, conflicts)?;
    Ok(())
}
