//! The graph of a register, in DOT.

ghost use Rattle.std.specs.Prelude.{◌≡◌, ◌⊎◌, ◌++◌, ◌↔◌, ℕ, List, Contains, map, true, Some, IsTrue, IfOk, OnOk};
ghost use Rattle.std.specs.List.{flat_map};
ghost use Rattle.std.specs.List.Sorted.{IsSorted, IsPermutation};
ghost use Rattle.reg_op.specs.Ids.{id_cmp};
ghost use Rattle.reg_op.specs.Rows.{Row as OneRow};
ghost use Rattle.reg_report.specs.Conflicts.{Contested};
ghost use Rattle.reg_report.specs.Contenders.{conflict_seen};
ghost use Rattle.reg_report.specs.Seen.{row_seen};
ghost use Rattle.reg_export.specs.Graph.{color_of, linked_by, awaited_links, links_in, linked, IsNodeOf, edges_from, edges_of, awaited_edges, edges_in, all_edges, rivals_from, rivals_among, rivals_of, IsGraph};
ghost use Rattle.reg_export.specs.Titles.{IsLabel, Each};
ghost use Rattle.crs_export.specs.declared.title.Title.{Title};
ghost use Rattle.crs_export.specs.declared.markup.TheConstants as markup;
ghost use Rattle.crs_export.specs.Graphs.{node};
ghost use Rattle.text_hidden.specs.Short.{short};

use crate::edges::push_edge_of;
use crate::title::title_of;
use crs_export::markup::{GRAPH_END, GRAPH_START, RETIRED_COLOR, SUPERSEDED_COLOR, VALID_COLOR};
use crs_export::{Title as Label, push_node, push_rivals};
use csv_table::offices::{Name, Names};
use reg_op::{Op, OpBody, OpId, Status};
use reg_report::{Conflict, Row, conflicts, is_among, is_entered, printed, rows};
use reg_state::Register;
use std::alloc::{AllocError, Global};
use text_hidden::push_short;

fn color_of(status: Status) -> &'static [u8]
    ensures { result.now ≡ color_of (Some status) }
{
    match status {
        Status::Valid => VALID_COLOR,
        Status::Superseded => SUPERSEDED_COLOR,
        Status::Retired => RETIRED_COLOR,
    }
}

// Appends an entry that is superseded, and those that supersede it.
fn push_linked(ids: &mut Vec<OpId>, entry: OpId, newer: &[OpId]) -> Result<(), AllocError>
    ensures { OnOk result (ids.new.items ≡ ids.old.items ++ linked_by entry newer.now) }
{
    if newer.is_empty() {
        return Ok(());
    }
    ids.push(entry)?;
    ids.extend_from_slice(newer)?;
    Ok(())
}

fn push_rows(ids: &mut Vec<OpId>, rows: &[Row]) -> Result<(), AllocError>
    ensures { OnOk result (ids.new.items ≡ ids.old.items ++ flat_map (λ (r : OneRow). linked_by r.entry r.newer) (map row_seen rows.now)) }
{
    let mut rest = rows;
    while let Some((row, others)) = rest.split_first() {
        push_linked(ids, row.entry, &row.newer)?;
        rest = others;
    }
    Ok(())
}

fn push_conflicts(ids: &mut Vec<OpId>, conflicts: &[Conflict]) -> Result<(), AllocError>
    ensures { OnOk result (ids.new.items ≡ ids.old.items ++ flat_map (λ (c : Contested). c.entries) (map conflict_seen conflicts.now)) }
{
    let mut rest = conflicts;
    while let Some((one, others)) = rest.split_first() {
        ids.extend_from_slice(&one.entries)?;
        rest = others;
    }
    Ok(())
}

// Appends an id that was not entered, and the entry that supersedes it, if the operation names such.
fn push_awaited_link(ids: &mut Vec<OpId>, register: &Register, op: &Op) -> Result<(), AllocError>
    ensures { OnOk result (ids.new.items ≡ ids.old.items ++ links_in register.now.ops op.now) }
{
    match op.body() {
        OpBody::Enter(_) => {}
        OpBody::Retire { entry: _ } => {}
        OpBody::Supersede { old, newer } => {
            if is_entered(register, *old) {
                return Ok(());
            }
            ids.push(*old)?;
            ids.push(*newer)?;
        }
    }
    Ok(())
}

fn push_awaited_links(
    ids: &mut Vec<OpId>,
    register: &Register,
    ops: &[Op],
) -> Result<(), AllocError>
    ensures { OnOk result (ids.new.items ≡ ids.old.items ++ flat_map (links_in register.now.ops) ops.now) }
{
    let mut rest = ops;
    while let Some((op, others)) = rest.split_first() {
        push_awaited_link(ids, register, op)?;
        rest = others;
    }
    Ok(())
}

// The entries with an edge, and those in conflict, sorted.
fn linked(
    alloc: Global,
    register: &Register,
    rows: &[Row],
    conflicts: &[Conflict],
) -> Result<Vec<OpId>, AllocError>
    ensures permutation { IfOk result (λ ids. IsPermutation (linked register.now.ops (map row_seen rows.now) (map conflict_seen conflicts.now)) ids.items) }
    ensures sorted { IfOk result (λ ids. IsSorted id_cmp ids.items) }
{
    let mut ids = Vec::new(alloc);
    push_rows(&mut ids, rows)?;
    push_conflicts(&mut ids, conflicts)?;
    push_awaited_links(&mut ids, register, register.ops().as_slice())?;
    ids.sort_unstable();
    Ok(ids)
}

fn is_drawn(all: bool, ids: &[OpId], id: OpId) -> bool
    requires { IsSorted id_cmp ids.now }
    ensures { IsTrue result ↔ ((all ≡ true) ⊎ Contains ids.now id) }
{
    if all {
        return true;
    }
    is_among(ids, id)
}

// The first characters of a text.
fn short_of(alloc: Global, text: &[u8]) -> Result<Vec<u8>, AllocError>
    ensures { IfOk result (λ made. made.items ≡ short text.now) }
{
    let mut made = Vec::new(alloc);
    push_short(&mut made, text)?;
    Ok(made)
}

// Appends the node of an entry. Of its key and its name there are the first characters: Graphviz refuses a graph with a long label.
fn push_drawn(alloc: Global, text: &mut Vec<u8>, row: &Row) -> Result<(), AllocError>
    ensures { OnOk result ((t : Title) × IsLabel (row_seen row.now) t × (text.new.items ≡ text.old.items ++ node t (color_of (Some row.now.status)))) }
{
    let entry = printed(alloc, row.entry)?;
    let title = title_of(row, &entry);
    let authority = short_of(alloc, title.authority)?;
    let code = short_of(alloc, title.code)?;
    let name = short_of(alloc, title.name)?;
    let label = Label {
        entry: title.entry,
        authority: &authority,
        code: &code,
        name: &name,
        status: title.status,
    };
    push_node(text, &label, color_of(row.status))?;
    Ok(())
}

fn push_row(
    alloc: Global,
    text: &mut Vec<u8>,
    all: bool,
    ids: &[OpId],
    row: &Row,
) -> Result<(), AllocError>
    requires { IsSorted id_cmp ids.now }
    ensures { OnOk result ((bytes : List ℕ) × IsNodeOf all ids.now (row_seen row.now) bytes × (text.new.items ≡ text.old.items ++ bytes)) }
{
    if !is_drawn(all, ids, row.entry) {
        return Ok(());
    }
    push_drawn(alloc, text, row)?;
    Ok(())
}

fn push_nodes(
    alloc: Global,
    text: &mut Vec<u8>,
    all: bool,
    ids: &[OpId],
    rows: &[Row],
) -> Result<(), AllocError>
    requires { IsSorted id_cmp ids.now }
    ensures { OnOk result ((nodes : List ℕ) × Each (IsNodeOf all ids.now) (map row_seen rows.now) nodes × (text.new.items ≡ text.old.items ++ nodes)) }
{
    let mut rest = rows;
    while let Some((row, others)) = rest.split_first() {
        push_row(alloc, text, all, ids, row)?;
        rest = others;
    }
    Ok(())
}

fn push_edges_from(
    alloc: Global,
    text: &mut Vec<u8>,
    names: &Names<'_>,
    register: &Register,
    entry: OpId,
    newer: &[OpId],
) -> Result<(), AllocError>
    ensures { OnOk result (text.new.items ≡ text.old.items ++ edges_from names.now register.now.ops entry newer.now) }
{
    let mut rest = newer;
    while let Some((one, others)) = rest.split_first() {
        push_edge_of(alloc, text, names, register, entry, *one)?;
        rest = others;
    }
    Ok(())
}

fn push_edges(
    alloc: Global,
    text: &mut Vec<u8>,
    names: &Names<'_>,
    register: &Register,
    rows: &[Row],
) -> Result<(), AllocError>
    ensures { OnOk result (text.new.items ≡ text.old.items ++ flat_map (edges_of names.now register.now.ops) (map row_seen rows.now)) }
{
    let mut rest = rows;
    while let Some((row, others)) = rest.split_first() {
        push_edges_from(alloc, text, names, register, row.entry, &row.newer)?;
        rest = others;
    }
    Ok(())
}

// Appends an edge from an id that was not entered to the entry that supersedes it, if the operation names such.
fn push_awaited_edge(
    alloc: Global,
    text: &mut Vec<u8>,
    names: &Names<'_>,
    register: &Register,
    op: &Op,
) -> Result<(), AllocError>
    ensures { OnOk result (text.new.items ≡ text.old.items ++ edges_in names.now register.now.ops op.now) }
{
    match op.body() {
        OpBody::Enter(_) => {}
        OpBody::Retire { entry: _ } => {}
        OpBody::Supersede { old, newer } => {
            if is_entered(register, *old) {
                return Ok(());
            }
            push_edge_of(alloc, text, names, register, *old, *newer)?;
        }
    }
    Ok(())
}

fn push_awaited_edges(
    alloc: Global,
    text: &mut Vec<u8>,
    names: &Names<'_>,
    register: &Register,
    ops: &[Op],
) -> Result<(), AllocError>
    ensures { OnOk result (text.new.items ≡ text.old.items ++ flat_map (edges_in names.now register.now.ops) ops.now) }
{
    let mut rest = ops;
    while let Some((op, others)) = rest.split_first() {
        push_awaited_edge(alloc, text, names, register, op)?;
        rest = others;
    }
    Ok(())
}

// Appends the edges of the rows, and those from ids that were not entered.
fn push_all_edges(
    alloc: Global,
    text: &mut Vec<u8>,
    names: &Names<'_>,
    register: &Register,
    rows: &[Row],
) -> Result<(), AllocError>
    ensures { OnOk result (text.new.items ≡ text.old.items ++ all_edges names.now register.now.ops (map row_seen rows.now)) }
{
    push_edges(alloc, text, names, register, rows)?;
    push_awaited_edges(alloc, text, names, register, register.ops().as_slice())?;
    Ok(())
}

fn push_rivals_from(
    alloc: Global,
    text: &mut Vec<u8>,
    first: OpId,
    entries: &[OpId],
) -> Result<(), AllocError>
    ensures { OnOk result (text.new.items ≡ text.old.items ++ rivals_from first entries.now) }
{
    let least = printed(alloc, first)?;
    let mut rest = entries;
    while let Some((one, others)) = rest.split_first() {
        let other = printed(alloc, *one)?;
        push_rivals(text, &least, &other)?;
        rest = others;
    }
    Ok(())
}

fn push_rivals_of(alloc: Global, text: &mut Vec<u8>, entries: &[OpId]) -> Result<(), AllocError>
    ensures { OnOk result (text.new.items ≡ text.old.items ++ rivals_among entries.now) }
{
    let Some((first, others)) = entries.split_first() else {
        return Ok(());
    };
    push_rivals_from(alloc, text, *first, others)?;
    Ok(())
}

fn push_all_rivals(
    alloc: Global,
    text: &mut Vec<u8>,
    conflicts: &[Conflict],
) -> Result<(), AllocError>
    ensures { OnOk result (text.new.items ≡ text.old.items ++ flat_map rivals_of (map conflict_seen conflicts.now)) }
{
    let mut rest = conflicts;
    while let Some((one, others)) = rest.split_first() {
        push_rivals_of(alloc, text, &one.entries)?;
        rest = others;
    }
    Ok(())
}

// Appends the parts of the graph.
fn push_graph(
    alloc: Global,
    text: &mut Vec<u8>,
    all: bool,
    names: &Names<'_>,
    register: &Register,
    rows: &[Row],
    conflicts: &[Conflict],
) -> Result<(), AllocError>
    ensures { OnOk result ((nodes : List ℕ) × Each (IsNodeOf all (linked register.now.ops (map row_seen rows.now) (map conflict_seen conflicts.now))) (map row_seen rows.now) nodes
        × (text.new.items ≡ text.old.items ++ (markup.GRAPH_START.now ++ nodes ++ all_edges names.now register.now.ops (map row_seen rows.now) ++ flat_map rivals_of (map conflict_seen conflicts.now) ++ markup.GRAPH_END.now))) }
{
    let ids = linked(alloc, register, rows, conflicts)?;
    text.extend_from_slice(GRAPH_START)?;
    push_nodes(alloc, text, all, &ids, rows)?;
    push_all_edges(alloc, text, names, register, rows)?;
    push_all_rivals(alloc, text, conflicts)?;
    text.extend_from_slice(GRAPH_END)?;
    Ok(())
}

/// The graph of a register: of all its entries, or of those that have an edge or are in conflict. In the place of ids, names of
/// offices are read.
pub fn graph_text(
    alloc: Global,
    register: &Register,
    all: bool,
    names: &[Name],
) -> Result<Vec<u8>, AllocError>
    ensures { IfOk result (λ text. IsGraph all names.now register.now text.items) }
{
    let rows = rows(alloc, register)?;
    let conflicts = conflicts(alloc, register)?;
    let names = Names::indexed(alloc, names)?;
    let mut text = Vec::new(alloc);
    push_graph(alloc, &mut text, all, &names, register, &rows, &conflicts)?;
    Ok(text)
}
