//! The rows of entries.

ghost use Rattle.std.specs.Prelude.{◌≡◌, ◌++◌, ℕ, map, OnOk};
ghost use Rattle.std.specs.List.{flat_map};
ghost use Rattle.std.specs.List.Sorted.{IsSortedByKey};
ghost use Rattle.std.specs.Global.{Vec as Owned};
ghost use Rattle.html_page.specs.Pieces.{Appends};
ghost use Rattle.html_page.specs.Shown.{SupersededBy, RetiredBy};
ghost use Rattle.html_page.specs.Templates.{operation, event, map_of, entry_text, same_text, text_or_link, question, area, by, entry};
ghost use Rattle.reg_op.specs.Text.{printed};
ghost use Rattle.reg_op.specs.Status.{status};
ghost use Rattle.reg_op.specs.Ids.{id_cmp};
ghost use Rattle.reg_page.specs.Boxes.{box_seen};
ghost use Rattle.reg_page.specs.Descriptions.{AscendById};
ghost use Rattle.reg_page.specs.Page.{standing_of, link_to, subject, links_in, events_in, printed_if, entry_of, named};

use crate::acts::acts_on;
use crate::boxes::Edges;
use crate::described::{Described, DescribedSystem};
use crate::kind::kind_word;
use crate::links::push_link_to;
use crate::names::read_for_id;
use csv_table::offices::Name;
use html_page::markup::{AFTER_BY, AFTER_ENTRY, AFTER_HISTORY, BY, RETIRED_BY, SUPERSEDED_BY};
use html_page::{
    Standing, push_area, push_conflict_link, push_entry_id, push_entry_start, push_entry_text,
    push_map, push_mark, push_operation_id, push_operation_note, push_question, push_same_text,
    push_standing,
};
use reg_op::{Op, OpBody, OpId, Status};
use reg_report::printed;
use reg_state::Register;
use std::alloc::{AllocError, Global};

/// The status of an entry.
pub fn standing_of(register: &Register, id: OpId) -> Standing
    ensures { result ≡ standing_of (status register.now.ops id) }
{
    match register.status(id) {
        Some(Status::Superseded) => Standing::Superseded,
        Some(Status::Retired) => Standing::Retired,
        _ => Standing::Valid,
    }
}

// Appends the id and the note of an operation.
fn push_operation(
    alloc: Global,
    page: &mut Vec<u8>,
    names: &[Name],
    op: &Op,
) -> Result<(), AllocError>
    ensures { OnOk result (Appends page.old.items page.new.items (operation (named names.now (printed op.now.id)) op.now.note)) }
{
    let read = read_for_id(alloc, names, op.id())?;
    push_operation_id(page, &read)?;
    push_operation_note(page, op.note().as_bytes())?;
    Ok(())
}

fn push_superseded(
    alloc: Global,
    page: &mut Vec<u8>,
    names: &[Name],
    described: &[Described],
    newer: OpId,
    op: &Op,
) -> Result<(), AllocError>
    requires { AscendById described.now }
    ensures { OnOk result (Appends page.old.items page.new.items (event (named names.now) (SupersededBy (link_to described.now newer) (printed op.now.id) op.now.note))) }
{
    push_mark(page, SUPERSEDED_BY)?;
    push_link_to(alloc, page, names, described, newer)?;
    push_operation(alloc, page, names, op)?;
    Ok(())
}

fn push_retired(
    alloc: Global,
    page: &mut Vec<u8>,
    names: &[Name],
    op: &Op,
) -> Result<(), AllocError>
    ensures { OnOk result (Appends page.old.items page.new.items (event (named names.now) (RetiredBy (printed op.now.id) op.now.note))) }
{
    push_mark(page, RETIRED_BY)?;
    push_operation(alloc, page, names, op)?;
    Ok(())
}

// Appends what an operation does to the entry, if it does something to it.
fn push_event(
    alloc: Global,
    page: &mut Vec<u8>,
    names: &[Name],
    described: &[Described],
    entry: OpId,
    op: &Op,
) -> Result<(), AllocError>
    requires { AscendById described.now }
    ensures { OnOk result (Appends page.old.items page.new.items (flat_map (event (named names.now)) (events_in described.now entry op.now))) }
{
    match op.body() {
        OpBody::Enter(_) => Ok(()),
        OpBody::Supersede { old, newer } => {
            if old.is_same(&entry) {
                push_superseded(alloc, page, names, described, *newer, op)?;
                return Ok(());
            }
            Ok(())
        }
        OpBody::Retire { entry: retired } => {
            if retired.is_same(&entry) {
                push_retired(alloc, page, names, op)?;
                return Ok(());
            }
            Ok(())
        }
    }
}

// Appends what the operations do to the entry.
fn push_events(
    alloc: Global,
    page: &mut Vec<u8>,
    names: &[Name],
    described: &[Described],
    entry: OpId,
    acts: &[Op],
) -> Result<(), AllocError>
    requires { AscendById described.now }
    ensures { OnOk result (Appends page.old.items page.new.items (flat_map (event (named names.now)) (flat_map (events_in described.now entry) acts.now))) }
{
    let mut rest = acts;
    while let Some((op, others)) = rest.split_first() {
        push_event(alloc, page, names, described, entry, op)?;
        rest = others;
    }
    Ok(())
}

fn push_link_by(
    alloc: Global,
    page: &mut Vec<u8>,
    names: &[Name],
    described: &[Described],
    newer: OpId,
) -> Result<(), AllocError>
    requires { AscendById described.now }
    ensures { OnOk result (Appends page.old.items page.new.items (by (named names.now) (link_to described.now newer))) }
{
    push_mark(page, BY)?;
    push_link_to(alloc, page, names, described, newer)?;
    push_mark(page, AFTER_BY)?;
    Ok(())
}

// Appends a link to the entry that supersedes this one by the operation, if it is one of this entry.
fn push_by(
    alloc: Global,
    page: &mut Vec<u8>,
    names: &[Name],
    described: &[Described],
    entry: OpId,
    op: &Op,
) -> Result<(), AllocError>
    requires { AscendById described.now }
    ensures { OnOk result (Appends page.old.items page.new.items (flat_map (by (named names.now)) (links_in described.now entry op.now))) }
{
    match op.body() {
        OpBody::Enter(_) => Ok(()),
        OpBody::Supersede { old, newer } => {
            if old.is_same(&entry) {
                push_link_by(alloc, page, names, described, *newer)?;
                return Ok(());
            }
            Ok(())
        }
        OpBody::Retire { entry: _ } => Ok(()),
    }
}

// Appends links to the entries that supersede this one.
fn push_bys(
    alloc: Global,
    page: &mut Vec<u8>,
    names: &[Name],
    described: &[Described],
    entry: OpId,
    acts: &[Op],
) -> Result<(), AllocError>
    requires { AscendById described.now }
    ensures { OnOk result (Appends page.old.items page.new.items (flat_map (by (named names.now)) (flat_map (links_in described.now entry) acts.now))) }
{
    let mut rest = acts;
    while let Some((op, others)) = rest.split_first() {
        push_by(alloc, page, names, described, entry, op)?;
        rest = others;
    }
    Ok(())
}

// Appends a map of each box.
fn push_maps(page: &mut Vec<u8>, boxes: &[Edges]) -> Result<(), AllocError>
    ensures { OnOk result (Appends page.old.items page.new.items (flat_map map_of (map box_seen boxes.now))) }
{
    let mut rest = boxes;
    while let Some((one, others)) = rest.split_first() {
        push_map(
            page,
            &one.south,
            &one.west,
            &one.north,
            &one.east,
            one.crosses,
        )?;
        rest = others;
    }
    Ok(())
}

fn push_areas(page: &mut Vec<u8>, areas: &[Vec<u8>]) -> Result<(), AllocError>
    ensures { OnOk result (Appends page.old.items page.new.items (flat_map area (map (λ (a : Owned ℕ). a.items) areas.now))) }
{
    let mut rest = areas;
    while let Some((one, others)) = rest.split_first() {
        push_area(page, one)?;
        rest = others;
    }
    Ok(())
}

fn push_questions(page: &mut Vec<u8>, questions: &[Vec<u8>]) -> Result<(), AllocError>
    ensures { OnOk result (Appends page.old.items page.new.items (flat_map question (map (λ (q : Owned ℕ). q.items) questions.now))) }
{
    let mut rest = questions;
    while let Some((one, others)) = rest.split_first() {
        push_question(page, one)?;
        rest = others;
    }
    Ok(())
}

fn push_text(page: &mut Vec<u8>, system: &DescribedSystem) -> Result<(), AllocError>
    ensures { OnOk result (Appends page.old.items page.new.items (flat_map map_of (map box_seen system.now.boxes.items) ++ entry_text system.now.text.items ++ flat_map question (map (λ (q : Owned ℕ). q.items) system.now.questions.items))) }
{
    push_maps(page, &system.boxes)?;
    push_entry_text(page, &system.text)?;
    push_questions(page, &system.questions)?;
    Ok(())
}

// Appends a link to the row of an entry with the same text.
fn push_link_to_text(
    alloc: Global,
    page: &mut Vec<u8>,
    names: &[Name],
    same: OpId,
) -> Result<(), AllocError>
    ensures { OnOk result (Appends page.old.items page.new.items (same_text (printed same) (named names.now (printed same)))) }
{
    let id = printed(alloc, same)?;
    let read = read_for_id(alloc, names, same)?;
    push_same_text(page, &id, &read)?;
    Ok(())
}

// Appends the boxes, the text and the questions of a reference system, or a link to the row that has them.
fn push_text_or_link(
    alloc: Global,
    page: &mut Vec<u8>,
    names: &[Name],
    system: &DescribedSystem,
    same: Option<OpId>,
) -> Result<(), AllocError>
    ensures { OnOk result (Appends page.old.items page.new.items (text_or_link (named names.now) (printed_if same) (map box_seen system.now.boxes.items) system.now.text.items (map (λ (q : Owned ℕ). q.items) system.now.questions.items))) }
{
    match same {
        Some(id) => push_link_to_text(alloc, page, names, id),
        None => push_text(page, system),
    }
}

/// Appends the row of an entry.
pub fn push_entry(
    alloc: Global,
    page: &mut Vec<u8>,
    names: &[Name],
    register: &Register,
    described: &[Described],
    acts: &[Op],
    one: &Described,
    same: Option<OpId>,
    contested: bool,
) -> Result<(), AllocError>
    requires ascend { AscendById described.now }
    requires sorted { IsSortedByKey subject id_cmp acts.now }
    ensures { OnOk result (Appends page.old.items page.new.items (entry (named names.now) (entry_of register.now.ops described.now acts.now same contested one.now))) }
{
    let system = &one.system;
    let mine = acts_on(acts, one.id);
    let id = printed(alloc, one.id)?;
    let read = read_for_id(alloc, names, one.id)?;
    let key = one.key.get();
    push_entry_start(
        page,
        &id,
        key.authority.as_bytes(),
        key.code.as_bytes(),
        &system.name,
    )?;
    push_text_or_link(alloc, page, names, system, same)?;
    push_entry_id(page, &read, &one.note)?;
    push_events(alloc, page, names, described, one.id, mine)?;
    push_mark(page, AFTER_HISTORY)?;
    push_areas(page, &system.areas)?;
    push_standing(page, kind_word(system.kind), standing_of(register, one.id))?;
    push_bys(alloc, page, names, described, one.id, mine)?;
    push_conflict_link(
        page,
        key.authority.as_bytes(),
        key.code.as_bytes(),
        contested,
    )?;
    push_mark(page, AFTER_ENTRY)?;
    Ok(())
}
