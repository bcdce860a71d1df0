//! Edges of a graph, and the labels of ids that were not entered.

ghost use Rattle.std.specs.Prelude.{◌≡◌, ◌++◌, OnOk};
ghost use Rattle.reg_op.specs.Text.{printed};
ghost use Rattle.crs_export.specs.Graphs.{edge};
ghost use Rattle.reg_export.specs.Graph.{label_for, label_of, edge_of};

use crs_export::{push_caption, push_edge};
use csv_table::offices::{Names, named_in};
use reg_op::OpId;
use reg_report::{is_entered, printed};
use reg_state::Register;
use std::alloc::{AllocError, Global};

// Appends the label of an id, if something else is read in its place.
fn push_label_for(text: &mut Vec<u8>, id: &[u8], read: &[u8]) -> Result<(), AllocError>
    ensures { OnOk result (text.new.items ≡ text.old.items ++ label_for id.now read.now) }
{
    if read == id {
        return Ok(());
    }
    push_caption(text, id, read)?;
    Ok(())
}

// The same, unless the id was entered.
fn push_label(
    alloc: Global,
    text: &mut Vec<u8>,
    names: &Names<'_>,
    register: &Register,
    id: OpId,
) -> Result<(), AllocError>
    ensures { OnOk result (text.new.items ≡ text.old.items ++ label_of names.now register.now.ops id) }
{
    if is_entered(register, id) {
        return Ok(());
    }
    let own = printed(alloc, id)?;
    let read = named_in(alloc, false, names, &own)?;
    push_label_for(text, &own, &read)?;
    Ok(())
}

fn push_ids(alloc: Global, text: &mut Vec<u8>, old: OpId, newer: OpId) -> Result<(), AllocError>
    ensures { OnOk result (text.new.items ≡ text.old.items ++ edge (printed old) (printed newer)) }
{
    let before = printed(alloc, old)?;
    let after = printed(alloc, newer)?;
    push_edge(text, &before, &after)?;
    Ok(())
}

/// Appends an edge from an id to the entry that supersedes it, behind their labels.
pub fn push_edge_of(
    alloc: Global,
    text: &mut Vec<u8>,
    names: &Names<'_>,
    register: &Register,
    old: OpId,
    newer: OpId,
) -> Result<(), AllocError>
    ensures { OnOk result (text.new.items ≡ text.old.items ++ edge_of names.now register.now.ops old newer) }
{
    push_label(alloc, text, names, register, old)?;
    push_label(alloc, text, names, register, newer)?;
    push_ids(alloc, text, old, newer)?;
    Ok(())
}
