//! The rows of vertical and compound reference systems.

ghost use Rattle.std.specs.Prelude.{◌≡◌, ◌++◌, IfOk, OnOk};
ghost use Rattle.wkt_grammar.specs.Canon.{canon};
ghost use Rattle.crs_part.specs.declared.crs.CrsParts.TheVariants as whole;
ghost use Rattle.crs_export.specs.Heights.{bytes_of, height_bytes, height_in};
ghost use Rattle.crs_export.specs.Rows.{name_in, if_flat, flat_table, flat_between, flat_row, compound_row, both_rows, vertical_rows, with_height, with_table, rows_of};

use crate::height::{Height, height_in, is_named};
use crate::height_rows::push_height;
use crate::markup::{BY_OWNER, COMMA, COMPOUND, HORIZONTAL, HORIZONTAL_AND_OWNER, OWNER, ROW_END};
use crate::names::is_long;
use crate::row_text::{push_field, push_owner_end, start_of, type_of};
use crate::table::{Table, system_table};
use crate::title::Title;
use crs_part::{Compound, CrsParts, Single, TryClone};
use std::alloc::{AllocError, Global};
use wkt_write::write_crs;

fn name_in(crs: &Single) -> &[u8]
    ensures { result.now ≡ name_in crs.now }
{
    match crs {
        Single::Geodetic(crs) => crs.name.as_bytes(),
        Single::Projected(crs) => crs.name.as_bytes(),
        Single::Vertical(crs) => crs.name.as_bytes(),
    }
}

fn if_flat(table: Table) -> Option<Table>
    ensures { result ≡ if_flat table }
{
    match table {
        Table::Geographic2d => Some(Table::Geographic2d),
        Table::Geographic3d => None,
        Table::Geocentric => None,
        Table::OtherGeodetic => None,
        Table::Projected => Some(Table::Projected),
    }
}

// The table of a horizontal component.
fn flat_table(crs: &Single) -> Option<Table>
    ensures { result ≡ flat_table crs.now }
{
    match crs {
        Single::Geodetic(crs) => if_flat(system_table(&crs.system)),
        Single::Projected(_) => Some(Table::Projected),
        Single::Vertical(_) => None,
    }
}

// The canonical text of a component.
fn text_in(alloc: Global, crs: &Single) -> Result<Vec<u8>, AllocError>
    ensures { IfOk result (λ text. text.items ≡ canon (whole.Single crs.now)) }
{
    let parts = CrsParts::Single(crs.try_clone(alloc)?);
    let text = write_crs(alloc, &parts)?;
    Ok(text)
}

fn push_between(
    text: &mut Vec<u8>,
    start: &[u8],
    entry: &[u8],
    name: &[u8],
    kind: &[u8],
    component: &[u8],
) -> Result<(), AllocError>
    ensures { OnOk result (text.new.items ≡ text.old.items ++ flat_between start.now entry.now name.now kind.now component.now) }
{
    text.extend_from_slice(start)?;
    push_field(text, BY_OWNER, entry)?;
    push_field(text, HORIZONTAL, name)?;
    push_field(text, kind, component)?;
    text.extend_from_slice(ROW_END)?;
    Ok(())
}

fn push_flat(
    alloc: Global,
    text: &mut Vec<u8>,
    entry: &[u8],
    table: Table,
    crs: &Single,
) -> Result<(), AllocError>
    ensures { OnOk result (text.new.items ≡ text.old.items ++ flat_row entry.now table crs.now) }
{
    let component = text_in(alloc, crs)?;
    push_between(
        text,
        start_of(table),
        entry,
        name_in(crs),
        type_of(table),
        &component,
    )?;
    Ok(())
}

fn push_compound(text: &mut Vec<u8>, title: &Title<'_>) -> Result<(), AllocError>
    ensures { OnOk result (text.new.items ≡ text.old.items ++ compound_row title.now) }
{
    push_field(text, COMPOUND, title.authority)?;
    push_field(text, COMMA, title.code)?;
    push_field(text, COMMA, title.name)?;
    push_owner_end(text, title.entry, HORIZONTAL_AND_OWNER, ROW_END)?;
    Ok(())
}

fn push_both(
    alloc: Global,
    text: &mut Vec<u8>,
    title: &Title<'_>,
    table: Table,
    first: &Single,
    height: &Height<'_>,
) -> Result<(), AllocError>
    ensures { OnOk result (text.new.items ≡ text.old.items ++ both_rows title.now table first.now (height_bytes height.now)) }
{
    push_flat(alloc, text, title.entry, table, first)?;
    push_height(text, OWNER, title.entry, title.entry, height)?;
    push_compound(text, title)?;
    Ok(())
}

fn push_with_height(
    alloc: Global,
    text: &mut Vec<u8>,
    title: &Title<'_>,
    table: Table,
    first: &Single,
    found: Option<Height<'_>>,
) -> Result<(), AllocError>
    ensures { OnOk result (text.new.items ≡ text.old.items ++ with_height title.now table first.now (bytes_of found.entry)) }
{
    let Some(height) = found else {
        return Ok(());
    };
    if is_named(&height) && is_long(name_in(first)) {
        return push_both(alloc, text, title, table, first, &height);
    }
    Ok(())
}

fn push_with_table(
    alloc: Global,
    text: &mut Vec<u8>,
    title: &Title<'_>,
    compound: &Compound,
    found: Option<Table>,
) -> Result<(), AllocError>
    ensures { OnOk result (text.new.items ≡ text.old.items ++ with_table title.now compound.now found) }
{
    match found {
        Some(table) => push_with_height(
            alloc,
            text,
            title,
            table,
            &compound.first,
            height_in(&compound.second),
        ),
        None => Ok(()),
    }
}

fn push_single(
    text: &mut Vec<u8>,
    title: &Title<'_>,
    found: Option<Height<'_>>,
) -> Result<(), AllocError>
    ensures { OnOk result (text.new.items ≡ text.old.items ++ vertical_rows title.now (bytes_of found.entry)) }
{
    let Some(height) = found else {
        return Ok(());
    };
    if is_named(&height) {
        return push_height(text, title.authority, title.code, title.entry, &height);
    }
    Ok(())
}

fn push_rows(
    alloc: Global,
    text: &mut Vec<u8>,
    title: &Title<'_>,
    crs: &CrsParts,
) -> Result<(), AllocError>
    ensures { OnOk result (text.new.items ≡ text.old.items ++ rows_of title.now crs.now) }
{
    match crs {
        CrsParts::Single(crs) => push_single(text, title, height_in(crs)),
        CrsParts::Compound(compound) => {
            let compound = compound.get();
            push_with_table(alloc, text, title, compound, flat_table(&compound.first))
        }
    }
}

/// The statements that insert a vertical or a compound reference system: rows of its own, and those that it refers to. There are none for
/// other systems, whose tables take a text, nor if PROJ's tables cannot hold it.
pub fn rows_of(alloc: Global, title: &Title<'_>, crs: &CrsParts) -> Result<Vec<u8>, AllocError>
    ensures { IfOk result (λ text. text.items ≡ rows_of title.now crs.now) }
{
    let mut text = Vec::new(alloc);
    push_rows(alloc, &mut text, title, crs)?;
    Ok(text)
}
