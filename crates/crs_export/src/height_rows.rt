//! The rows of a vertical reference system.

ghost use Rattle.std.specs.Prelude.{◌≡◌, ◌++◌, OnOk};
ghost use Rattle.crs_export.specs.Heights.{height_bytes};
ghost use Rattle.crs_export.specs.Rows.{unit_row, system_row, axis_row, frame_row, vertical_row, height_rows};

use crate::height::Height;
use crate::markup::{
    AXIS, COMMA, FIRST_OF_OWNER, FRAME, KEY_END, LENGTH, OF_OWNER, ROW_END, SYSTEM, SYSTEM_END,
    UNIT, VERTICAL,
};
use crate::row_text::{push_field, push_owner_end};
use std::alloc::AllocError;

fn push_unit(text: &mut Vec<u8>, entry: &[u8], height: &Height<'_>) -> Result<(), AllocError>
    ensures { OnOk result (text.new.items ≡ text.old.items ++ unit_row entry.now (height_bytes height.now)) }
{
    push_field(text, UNIT, entry)?;
    push_field(text, COMMA, height.unit)?;
    text.extend_from_slice(LENGTH)?;
    height.factor.write_to(text)?;
    text.extend_from_slice(ROW_END)?;
    Ok(())
}

fn push_system(text: &mut Vec<u8>, entry: &[u8]) -> Result<(), AllocError>
    ensures { OnOk result (text.new.items ≡ text.old.items ++ system_row entry.now) }
{
    push_field(text, SYSTEM, entry)?;
    text.extend_from_slice(SYSTEM_END)?;
    Ok(())
}

fn push_axis(text: &mut Vec<u8>, entry: &[u8], height: &Height<'_>) -> Result<(), AllocError>
    ensures { OnOk result (text.new.items ≡ text.old.items ++ axis_row entry.now (height_bytes height.now)) }
{
    push_field(text, AXIS, entry)?;
    push_field(text, COMMA, height.axis)?;
    push_field(text, COMMA, height.abbreviation)?;
    push_field(text, COMMA, height.direction)?;
    push_owner_end(text, entry, FIRST_OF_OWNER, KEY_END)?;
    Ok(())
}

fn push_frame(text: &mut Vec<u8>, entry: &[u8], height: &Height<'_>) -> Result<(), AllocError>
    ensures { OnOk result (text.new.items ≡ text.old.items ++ frame_row entry.now (height_bytes height.now)) }
{
    push_field(text, FRAME, entry)?;
    push_field(text, COMMA, height.frame)?;
    text.extend_from_slice(ROW_END)?;
    Ok(())
}

fn push_vertical(
    text: &mut Vec<u8>,
    authority: &[u8],
    code: &[u8],
    entry: &[u8],
    name: &[u8],
) -> Result<(), AllocError>
    ensures { OnOk result (text.new.items ≡ text.old.items ++ vertical_row authority.now code.now entry.now name.now) }
{
    push_field(text, VERTICAL, authority)?;
    push_field(text, COMMA, code)?;
    push_field(text, COMMA, name)?;
    push_owner_end(text, entry, OF_OWNER, ROW_END)?;
    Ok(())
}

/// Appends the rows of a vertical system with this key, by the id of its entry.
pub fn push_height(
    text: &mut Vec<u8>,
    authority: &[u8],
    code: &[u8],
    entry: &[u8],
    height: &Height<'_>,
) -> Result<(), AllocError>
    ensures { OnOk result (text.new.items ≡ text.old.items ++ height_rows authority.now code.now entry.now (height_bytes height.now)) }
{
    push_unit(text, entry, height)?;
    push_system(text, entry)?;
    push_axis(text, entry, height)?;
    push_frame(text, entry, height)?;
    push_vertical(text, authority, code, entry, height.name)?;
    Ok(())
}
