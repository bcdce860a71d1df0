//! What is read in the place of ids.

ghost use Rattle.std.specs.Prelude.{◌≡◌, IfOk};
ghost use Rattle.uuid.specs.Text.{hyphenated_text, lower};
ghost use Rattle.reg_op.specs.Text.{printed};
ghost use Rattle.reg_page.specs.Page.{named};

use csv_table::offices::{Name, named};
use reg_op::OpId;
use reg_report::printed;
use std::alloc::{AllocError, Global};
use uuid::Uuid;

/// What is read in the place of an id.
pub fn read_for_id(alloc: Global, names: &[Name], id: OpId) -> Result<Vec<u8>, AllocError>
    ensures { IfOk result (λ read. read.items ≡ named names.now (printed id)) }
{
    let text = printed(alloc, id)?;
    let read = named(alloc, false, names, &text)?;
    Ok(read)
}

/// What is read in the place of the UUID of an office.
pub fn read_for_office(alloc: Global, names: &[Name], replica: Uuid) -> Result<Vec<u8>, AllocError>
    ensures { IfOk result (λ read. read.items ≡ named names.now (hyphenated_text lower replica)) }
{
    let mut buffer = Uuid::encode_buffer();
    let text = replica.hyphenated().encode_lower(&mut buffer);
    let read = named(alloc, false, names, text.as_bytes())?;
    Ok(read)
}
