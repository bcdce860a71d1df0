//! The lines of reports.

ghost use Rattle.std.specs.Prelude.{map, OnOk};
ghost use Rattle.reg_report.specs.Lines.{IsReady, WritesRow};

use csv::Writer;
use std::alloc::AllocError;

/// Writes a line of these fields.
pub fn write_fields(wtr: &mut Writer<Vec<u8>>, fields: &[&[u8]]) -> Result<(), AllocError>
    requires { IsReady wtr.old }
    ensures { OnOk result (WritesRow wtr.old wtr.new (map (λ f. f.now) fields.now)) }
{
    wtr.write_fields(fields).map_err(|_| AllocError)?;
    Ok(())
}
