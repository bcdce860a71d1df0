//! The report of offices, line by line.

ghost use Rattle.std.specs.Prelude.{◌≡◌, IfOk, OnOk};
ghost use Rattle.reg_report.specs.Lines.{sheet_of, IsReady, WritesRow};
ghost use Rattle.reg_query.specs.Offices.{offices_header, office_fields};

use crate::figures::office::OfficeFigures;
use csv::Writer;
use reg_report::write_fields;
use std::alloc::{AllocError, Global};
use uuid::Uuid;

fn write_header(wtr: &mut Writer<Vec<u8>>) -> Result<(), AllocError>
    requires { IsReady wtr.old }
    ensures { OnOk result (WritesRow wtr.old wtr.new offices_header) }
{
    write_fields(wtr, &[b"replica", b"greatest", b"missing", b"kept"])
}

fn write_office(
    alloc: Global,
    wtr: &mut Writer<Vec<u8>>,
    office: &OfficeFigures,
) -> Result<(), AllocError>
    requires { IsReady wtr.old }
    ensures { OnOk result (WritesRow wtr.old wtr.new (office_fields office.now)) }
{
    let mut buffer = Uuid::encode_buffer();
    let replica = office.replica.hyphenated().encode_lower(&mut buffer);
    let greatest = office.greatest.to_string(alloc)?;
    let missing = office.missing.to_string(alloc)?;
    let kept = office.kept.to_string(alloc)?;
    write_fields(
        wtr,
        &[
            replica.as_bytes(),
            greatest.as_bytes(),
            missing.as_bytes(),
            kept.as_bytes(),
        ],
    )
}

/// A header, and a line for each office.
pub fn offices_text(alloc: Global, offices: &[OfficeFigures]) -> Result<Vec<u8>, AllocError>
    ensures { IfOk result (λ text. text.items ≡ sheet_of offices_header office_fields offices.now) }
{
    let mut wtr = Writer::from_writer(Vec::new(alloc));
    write_header(&mut wtr)?;
    for office in offices {
        write_office(alloc, &mut wtr, office)?;
    }
    match wtr.into_inner() {
        Ok(text) => Ok(text),
        Err(_) => Err(AllocError),
    }
}
