//! The parameters that a method needs.

ghost use Rattle.std.specs.Prelude.{◌≡◌};
ghost use Rattle.std.specs.List.{find, list_any};
ghost use Rattle.std.specs.Option.{option_map};
ghost use Rattle.crs_exact.specs.Tables.{pieces};
ghost use Rattle.crs_conversion.specs.Needs.{is_named_so, is_coded_so, is_parameter, is_missing, parameter_name};

use crate::codes::{epsg_code, first_name, has_name};
use crate::tables::PARAMETERS;
use crs_exact::{is_code, row_of, split_piece};
use crs_number::Decimal;
use crs_part::Parameter;

/// The code of the first of these parameters that a conversion lacks.
pub(crate) fn first_missing<'a>(needed: &'a [u8], parameters: &[Parameter]) -> Option<&'a [u8]>
    ensures { option_map (λ code. code.now) result ≡ find (is_missing parameters.now) (pieces 44 needed.now) }
{
    let mut rest = needed;
    while let Some((code, others)) = split_piece(rest, b',') {
        if is_missing(parameters, code) {
            return Some(code);
        }
        rest = others;
    }
    if is_missing(parameters, rest) {
        return Some(rest);
    }
    None
}

fn is_missing(parameters: &[Parameter], code: &[u8]) -> bool
    ensures { result ≡ is_missing parameters.now code.now }
{
    !has_parameter(row_of(PARAMETERS, code), code, parameters)
}

fn has_parameter(row: Option<&[u8]>, code: &[u8], parameters: &[Parameter]) -> bool
    ensures { result ≡ list_any (is_parameter (option_map (λ row. row.now) row.entry) code.now) parameters.now }
{
    parameters.iter().any(|p| is_parameter(row, code, p))
}

// By a name or by the code.
fn is_parameter(row: Option<&[u8]>, code: &[u8], parameter: &Parameter) -> bool
    ensures { result ≡ is_parameter (option_map (λ row. row.now) row.entry) code.now parameter.now }
{
    is_named_so(row, parameter.name.as_bytes())
        || is_coded_so(code, epsg_code(parameter.ids.as_slice()))
}

fn is_named_so(row: Option<&[u8]>, name: &[u8]) -> bool
    ensures { result ≡ is_named_so (option_map (λ row. row.now) row.entry) name.now }
{
    match row {
        Some(row) => has_name(row, name),
        None => false,
    }
}

fn is_coded_so(code: &[u8], number: Option<Decimal>) -> bool
    ensures { result ≡ is_coded_so code.now number }
{
    match number {
        Some(number) => is_code(code, number),
        None => false,
    }
}

/// The name of the parameter with this code.
pub(crate) fn parameter_name(code: &[u8]) -> &'static [u8]
    ensures { result.now ≡ parameter_name code.now }
{
    match row_of(PARAMETERS, code) {
        Some(row) => first_name(row),
        None => b"",
    }
}
