//! Conversions that do not fit their method.

ghost use Rattle.std.specs.Prelude.{◌≡◌};
ghost use Rattle.std.specs.List.{list_any};
ghost use Rattle.std.specs.Option.{option_map};
ghost use Rattle.crs_exact.specs.Said.{sentence};
ghost use Rattle.crs_conversion.specs.Operation.{misnamed_said, misnamed, misnamed_parameter, first_misnamed, named_so, repeated, repeated_in, lacking_said, lacking, odd_in, operation};

use crate::codes::{first_name, has_name, known, needs};
use crate::needs::{first_missing, parameter_name};
use crate::tables::{METHODS, PARAMETERS};
use crs_exact::{END, Finding, Piece, is_named, projected_in};
use crs_part::{Conversion, Parameter, Single};

/// A method or a parameter that has the code of EPSG of another one, a parameter that is given twice, or one that the method needs and
/// the conversion lacks.
pub fn odd_operation(crs: &Single) -> Option<Finding<'_>>
    ensures { option_map sentence result ≡ operation crs.now }
{
    match projected_in(crs) {
        Some(crs) => odd_in(&crs.conversion),
        None => None,
    }
}

fn odd_in(conversion: &Conversion) -> Option<Finding<'_>>
    ensures { option_map sentence result ≡ odd_in conversion.now }
{
    let method = known(METHODS, conversion.method.ids.as_slice());
    let name = conversion.method.name.as_bytes();
    if let Some(found) = misnamed(b"the method", name, method) {
        return Some(found);
    }
    let parameters = conversion.parameters.as_slice();
    if let Some(found) = first_misnamed(parameters) {
        return Some(found);
    }
    if let Some(found) = repeated_in(parameters) {
        return Some(found);
    }
    lacking(method, name, parameters)
}

// A name beside that of the row.
fn misnamed<'a>(what: &'a [u8], name: &'a [u8], row: Option<&'a [u8]>) -> Option<Finding<'a>>
    ensures { option_map sentence result ≡ misnamed what.now name.now (option_map (λ row. row.now) row.entry) }
{
    let Some(row) = row else {
        return None;
    };
    if has_name(row, name) {
        return None;
    }
    Some(misnamed_said(what, name, row))
}

fn misnamed_said<'a>(what: &'a [u8], name: &'a [u8], row: &'a [u8]) -> Finding<'a>
    ensures { sentence result ≡ misnamed_said what.now name.now row.now }
{
    Finding::of_words([
        Piece::Text(what),
        Piece::Text(b" \""),
        Piece::Text(name),
        Piece::Text(b"\" has the code of \""),
        Piece::Text(first_name(row)),
        Piece::Text(b"\""),
        END,
        END,
        END,
        END,
        END,
        END,
    ])
}

fn first_misnamed(parameters: &[Parameter]) -> Option<Finding<'_>>
    ensures { option_map sentence result ≡ first_misnamed parameters.now }
{
    let mut rest = parameters;
    while let Some((parameter, others)) = rest.split_first() {
        if let Some(found) = misnamed_parameter(parameter) {
            return Some(found);
        }
        rest = others;
    }
    None
}

fn misnamed_parameter(parameter: &Parameter) -> Option<Finding<'_>>
    ensures { option_map sentence result ≡ misnamed_parameter parameter.now }
{
    misnamed(
        b"the parameter",
        parameter.name.as_bytes(),
        known(PARAMETERS, parameter.ids.as_slice()),
    )
}

// The first parameter whose name a later one has, too.
fn repeated(parameters: &[Parameter]) -> Option<&Parameter>
    ensures { option_map (λ p. p.now) result ≡ repeated parameters.now }
{
    let mut rest = parameters;
    while let Some((parameter, others)) = rest.split_first() {
        if has_name_of(parameter.name.as_bytes(), others) {
            return Some(parameter);
        }
        rest = others;
    }
    None
}

fn has_name_of(name: &[u8], parameters: &[Parameter]) -> bool
    ensures { result ≡ list_any (named_so name.now) parameters.now }
{
    parameters.iter().any(|p| is_named(p.name.as_bytes(), name))
}

fn repeated_in(parameters: &[Parameter]) -> Option<Finding<'_>>
    ensures { option_map sentence result ≡ repeated_in parameters.now }
{
    match repeated(parameters) {
        Some(parameter) => Some(Finding::of_words([
            Piece::Text(b"the parameter \""),
            Piece::Text(parameter.name.as_bytes()),
            Piece::Text(b"\" is given twice"),
            END,
            END,
            END,
            END,
            END,
            END,
            END,
            END,
            END,
        ])),
        None => None,
    }
}

// The first parameter that the method of the row needs and the conversion lacks.
fn lacking<'a>(
    row: Option<&'a [u8]>,
    method: &'a [u8],
    parameters: &[Parameter],
) -> Option<Finding<'a>>
    ensures { option_map sentence result ≡ lacking (option_map (λ row. row.now) row.entry) method.now parameters.now }
{
    let Some(row) = row else {
        return None;
    };
    match first_missing(needs(row), parameters) {
        Some(code) => Some(lacking_said(method, code)),
        None => None,
    }
}

fn lacking_said<'a>(method: &'a [u8], code: &[u8]) -> Finding<'a>
    ensures { sentence result ≡ lacking_said method.now code.now }
{
    Finding::of_words([
        Piece::Text(b"the method \""),
        Piece::Text(method),
        Piece::Text(b"\" lacks \""),
        Piece::Text(parameter_name(code)),
        Piece::Text(b"\": each program takes what it likes for it, mostly 0 or 1"),
        END,
        END,
        END,
        END,
        END,
        END,
        END,
    ])
}
