//! Standard parallels that are equal or opposite.

ghost use Rattle.std.specs.Prelude.{◌≡◌};
ghost use Rattle.std.specs.List.{find};
ghost use Rattle.std.specs.Option.{option_map};
ghost use Rattle.crs_exact.specs.Said.{sentence};
ghost use Rattle.crs_conversion.specs.Parallels.{is_first_parallel, is_second_parallel, is_same_unit, are_same, parallels};

use crs_exact::{END, Finding, Piece, is_named, is_same_size, parameters_of, unit_of};
use crs_part::{Parameter, Single, Unit};

/// The two standard parallels of a system, if they are equal or opposite.
pub fn odd_parallels(crs: &Single) -> Option<Finding<'_>>
    ensures { option_map sentence result ≡ parallels crs.now }
{
    let parameters = parameters_of(crs);
    let Some(first) = first_parallel(parameters) else {
        return None;
    };
    let Some(second) = second_parallel(parameters) else {
        return None;
    };
    if !are_same(first, second) {
        return None;
    }
    Some(Finding::of_words([
        Piece::Text(b"the standard parallels are "),
        Piece::Number(&first.value),
        Piece::Text(b" and "),
        Piece::Number(&second.value),
        Piece::Text(b": equal ones make a tangent cone, and opposite ones make none"),
        END,
        END,
        END,
        END,
        END,
        END,
        END,
    ]))
}

fn are_same(first: &Parameter, second: &Parameter) -> bool
    ensures { result ≡ are_same first.now second.now }
{
    is_same_size(first.value, second.value) && is_same_unit(&first.unit, &second.unit)
}

fn is_same_unit(first: &Option<Unit>, second: &Option<Unit>) -> bool
    ensures { result ≡ is_same_unit first.now second.now }
{
    match (first, second) {
        (Some(first), Some(second)) => {
            is_same_size(unit_of(first).factor, unit_of(second).factor)
        }
        (Some(_), None) => false,
        (None, Some(_)) => false,
        (None, None) => true,
    }
}

fn first_parallel(parameters: &[Parameter]) -> Option<&Parameter>
    ensures { option_map (λ p. p.now) result ≡ find is_first_parallel parameters.now }
{
    parameters.iter().find(|p| is_first_parallel(p))
}

fn second_parallel(parameters: &[Parameter]) -> Option<&Parameter>
    ensures { option_map (λ p. p.now) result ≡ find is_second_parallel parameters.now }
{
    parameters.iter().find(|p| is_second_parallel(p))
}

fn is_first_parallel(parameter: &Parameter) -> bool
    ensures { result ≡ is_first_parallel parameter.now }
{
    let name = parameter.name.as_bytes();
    is_named(name, b"latitude of 1st standard parallel") || is_named(name, b"standard parallel 1")
}

fn is_second_parallel(parameter: &Parameter) -> bool
    ensures { result ≡ is_second_parallel parameter.now }
{
    let name = parameter.name.as_bytes();
    is_named(name, b"latitude of 2nd standard parallel") || is_named(name, b"standard parallel 2")
}
