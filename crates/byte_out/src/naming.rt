//! The path that belongs to the program, beside a file.

ghost use Rattle.std.specs.Prelude.{◌≡◌, ◌++◌, IfOk, codes};
ghost use Rattle.std.specs.String.{string_bytes};
ghost use Rattle.byte_out.specs.Own.{IsOwnPath, marked};

use std::alloc::{AllocError, Global};

/// The path of the new file beside the file with this path.
pub fn own_path(alloc: Global, path: &str) -> Result<String, AllocError>
    ensures { IfOk result (λ p. IsOwnPath path.now (string_bytes p)) }
{
    match path.rsplit_once('/') {
        Some((folder, name)) => match own_in(alloc, folder, name) {
            Ok(own) => Ok(own),
            Err(fault) => Err(fault),
        },
        None => match own_name(alloc, path) {
            Ok(own) => Ok(own),
            Err(fault) => Err(fault),
        },
    }
}

fn own_in(alloc: Global, folder: &str, name: &str) -> Result<String, AllocError>
    ensures { IfOk result (λ p. string_bytes p ≡ folder.now ++ (codes "/" ++ marked name.now)) }
{
    format!(in alloc; "{folder}/.{name}.crsreg")
}

fn own_name(alloc: Global, name: &str) -> Result<String, AllocError>
    ensures { IfOk result (λ p. string_bytes p ≡ marked name.now) }
{
    format!(in alloc; ".{name}.crsreg")
}
