//! Those who claim: reference systems, each with its key, its name and what it says.

ghost use Rattle.std.specs.Prelude.{◌≡◌, IfOk};
ghost use Rattle.reg_sense.specs.Claimants.{voice, key_text};

use crs_said::Claim;
use std::alloc::{AllocError, Global};
use text_hidden::push_short;

/// A reference system with its key, its name, and what it claims.
#[derive(Drop)]
pub struct Claimant {
    pub authority: Vec<u8>,
    pub code: Vec<u8>,
    pub name: Vec<u8>,
    pub claims: Vec<Claim>,
}

/// The first characters of the authority, a colon, and those of the code.
pub(crate) fn key_text(alloc: Global, claimant: &Claimant) -> Result<Vec<u8>, AllocError>
    ensures { IfOk result (λ text. text.items ≡ key_text (voice claimant.now)) }
{
    let mut text = Vec::new(alloc);
    push_short(&mut text, &claimant.authority)?;
    text.push(b':')?;
    push_short(&mut text, &claimant.code)?;
    Ok(text)
}
