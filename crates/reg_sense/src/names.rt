//! Names of others.

ghost use Rattle.std.specs.Prelude.{◌≡◌, ◌∷◌, ℕ, List, map, IfOk, OnOk};
ghost use Rattle.std.specs.Global.{Vec};
ghost use Rattle.crs_said.specs.Claims.{claim_seen};
ghost use Rattle.reg_sense.specs.Claimants.{voice, detail_seen, first_told};
ghost use Rattle.reg_sense.specs.declared.claimant.Claimant.{Claimant};
ghost use Rattle.reg_sense.specs.Names.{HasNames, name_told, told_names};

use crate::claimant::Claimant;
use crs_said::Claim;
use std::alloc::{AllocError, Global};
use std::collections::BTreeSet;

fn put_name<'a>(set: &mut BTreeSet<&'a [u8]>, name: &'a [u8]) -> Result<(), AllocError>
    ensures { (names : List (List ℕ)) → HasNames set.old names → OnOk result (HasNames set.new (name.now ∷ names)) }
{
    let _ = set.insert(name)?;
    Ok(())
}

fn set_of<'a>(alloc: Global, names: &'a [Vec<u8>]) -> Result<BTreeSet<&'a [u8]>, AllocError>
    ensures { IfOk result (λ set. HasNames set (map (λ (name : Vec ℕ). name.items) names.now)) }
{
    let mut set = BTreeSet::new(alloc);
    let mut rest = names;
    while let Some((name, others)) = rest.split_last() {
        put_name(&mut set, name.as_slice())?;
        rest = others;
    }
    Ok(set)
}

fn name_told<'a>(
    alloc: Global,
    set: &BTreeSet<&'a [u8]>,
    claim: &'a Claim,
) -> Result<Option<Vec<u8>>, AllocError>
    ensures { (names : List (List ℕ)) → HasNames set.now names → IfOk result (λ told. detail_seen told ≡ name_told names (claim_seen claim.now)) }
{
    let word = claim.word.as_slice();
    if !set.contains(&word) {
        return Ok(None);
    }
    let mut text = Vec::new(alloc);
    text.extend_from_slice(&claim.said)?;
    Ok(Some(text))
}

fn first_name<'a>(
    alloc: Global,
    set: &BTreeSet<&'a [u8]>,
    claims: &'a [Claim],
) -> Result<Option<Vec<u8>>, AllocError>
    ensures { (names : List (List ℕ)) → HasNames set.now names → IfOk result (λ told. detail_seen told ≡ first_told (name_told names) (map claim_seen claims.now)) }
{
    let mut rest = claims;
    while let Some((claim, others)) = rest.split_first() {
        let told = name_told(alloc, set, claim)?;
        if told.is_some() {
            return Ok(told);
        }
        rest = others;
    }
    Ok(None)
}

/// The sentence about each who claims something about one of these names, by the first such claim.
pub(crate) fn told_names(
    alloc: Global,
    names: &[Vec<u8>],
    claimants: &[Claimant],
) -> Result<Vec<Option<Vec<u8>>>, AllocError>
    ensures { IfOk result (λ made. map detail_seen made.items ≡ map (λ (c : Claimant). told_names (map (λ (name : Vec ℕ). name.items) names.now) (voice c)) claimants.now) }
{
    let set = set_of(alloc, names)?;
    let mut made = Vec::with_capacity(alloc, claimants.len())?;
    for claimant in claimants {
        made.push(first_name(alloc, &set, claimant.claims.as_slice())?)?;
    }
    Ok(made)
}
