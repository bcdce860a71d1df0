//! Those who say the same as another.

ghost use Rattle.std.specs.Prelude.{◌≡◌, ◌∷◌, List, map, IfOk, OnOk};
ghost use Rattle.std.specs.Option.{option_copied};
ghost use Rattle.crs_said.specs.Claims.{Said, claim_seen};
ghost use Rattle.reg_sense.specs.declared.claimant.Claimant.{Claimant};
ghost use Rattle.reg_sense.specs.Claimants.{Voice, voice, detail_seen};
ghost use Rattle.reg_sense.specs.Keys.{is_before};
ghost use Rattle.reg_sense.specs.Least.{lesser};
ghost use Rattle.reg_sense.specs.Twins.{twin_text, twin_told, told_twin, voice_in, HasFirsts, HasPart};

use crate::claimant::{Claimant, key_text};
use crate::keys::{has_same_key, is_before};
use crs_said::Claim;
use std::alloc::{AllocError, Global};
use std::collections::BTreeMap;
use text_hidden::push_short;

fn lesser<'a>(claimant: &'a Claimant, before: Option<&&'a Claimant>) -> &'a Claimant
    ensures { voice result.now ≡ lesser is_before (voice claimant.now) (voice_in (option_copied before.entry)) }
{
    let Some(other) = before else {
        return claimant;
    };
    if is_before(*other, claimant) {
        return *other;
    }
    claimant
}

fn put_word<'a>(
    firsts: &mut BTreeMap<&'a [u8], &'a Claimant>,
    claimant: &'a Claimant,
    claim: &'a Claim,
) -> Result<(), AllocError>
    ensures { (done : List Said) (vs : List Voice) → HasPart firsts.old (voice claimant.now) done vs → OnOk result (HasPart firsts.new (voice claimant.now) (claim_seen claim.now ∷ done) vs) }
{
    let word = claim.word.as_slice();
    let made = lesser(claimant, firsts.get(&word));
    let _ = firsts.insert(word, made)?;
    Ok(())
}

fn put_words<'a>(
    firsts: &mut BTreeMap<&'a [u8], &'a Claimant>,
    claimant: &'a Claimant,
) -> Result<(), AllocError>
    ensures { (vs : List Voice) → HasFirsts firsts.old vs → OnOk result (HasFirsts firsts.new (voice claimant.now ∷ vs)) }
{
    let mut rest = claimant.claims.as_slice();
    while let Some((claim, others)) = rest.split_last() {
        put_word(firsts, claimant, claim)?;
        rest = others;
    }
    Ok(())
}

// For each word the one of the least key that claims it.
fn firsts_of<'a>(
    alloc: Global,
    claimants: &'a [Claimant],
) -> Result<BTreeMap<&'a [u8], &'a Claimant>, AllocError>
    ensures { IfOk result (λ made. HasFirsts made (map voice claimants.now)) }
{
    let mut made = BTreeMap::new(alloc);
    let mut rest = claimants;
    while let Some((claimant, others)) = rest.split_last() {
        put_words(&mut made, claimant)?;
        rest = others;
    }
    Ok(made)
}

fn twin_text(alloc: Global, twin: &Claimant) -> Result<Vec<u8>, AllocError>
    ensures { IfOk result (λ text. text.items ≡ twin_text (voice twin.now)) }
{
    let key = key_text(alloc, twin)?;
    let mut text = Vec::new(alloc);
    text.extend_from_slice(b"says the same as ")?;
    text.extend_from_slice(&key)?;
    text.extend_from_slice(b" \"")?;
    push_short(&mut text, &twin.name)?;
    text.extend_from_slice(b"\" but for names")?;
    Ok(text)
}

fn twin_told<'a>(
    alloc: Global,
    firsts: &BTreeMap<&'a [u8], &'a Claimant>,
    claimant: &'a Claimant,
    claim: &'a Claim,
) -> Result<Option<Vec<u8>>, AllocError>
    ensures { (vs : List Voice) → HasFirsts firsts.now vs → IfOk result (λ told. detail_seen told ≡ twin_told vs (voice claimant.now) (claim_seen claim.now)) }
{
    let word = claim.word.as_slice();
    let Some(first) = firsts.get(&word) else {
        return Ok(None);
    };
    if has_same_key(*first, claimant) {
        return Ok(None);
    }
    let text = twin_text(alloc, *first)?;
    Ok(Some(text))
}

fn first_twin<'a>(
    alloc: Global,
    firsts: &BTreeMap<&'a [u8], &'a Claimant>,
    claimant: &'a Claimant,
) -> Result<Option<Vec<u8>>, AllocError>
    ensures { (vs : List Voice) → HasFirsts firsts.now vs → IfOk result (λ told. detail_seen told ≡ told_twin vs (voice claimant.now)) }
{
    let mut rest = claimant.claims.as_slice();
    while let Some((claim, others)) = rest.split_first() {
        let told = twin_told(alloc, firsts, claimant, claim)?;
        if told.is_some() {
            return Ok(told);
        }
        rest = others;
    }
    Ok(None)
}

/// Of each who says the same as another of a lesser key, who that is.
pub(crate) fn told_twins(
    alloc: Global,
    claimants: &[Claimant],
) -> Result<Vec<Option<Vec<u8>>>, AllocError>
    ensures { IfOk result (λ made. map detail_seen made.items ≡ map (λ (c : Claimant). told_twin (map voice claimants.now) (voice c)) claimants.now) }
{
    let firsts = firsts_of(alloc, claimants)?;
    let mut made = Vec::with_capacity(alloc, claimants.len())?;
    for claimant in claimants {
        made.push(first_twin(alloc, &firsts, claimant)?)?;
    }
    Ok(made)
}
