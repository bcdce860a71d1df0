//! How many claim each content, and who is the first.

ghost use Rattle.std.specs.Prelude.{◌≡◌, ◌<◌, ◌+◌, ◌^◌, ◌∷◌, suc, List, length, map, Some, IfOk, OnOk};
ghost use Rattle.crs_said.specs.Claims.{Said, claim_seen};
ghost use Rattle.reg_sense.specs.Claimants.{Voice, voice};
ghost use Rattle.reg_sense.specs.Tallies.{IsRoomy, counted, with_one, HasPut, HasTallies, HasPart};

use crate::claimant::Claimant;
use crs_said::Claim;
use std::alloc::{AllocError, Global};
use std::collections::BTreeMap;

/// A word and a content, ordered by the word and then by the content.
#[derive(Clone, Copy, PartialEq, Eq, PartialOrd, Ord)]
pub struct WordAndContent<'a> {
    pub word: &'a [u8],
    pub content: &'a [u8],
}

/// How many claim a content for a word, and the first of them with its place.
#[derive(Clone, Copy)]
pub struct ClaimTally<'a> {
    pub first: &'a Claimant,
    pub place: usize,
    pub count: usize,
}

// The tally after one before the others, at this place, has claimed it too, perhaps again.
fn one_more<'a>(tally: ClaimTally<'a>, place: usize, claimant: &'a Claimant) -> ClaimTally<'a>
    ensures { IsRoomy place (counted (Some tally.entry)) → counted (Some result) ≡ Some (with_one place (voice claimant.now) (counted (Some tally.entry))) }
{
    if tally.place == place {
        return tally;
    }
    ClaimTally {
        first: claimant,
        place,
        count: tally.count.saturating_add(1),
    }
}

fn put_tally<'a>(
    tallies: &mut BTreeMap<WordAndContent<'a>, ClaimTally<'a>>,
    pair: WordAndContent<'a>,
    tally: ClaimTally<'a>,
) -> Result<(), AllocError>
    ensures { OnOk result (HasPut pair.entry tally.entry tallies.old tallies.new) }
{
    let _ = tallies.insert(pair, tally)?;
    Ok(())
}

// Most claims have a tally already, which is looked for once.
fn put_claim<'a>(
    tallies: &mut BTreeMap<WordAndContent<'a>, ClaimTally<'a>>,
    place: usize,
    claimant: &'a Claimant,
    claim: &'a Claim,
) -> Result<(), AllocError>
    ensures { (done : List Said) (vs : List Voice) → length vs + 1 < 2 ^ 64 → HasPart tallies.old place (voice claimant.now) done vs → OnOk result (HasPart tallies.new place (voice claimant.now) (claim_seen claim.now ∷ done) vs) }
{
    let pair = WordAndContent {
        word: &claim.word,
        content: &claim.content,
    };
    match tallies.get_mut(&pair) {
        Some(tally) => {
            let next = one_more(*tally, place, claimant);
            *tally = next;
            Ok(())
        }
        None => {
            let first = ClaimTally {
                first: claimant,
                place,
                count: 1,
            };
            put_tally(tallies, pair, first)
        }
    }
}

// Counts the claims of one who stands at this place, before the others.
fn put_claims<'a>(
    tallies: &mut BTreeMap<WordAndContent<'a>, ClaimTally<'a>>,
    place: usize,
    claimant: &'a Claimant,
) -> Result<(), AllocError>
    ensures { (vs : List Voice) → length vs + 1 < 2 ^ 64 → HasTallies tallies.old (suc place) vs → OnOk result (HasTallies tallies.new place (voice claimant.now ∷ vs)) }
{
    let mut rest = claimant.claims.as_slice();
    while let Some((claim, others)) = rest.split_last() {
        put_claim(tallies, place, claimant, claim)?;
        rest = others;
    }
    Ok(())
}

/// The tallies of all claims of these.
pub fn tallies_of<'a>(
    alloc: Global,
    claimants: &'a [Claimant],
) -> Result<BTreeMap<WordAndContent<'a>, ClaimTally<'a>>, AllocError>
    ensures { IfOk result (λ made. HasTallies made 0 (map voice claimants.now)) }
{
    let mut made = BTreeMap::new(alloc);
    let mut rest = claimants;
    while let Some((claimant, others)) = rest.split_last() {
        put_claims(&mut made, others.len(), claimant)?;
        rest = others;
    }
    Ok(made)
}
