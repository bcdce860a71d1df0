//! What most claim for each word, and who claims otherwise.

ghost use Rattle.std.specs.Prelude.{◌≡◌, ◌++◌, ◌∷◌, ℕ, List, map, IfOk, OnOk};
ghost use Rattle.std.specs.Option.{option_copied};
ghost use Rattle.crs_said.specs.Claims.{Said, claim_seen};
ghost use Rattle.reg_sense.specs.Claimants.{Voice, voice, detail_seen, first_told};
ghost use Rattle.reg_sense.specs.declared.claimant.Claimant.{Claimant};
ghost use Rattle.reg_sense.specs.Least.{least, lesser};
ghost use Rattle.reg_sense.specs.Most.{claiming, count, contents, is_more, all_claims, most, otherwise, is_content, more_told, those_told, against, odd_told, told_against};
ghost use Rattle.reg_sense.specs.Tallies.{counted, tally, HasTallies, HasMost, seen_in};

use crate::claimant::{Claimant, key_text};
use crate::tally::{ClaimTally, WordAndContent, tallies_of};
use crs_said::Claim;
use itoa::Buffer;
use std::alloc::{AllocError, Global};
use std::collections::BTreeMap;

fn count_of<'a>(
    tallies: &BTreeMap<WordAndContent<'a>, ClaimTally<'a>>,
    word: &'a [u8],
    content: &'a [u8],
) -> usize
    ensures { (vs : List Voice) → HasTallies tallies.now 0 vs → result ≡ count word.now content.now vs }
{
    let pair = WordAndContent { word, content };
    match tallies.get(&pair) {
        Some(tally) => tally.count,
        None => 0,
    }
}

// Whether more claim the content on the left; or as many, and it comes first.
fn is_more<'a>(
    tallies: &BTreeMap<WordAndContent<'a>, ClaimTally<'a>>,
    word: &'a [u8],
    left: &'a [u8],
    right: &'a [u8],
) -> bool
    ensures { (vs : List Voice) → HasTallies tallies.now 0 vs → result ≡ is_more vs word.now left.now right.now }
{
    let fewer = count_of(tallies, word, right);
    let more = count_of(tallies, word, left);
    fewer.cmp(&more).then(left.cmp(right)).is_lt()
}

fn better<'a>(
    tallies: &BTreeMap<WordAndContent<'a>, ClaimTally<'a>>,
    word: &'a [u8],
    content: &'a [u8],
    before: Option<&&'a [u8]>,
) -> &'a [u8]
    ensures { (vs : List Voice) → HasTallies tallies.now 0 vs → result.now ≡ lesser (is_more vs word.now) content.now (seen_in (option_copied before.entry)) }
{
    let Some(other) = before else {
        return content;
    };
    if is_more(tallies, word, *other, content) {
        return *other;
    }
    content
}

// Whether the map has the content of the claim for its word.
fn has_content<'a>(best: &BTreeMap<&'a [u8], &'a [u8]>, claim: &'a Claim) -> bool
    ensures { (vs : List Voice) (xs : List Said) → HasMost vs best.now xs → result ≡ is_content (least (is_more vs (claim_seen claim.now).word) (contents (claim_seen claim.now).word xs)) (claim_seen claim.now).content }
{
    let word = claim.word.as_slice();
    let Some(content) = best.get(&word) else {
        return false;
    };
    *content == claim.content.as_slice()
}

// Most claims say what most say, and change nothing.
fn put_content<'a>(
    tallies: &BTreeMap<WordAndContent<'a>, ClaimTally<'a>>,
    best: &mut BTreeMap<&'a [u8], &'a [u8]>,
    claim: &'a Claim,
) -> Result<(), AllocError>
    ensures { (vs : List Voice) (xs : List Said) → HasTallies tallies.now 0 vs → HasMost vs best.old xs → OnOk result (HasMost vs best.new (claim_seen claim.now ∷ xs)) }
{
    if has_content(best, claim) {
        return Ok(());
    }
    let word = claim.word.as_slice();
    let content = better(tallies, word, claim.content.as_slice(), best.get(&word));
    let _ = best.insert(word, content)?;
    Ok(())
}

fn put_contents<'a>(
    tallies: &BTreeMap<WordAndContent<'a>, ClaimTally<'a>>,
    best: &mut BTreeMap<&'a [u8], &'a [u8]>,
    claims: &'a [Claim],
) -> Result<(), AllocError>
    ensures { (vs : List Voice) (xs : List Said) → HasTallies tallies.now 0 vs → HasMost vs best.old xs → OnOk result (HasMost vs best.new (map claim_seen claims.now ++ xs)) }
{
    let mut rest = claims;
    while let Some((claim, others)) = rest.split_last() {
        put_content(tallies, best, claim)?;
        rest = others;
    }
    Ok(())
}

// For each word the content that most claim.
fn most_of<'a>(
    alloc: Global,
    tallies: &BTreeMap<WordAndContent<'a>, ClaimTally<'a>>,
    claimants: &'a [Claimant],
) -> Result<BTreeMap<&'a [u8], &'a [u8]>, AllocError>
    ensures { (vs : List Voice) → HasTallies tallies.now 0 vs → IfOk result (λ best. HasMost vs best (all_claims (map voice claimants.now))) }
{
    let mut best = BTreeMap::new(alloc);
    let mut rest = claimants;
    while let Some((claimant, others)) = rest.split_last() {
        put_contents(tallies, &mut best, claimant.claims.as_slice())?;
        rest = others;
    }
    Ok(best)
}

// The content that most claim for the word, if it is another.
fn other_content<'a>(best: &BTreeMap<&'a [u8], &'a [u8]>, claim: &'a Claim) -> Option<&'a [u8]>
    ensures { (vs : List Voice) → HasMost vs best.now (all_claims vs) → seen_in result ≡ otherwise (most vs (claim_seen claim.now).word) (claim_seen claim.now).content }
{
    let word = claim.word.as_slice();
    let Some(content) = best.get(&word) else {
        return None;
    };
    if *content == claim.content.as_slice() {
        return None;
    }
    Some(*content)
}

fn more_told(alloc: Global, more: usize) -> Result<Vec<u8>, AllocError>
    ensures { IfOk result (λ text. text.items ≡ more_told more) }
{
    let mut text = Vec::new(alloc);
    if more == 0 {
        return Ok(text);
    }
    text.extend_from_slice(b" and ")?;
    let mut buffer = Buffer::new();
    text.extend_from_slice(buffer.format(more).as_bytes())?;
    text.extend_from_slice(b" more")?;
    Ok(text)
}

// The first of those in a tally, and how many more; nothing without a tally.
fn those_told<'a>(alloc: Global, found: Option<&ClaimTally<'a>>) -> Result<Vec<u8>, AllocError>
    ensures { (w c : List ℕ) (vs : List Voice) → counted (option_copied found.entry) ≡ tally w c 0 vs → IfOk result (λ text. text.items ≡ those_told (claiming w c vs)) }
{
    let Some(tally) = found else {
        return Ok(Vec::new(alloc));
    };
    let mut text = key_text(alloc, tally.first)?;
    let others = more_told(alloc, tally.count.saturating_sub(1))?;
    text.extend_from_slice(&others)?;
    Ok(text)
}

fn against<'a>(
    alloc: Global,
    tallies: &BTreeMap<WordAndContent<'a>, ClaimTally<'a>>,
    claim: &'a Claim,
    content: &'a [u8],
) -> Result<Vec<u8>, AllocError>
    ensures { (vs : List Voice) → HasTallies tallies.now 0 vs → IfOk result (λ text. text.items ≡ against vs (claim_seen claim.now) content.now) }
{
    let pair = WordAndContent {
        word: claim.word.as_slice(),
        content,
    };
    let those = those_told(alloc, tallies.get(&pair))?;
    let mut text = Vec::new(alloc);
    text.extend_from_slice(&claim.said)?;
    text.extend_from_slice(b" in ")?;
    text.extend_from_slice(&those)?;
    Ok(text)
}

fn odd_told<'a>(
    alloc: Global,
    tallies: &BTreeMap<WordAndContent<'a>, ClaimTally<'a>>,
    best: &BTreeMap<&'a [u8], &'a [u8]>,
    claim: &'a Claim,
) -> Result<Option<Vec<u8>>, AllocError>
    ensures { (vs : List Voice) → HasTallies tallies.now 0 vs → HasMost vs best.now (all_claims vs) → IfOk result (λ told. detail_seen told ≡ odd_told vs (claim_seen claim.now)) }
{
    let Some(content) = other_content(best, claim) else {
        return Ok(None);
    };
    let text = against(alloc, tallies, claim, content)?;
    Ok(Some(text))
}

fn first_odd<'a>(
    alloc: Global,
    tallies: &BTreeMap<WordAndContent<'a>, ClaimTally<'a>>,
    best: &BTreeMap<&'a [u8], &'a [u8]>,
    claims: &'a [Claim],
) -> Result<Option<Vec<u8>>, AllocError>
    ensures { (vs : List Voice) → HasTallies tallies.now 0 vs → HasMost vs best.now (all_claims vs) → IfOk result (λ told. detail_seen told ≡ first_told (odd_told vs) (map claim_seen claims.now)) }
{
    let mut rest = claims;
    while let Some((claim, others)) = rest.split_first() {
        let told = odd_told(alloc, tallies, best, claim)?;
        if told.is_some() {
            return Ok(told);
        }
        rest = others;
    }
    Ok(None)
}

// The sentence about each, by these tallies.
fn each_told<'a>(
    alloc: Global,
    tallies: &BTreeMap<WordAndContent<'a>, ClaimTally<'a>>,
    best: &BTreeMap<&'a [u8], &'a [u8]>,
    claimants: &'a [Claimant],
) -> Result<Vec<Option<Vec<u8>>>, AllocError>
    requires tallies { HasTallies tallies.now 0 (map voice claimants.now) }
    requires most { HasMost (map voice claimants.now) best.now (all_claims (map voice claimants.now)) }
    ensures { IfOk result (λ made. map detail_seen made.items ≡ map (λ (c : Claimant). told_against (map voice claimants.now) (voice c)) claimants.now) }
{
    let mut made = Vec::with_capacity(alloc, claimants.len())?;
    for claimant in claimants {
        made.push(first_odd(alloc, tallies, best, claimant.claims.as_slice())?)?;
    }
    Ok(made)
}

/// The sentence about each who claims something where most claim otherwise, by the first such claim.
pub(crate) fn told_against(
    alloc: Global,
    claimants: &[Claimant],
) -> Result<Vec<Option<Vec<u8>>>, AllocError>
    ensures { IfOk result (λ made. map detail_seen made.items ≡ map (λ (c : Claimant). told_against (map voice claimants.now) (voice c)) claimants.now) }
{
    let tallies = tallies_of(alloc, claimants)?;
    let best = most_of(alloc, &tallies, claimants)?;
    let made = each_told(alloc, &tallies, &best, claimants)?;
    Ok(made)
}
