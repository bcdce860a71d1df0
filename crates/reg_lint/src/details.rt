//! The sentence about each reference system that breaks a rule.

ghost use Rattle.std.specs.Prelude.{◌≡◌, ◌↔◌, true, false, List, None, map, IsTrue, IfOk};
ghost use Rattle.std.specs.List.{Contains};
ghost use Rattle.crs_sense.specs.Rules.{breaks};
ghost use Rattle.reg_sense.specs.Claimants.{detail_seen};
ghost use Rattle.reg_lint.specs.Details.{told_in, told, own_details, details, wide_details};
ghost use Rattle.reg_lint.specs.Disputes.{AreSettled};
ghost use Rattle.reg_lint.specs.Screening.{kept_in};
ghost use Rattle.reg_lint.specs.Subjects.{Subject, IsKept, AreKept};

use crate::disputes::Disputes;
use crate::kept::{KeptSubject, crs_of};
use crate::rule::AnyRule;
use crate::screened::Screened;
use crate::voices::{claimants_of, names_for};
use crs_part::CrsParts;
use crs_sense::Rule;
use reg_sense::WideRule;
use std::alloc::{AllocError, Global};

/// For each reference system the sentence, if it breaks the rule.
pub(crate) fn details(
    alloc: Global,
    rule: AnyRule,
    disputes: &Disputes,
    kept: &[KeptSubject],
    screened: &[Screened<'_>],
) -> Result<Vec<Option<Vec<u8>>>, AllocError>
    requires { map kept_in screened.now ≡ kept.now }
    ensures { (ss : List Subject) → AreKept kept.now ss → AreSettled disputes.now ss → IfOk result (λ made. map detail_seen made.items ≡ details rule ss) }
{
    match rule {
        AnyRule::Own(rule) => own_details(alloc, rule, screened),
        AnyRule::Wide(rule) => wide_details(alloc, rule, disputes, kept),
    }
}

fn own_details(
    alloc: Global,
    rule: Rule,
    screened: &[Screened<'_>],
) -> Result<Vec<Option<Vec<u8>>>, AllocError>
    ensures { (ss : List Subject) → AreKept (map kept_in screened.now) ss → IfOk result (λ made. map detail_seen made.items ≡ own_details rule ss) }
{
    let mut made = Vec::with_capacity(alloc, screened.len())?;
    for one in screened {
        let detail = told(alloc, rule, one)?;
        made.push(detail)?;
    }
    Ok(made)
}

fn told(alloc: Global, rule: Rule, one: &Screened<'_>) -> Result<Option<Vec<u8>>, AllocError>
    ensures { (s : Subject) → IsKept one.now.kept.now s → IfOk result (λ detail. detail_seen detail ≡ told rule s) }
{
    if passes(rule, one) {
        return Ok(None);
    }
    let crs = crs_of(alloc, one.kept)?;
    let detail = told_in(alloc, rule, crs.as_ref().parts())?;
    Ok(detail)
}

// Whether a look has shown that it does not break the rule.
fn passes(rule: Rule, one: &Screened<'_>) -> bool
    ensures { result ≡ true → (s : Subject) → IsKept one.now.kept.now s → breaks rule s.crs.parts ≡ false }
{
    if !one.looked {
        return false;
    }
    !is_among(rule, &one.broken)
}

fn is_among(rule: Rule, rules: &[Rule]) -> bool
    ensures { IsTrue result ↔ Contains rules.now rule }
{
    let mut rest = rules;
    while let Some((first, others)) = rest.split_first() {
        if *first == rule {
            return true;
        }
        rest = others;
    }
    false
}

fn told_in(alloc: Global, rule: Rule, crs: &CrsParts) -> Result<Option<Vec<u8>>, AllocError>
    ensures { IfOk result (λ detail. detail_seen detail ≡ told_in rule crs.now) }
{
    if !rule.breaks(crs) {
        return Ok(None);
    }
    let sentence = rule.sentence(alloc, crs)?;
    Ok(Some(sentence))
}

fn wide_details(
    alloc: Global,
    rule: WideRule,
    disputes: &Disputes,
    kept: &[KeptSubject],
) -> Result<Vec<Option<Vec<u8>>>, AllocError>
    ensures { (ss : List Subject) → AreKept kept.now ss → AreSettled disputes.now ss → IfOk result (λ made. map detail_seen made.items ≡ wide_details rule ss) }
{
    if disputes.is_settled(rule) {
        return no_details(alloc, kept);
    }
    let names = names_for(alloc, rule, kept)?;
    let claimants = claimants_of(alloc, rule, disputes, kept)?;
    let made = rule.told(alloc, &names, &claimants)?;
    Ok(made)
}

fn no_details(alloc: Global, kept: &[KeptSubject]) -> Result<Vec<Option<Vec<u8>>>, AllocError>
    ensures { (ss : List Subject) → AreKept kept.now ss → IfOk result (λ made. map detail_seen made.items ≡ map (λ (s : Subject). None) ss) }
{
    let mut made = Vec::with_capacity(alloc, kept.len())?;
    let mut rest = kept;
    while let Some((_, others)) = rest.split_first() {
        made.push(None)?;
        rest = others;
    }
    Ok(made)
}
