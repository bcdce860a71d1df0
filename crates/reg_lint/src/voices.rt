//! What reference systems claim beside each other.

ghost use Rattle.std.specs.Prelude.{◌≡◌, ◌++◌, ℕ, List, map, filter, IfOk, OnOk};
ghost use Rattle.std.specs.Global.{Vec};
ghost use Rattle.crs_said.specs.declared.claim.Claim.{Claim as OneClaim};
ghost use Rattle.crs_said.specs.Claims.{Said, claim_seen};
ghost use Rattle.crs_said.specs.References.{system_names};
ghost use Rattle.reg_sense.specs.Claimants.{voice};
ghost use Rattle.reg_lint.specs.Details.{voice_in, voice_of, names_in, names_for};
ghost use Rattle.reg_lint.specs.Disputes.{is_open, sifted};
ghost use Rattle.reg_lint.specs.Subjects.{Subject, IsKept, AreKept};

use crate::disputes::Disputes;
use crate::kept::{KeptSubject, crs_of};
use crate::keys::{authority_of, code_of, copied};
use crs_said::{Claim, system_names};
use crs_value::Crs;
use reg_sense::{Claimant, WideRule};
use std::alloc::{AllocError, Global};

// Without the claims of which the rule tells nothing.
fn claimant_of(
    alloc: Global,
    rule: WideRule,
    disputes: &Disputes,
    kept: &KeptSubject,
) -> Result<Claimant, AllocError>
    ensures { (s : Subject) → IsKept kept.now s → IfOk result (λ made. voice made ≡ sifted (is_open disputes.now rule) (voice_of rule s)) }
{
    let crs = crs_of(alloc, kept)?;
    let made = claimant_in(alloc, rule, disputes, crs.as_ref())?;
    Ok(made)
}

fn claimant_in(
    alloc: Global,
    rule: WideRule,
    disputes: &Disputes,
    crs: &Crs,
) -> Result<Claimant, AllocError>
    ensures { IfOk result (λ made. voice made ≡ sifted (is_open disputes.now rule) (voice_in rule crs.now.parts)) }
{
    let authority = copied(alloc, authority_of(crs))?;
    let code = code_of(alloc, crs)?;
    let name = copied(alloc, crs.parts().name().as_bytes())?;
    let mut claims = rule.claims(alloc, crs.parts())?;
    keep_open(&mut claims, rule, disputes);
    Ok(Claimant {
        authority,
        code,
        name,
        claims,
    })
}

// Keeps the claims of which the rule may tell something.
fn keep_open(claims: &mut Vec<Claim>, rule: WideRule, disputes: &Disputes)
    ensures { map claim_seen claims.new.items ≡ filter (λ (x : Said). is_open disputes.now rule x.word) (map claim_seen claims.old.items) }
{
    retain_open(claims, rule, disputes);
    claims.shrink_to_fit();
}

fn retain_open(claims: &mut Vec<Claim>, rule: WideRule, disputes: &Disputes)
    ensures { claims.new.items ≡ filter (λ (claim : OneClaim). is_open disputes.now rule claim.word.items) claims.old.items }
{
    claims.retain(|claim| disputes.is_open(rule, &claim.word));
}

/// What each of these claims, as far as the rule asks, and may tell something of it.
pub(crate) fn claimants_of(
    alloc: Global,
    rule: WideRule,
    disputes: &Disputes,
    kept: &[KeptSubject],
) -> Result<Vec<Claimant>, AllocError>
    ensures { (ss : List Subject) → AreKept kept.now ss → IfOk result (λ made. map voice made.items ≡ map (λ (s : Subject). sifted (is_open disputes.now rule) (voice_of rule s)) ss) }
{
    let mut made = Vec::with_capacity(alloc, kept.len())?;
    let mut rest = kept;
    while let Some((one, others)) = rest.split_first() {
        let claimant = claimant_of(alloc, rule, disputes, one)?;
        made.push(claimant)?;
        rest = others;
    }
    Ok(made)
}

fn push_names(names: &mut Vec<Vec<u8>>, more: Vec<Vec<u8>>) -> Result<(), AllocError>
    ensures { OnOk result (map (λ (name : Vec ℕ). name.items) names.new.items ≡ map (λ (name : Vec ℕ). name.items) names.old.items ++ map (λ (name : Vec ℕ). name.items) more.items) }
{
    for name in more {
        names.push(name)?;
    }
    Ok(())
}

/// The names that the rule looks at.
pub(crate) fn names_for(
    alloc: Global,
    rule: WideRule,
    kept: &[KeptSubject],
) -> Result<Vec<Vec<u8>>, AllocError>
    ensures { (ss : List Subject) → AreKept kept.now ss → IfOk result (λ made. map (λ (name : Vec ℕ). name.items) made.items ≡ names_for rule ss) }
{
    match rule {
        WideRule::Case => Ok(Vec::new(alloc)),
        WideRule::Datum => Ok(Vec::new(alloc)),
        WideRule::Parts => Ok(Vec::new(alloc)),
        WideRule::RefName => names_of(alloc, kept),
        WideRule::SameName => Ok(Vec::new(alloc)),
        WideRule::Twin => Ok(Vec::new(alloc)),
    }
}

// The names of all of these, and of their parts.
fn names_of(alloc: Global, kept: &[KeptSubject]) -> Result<Vec<Vec<u8>>, AllocError>
    ensures { (ss : List Subject) → AreKept kept.now ss → IfOk result (λ made. map (λ (name : Vec ℕ). name.items) made.items ≡ names_in ss) }
{
    let mut made = Vec::with_capacity(alloc, kept.len())?;
    let mut rest = kept;
    while let Some((one, others)) = rest.split_first() {
        let names = names_by(alloc, one)?;
        push_names(&mut made, names)?;
        rest = others;
    }
    Ok(made)
}

fn names_by(alloc: Global, kept: &KeptSubject) -> Result<Vec<Vec<u8>>, AllocError>
    ensures { (s : Subject) → IsKept kept.now s → IfOk result (λ made. map (λ (name : Vec ℕ). name.items) made.items ≡ system_names s.crs.parts) }
{
    let crs = crs_of(alloc, kept)?;
    let names = system_names(alloc, crs.as_ref().parts())?;
    Ok(names)
}
