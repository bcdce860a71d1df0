//! One look at each reference system, by all rules about one alone: its value is read once for all of these.

ghost use Rattle.std.specs.Prelude.{◌≡◌, true, false, ◌++◌, map, IfOk, OnOk};
ghost use Rattle.std.specs.List.{Contains, flat_map};
ghost use Rattle.crs_sense.specs.declared.rule.Rule.{Rule as OneRule};
ghost use Rattle.crs_sense.specs.Rules.{breaks};
ghost use Rattle.reg_lint.specs.Screening.{kept_in, broken_own};
ghost use Rattle.reg_lint.specs.Subjects.{Subject, IsKept};

use crate::kept::{KeptSubject, crs_of};
use crate::rule::{ANY_RULES, AnyRule};
use crate::screened::Screened;
use crs_part::CrsParts;
use crs_sense::Rule;
use std::alloc::{AllocError, Global};

/// So few rules are faster without a look at all of them.
const FEW: usize = 4;

/// These reference systems, looked at for so many rules.
pub(crate) fn looked_at<'a>(
    alloc: Global,
    rules: usize,
    kept: &'a [KeptSubject],
) -> Result<Vec<Screened<'a>>, AllocError>
    ensures { IfOk result (λ made. map kept_in made.items ≡ kept.now) }
{
    let looks = rules > FEW;
    let mut made = Vec::with_capacity(alloc, kept.len())?;
    for one in kept {
        made.push(screened_one(alloc, looks, one)?)?;
    }
    Ok(made)
}

fn screened_one<'a>(
    alloc: Global,
    looks: bool,
    kept: &'a KeptSubject,
) -> Result<Screened<'a>, AllocError>
    ensures { IfOk result (λ one. kept_in one ≡ kept.now) }
{
    if !looks {
        return Ok(Screened {
            kept,
            looked: false,
            broken: Vec::new(alloc),
        });
    }
    let broken = broken_by(alloc, kept)?;
    Ok(Screened {
        kept,
        looked: true,
        broken,
    })
}

// The rules about one alone that it breaks.
fn broken_by(alloc: Global, kept: &KeptSubject) -> Result<Vec<Rule>, AllocError>
    ensures { (s : Subject) → IsKept kept.now s → IfOk result (λ broken. (rule : OneRule) → ¬ (Contains broken.items rule) → breaks rule s.crs.parts ≡ false) }
{
    let crs = crs_of(alloc, kept)?;
    let broken = broken_in(alloc, &ANY_RULES, crs.as_ref().parts())?;
    Ok(broken)
}

// Those of these rules that are about one alone, and that it breaks.
fn broken_in(alloc: Global, rules: &[AnyRule], crs: &CrsParts) -> Result<Vec<Rule>, AllocError>
    ensures { IfOk result (λ broken. broken.items ≡ flat_map (broken_own crs.now) rules.now) }
{
    let mut broken = Vec::new(alloc);
    let mut rest = rules;
    while let Some((rule, others)) = rest.split_first() {
        push_broken(&mut broken, *rule, crs)?;
        rest = others;
    }
    Ok(broken)
}

fn push_broken(broken: &mut Vec<Rule>, rule: AnyRule, crs: &CrsParts) -> Result<(), AllocError>
    ensures { OnOk result (broken.new.items ≡ broken.old.items ++ broken_own crs.now rule) }
{
    let AnyRule::Own(rule) = rule else {
        return Ok(());
    };
    if rule.breaks(crs) {
        broken.push(rule)?;
    }
    Ok(())
}
