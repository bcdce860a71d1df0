//! What an expert would ask about a reference system, a text for each rule.

ghost use Rattle.std.specs.Prelude.{◌≡◌, ◌++◌, ℕ, map, IfOk, OnOk};
ghost use Rattle.std.specs.Global.{Vec as Owned};
ghost use Rattle.reg_lint.specs.Questions.{question_of, question_by, questions_of};

use crs_part::CrsParts;
use crs_sense::Rule;
use std::alloc::{AllocError, Global};

/// For each of these rules that the reference system breaks, in order, its name and its sentence.
pub fn questions(alloc: Global, rules: &[Rule], crs: &CrsParts) -> Result<Vec<Vec<u8>>, AllocError>
    ensures { IfOk result (λ made. map (λ (q : Owned ℕ). q.items) made.items ≡ questions_of rules.now crs.now) }
{
    let mut made = Vec::new(alloc);
    let mut rest = rules;
    while let Some((rule, others)) = rest.split_first() {
        push_question(alloc, &mut made, *rule, crs)?;
        rest = others;
    }
    Ok(made)
}

// Appends what is asked by the rule, if the reference system breaks it.
fn push_question(
    alloc: Global,
    made: &mut Vec<Vec<u8>>,
    rule: Rule,
    crs: &CrsParts,
) -> Result<(), AllocError>
    ensures { OnOk result (map (λ (q : Owned ℕ). q.items) made.new.items ≡ map (λ (q : Owned ℕ). q.items) made.old.items ++ question_by rule crs.now) }
{
    if !rule.breaks(crs) {
        return Ok(());
    }
    let text = question_of(alloc, rule, crs)?;
    made.push(text)?;
    Ok(())
}

fn question_of(alloc: Global, rule: Rule, crs: &CrsParts) -> Result<Vec<u8>, AllocError>
    ensures { IfOk result (λ text. text.items ≡ question_of rule crs.now) }
{
    let sentence = rule.sentence(alloc, crs)?;
    let mut text = Vec::new(alloc);
    text.extend_from_slice(rule.name().as_bytes())?;
    text.extend_from_slice(b": ")?;
    text.extend_from_slice(&sentence)?;
    Ok(text)
}
