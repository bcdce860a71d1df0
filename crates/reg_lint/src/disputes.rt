//! What reference systems say otherwise than each other: one reading of each, for all rules over several.

ghost use Rattle.std.specs.Prelude.{◌≡◌, ◌||◌, ◌++◌, [], ℕ, List, true, false, IfOk, OnOk, length};
ghost use Rattle.crs_said.specs.Claims.{Said};
ghost use Rattle.reg_sense.specs.declared.rule.WideRule.{WideRule as OneRule};
ghost use Rattle.reg_sense.specs.declared.rule.WideRule.TheVariants as wide;
ghost use Rattle.reg_sense.specs.Rules.{claims_of};
ghost use Rattle.reg_lint.specs.Disputes.{AreHeard, Hears, is_open, is_open_by, IsSettled, AreSettled};
ghost use Rattle.reg_lint.specs.Subjects.{Subject, IsKept, AreKept};
ghost use Rattle.reg_lint.specs.Words.{HaveHeard};

use crate::kept::{KeptSubject, crs_of};
use crate::rule::AnyRule;
use crate::words::Words;
use crs_part::CrsParts;
use crs_said::Claim;
use reg_sense::WideRule;
use std::alloc::{AllocError, Global};

/// For each rule over several the words for which more than one content is claimed, if they were heard.
#[derive(Drop)]
pub struct Disputes {
    pub heard: bool,
    pub case: Words,
    pub datum: Words,
    pub parts: Words,
    pub same_name: Words,
    /// Whether a name says something of a base or of a vertical part.
    pub named: bool,
}

/// The disputes among these, if one of the rules is over several.
pub(crate) fn disputes_for(
    alloc: Global,
    rules: &[AnyRule],
    kept: &[KeptSubject],
) -> Result<Disputes, AllocError>
    ensures { (ss : List Subject) → AreKept kept.now ss → IfOk result (λ made. AreSettled made ss) }
{
    if !has_wide(rules) {
        return Ok(Disputes::new(alloc, false));
    }
    let made = disputes_of(alloc, kept)?;
    Ok(made)
}

// Whether one of the rules is over several.
fn has_wide(rules: &[AnyRule]) -> bool {
    rules.iter().any(|rule| is_wide(*rule))
}

fn is_wide(rule: AnyRule) -> bool {
    match rule {
        AnyRule::Own(_) => false,
        AnyRule::Wide(_) => true,
    }
}

fn disputes_of(alloc: Global, kept: &[KeptSubject]) -> Result<Disputes, AllocError>
    ensures { (ss : List Subject) → AreKept kept.now ss → IfOk result (λ made. AreSettled made ss) }
{
    let mut made = Disputes::new(alloc, true);
    let mut rest = kept;
    while let Some((one, others)) = rest.split_first() {
        hear_one(alloc, &mut made, one)?;
        rest = others;
    }
    made.settle();
    Ok(made)
}

fn hear_one(alloc: Global, made: &mut Disputes, kept: &KeptSubject) -> Result<(), AllocError>
    ensures { (s : Subject) → IsKept kept.now s → OnOk result (Hears s.crs.parts made.old made.new) }
{
    let crs = crs_of(alloc, kept)?;
    made.hear(alloc, crs.as_ref().parts())
}

impl Disputes {
    fn new(alloc: Global, heard: bool) -> Disputes
        ensures fresh { (rule : OneRule) → AreHeard result rule [] }
        ensures heard { result.heard ≡ heard }
    {
        Disputes {
            heard,
            case: Words::new(alloc),
            datum: Words::new(alloc),
            parts: Words::new(alloc),
            same_name: Words::new(alloc),
            named: false,
        }
    }

    fn hear(&mut self, alloc: Global, crs: &CrsParts) -> Result<(), AllocError>
        ensures { OnOk result (Hears crs.now self.old self.new) }
    {
        let named = says_names(alloc, crs)?;
        self.named = either(self.named, named);
        hear_rule(alloc, &mut self.case, WideRule::Case, crs)?;
        hear_rule(alloc, &mut self.datum, WideRule::Datum, crs)?;
        hear_rule(alloc, &mut self.parts, WideRule::Parts, crs)?;
        hear_rule(alloc, &mut self.same_name, WideRule::SameName, crs)?;
        Ok(())
    }

    // Frees what is no longer asked about.
    fn settle(&mut self)
        ensures { (rule : OneRule) (xs : List Said) → AreHeard self.old rule xs → (w : List ℕ) → is_open self.new rule w ≡ false → IsSettled rule xs w }
    {
        self.case.settle();
        self.datum.settle();
        self.parts.settle();
        self.same_name.settle();
    }

    /// Whether the rule may tell something of the word.
    pub(crate) fn is_open(&self, rule: WideRule, word: &Vec<u8>) -> bool
        ensures { result ≡ is_open self.now rule word.now.items }
    {
        !self.heard || self.is_open_by(rule, word)
    }

    fn is_open_by(&self, rule: WideRule, word: &Vec<u8>) -> bool
        ensures { result ≡ is_open_by self.now rule word.now.items }
    {
        match rule {
            WideRule::Case => self.case.is_disputed(word),
            WideRule::Datum => self.datum.is_disputed(word),
            WideRule::Parts => self.parts.is_disputed(word),
            WideRule::RefName => self.named,
            WideRule::SameName => self.same_name.is_disputed(word),
            WideRule::Twin => true,
        }
    }

    /// Whether the rule may tell something of no word.
    pub(crate) fn is_settled(&self, rule: WideRule) -> bool
        ensures { result ≡ true → (w : List ℕ) → is_open self.now rule w ≡ false }
    {
        self.heard && self.is_settled_by(rule)
    }

    fn is_settled_by(&self, rule: WideRule) -> bool
        ensures { result ≡ true → (w : List ℕ) → is_open_by self.now rule w ≡ false }
    {
        match rule {
            WideRule::Case => self.case.is_settled(),
            WideRule::Datum => self.datum.is_settled(),
            WideRule::Parts => self.parts.is_settled(),
            WideRule::RefName => !self.named,
            WideRule::SameName => self.same_name.is_settled(),
            WideRule::Twin => false,
        }
    }
}

fn either(left: bool, right: bool) -> bool
    ensures { result ≡ (left || right) }
{
    left || right
}

fn hear_rule(
    alloc: Global,
    words: &mut Words,
    rule: WideRule,
    crs: &CrsParts,
) -> Result<(), AllocError>
    ensures { (xs : List Said) → HaveHeard words.old xs → OnOk result (HaveHeard words.new (xs ++ claims_of rule crs.now)) }
{
    let claims = rule.claims(alloc, crs)?;
    words.hear_all(alloc, &claims)
}

// Whether the name of a system says something of its base or of its vertical part.
fn says_names(alloc: Global, crs: &CrsParts) -> Result<bool, AllocError>
    ensures { IfOk result (λ any. any ≡ false → claims_of wide.RefName crs.now ≡ []) }
{
    let claims = WideRule::RefName.claims(alloc, crs)?;
    Ok(has_some(claims.as_slice()))
}

fn has_some(claims: &[Claim]) -> bool
    ensures { result ≡ false → length claims.now ≡ 0 }
{
    match claims.split_first() {
        Some(_) => true,
        None => false,
    }
}
