//! Words for which more than one content is claimed.

ghost use Rattle.std.specs.Prelude.{◌≡◌, ◌++◌, ◌∷◌, [], false, ℕ, List, map, IsTrue, OnOk};
ghost use Rattle.crs_said.specs.Claims.{Said, claim_seen};
ghost use Rattle.reg_lint.specs.Words.{first_content, is_disputed, beside, PutsFirst, PutsDisputed, HaveHeard};

use crs_said::Claim;
use std::alloc::{AllocError, Global};
use std::collections::{BTreeMap, BTreeSet};

/// For each word the content that was claimed first, and the words for which another one was claimed too.
#[derive(Drop)]
pub struct Words {
    pub firsts: BTreeMap<Vec<u8>, Vec<u8>>,
    pub disputed: BTreeSet<Vec<u8>>,
}

/// What a content is beside the first one of its word.
#[derive(Clone, Copy, PartialEq, Eq)]
pub enum Standing {
    First,
    Same,
    Other,
}

impl Words {
    /// No claims were heard.
    pub fn new(alloc: Global) -> Words
        ensures { HaveHeard result [] }
    {
        Words {
            firsts: BTreeMap::new(alloc),
            disputed: BTreeSet::new(alloc),
        }
    }

    /// Whether more than one content is claimed for the word.
    pub fn is_disputed(&self, word: &Vec<u8>) -> bool
        ensures { result ≡ is_disputed self.now word.now.items }
    {
        self.disputed.contains(word)
    }

    /// Whether none is disputed.
    pub fn is_settled(&self) -> bool
        ensures { IsTrue result → (w : List ℕ) → is_disputed self.now w ≡ false }
    {
        self.disputed.is_empty()
    }

    /// Hears these claims.
    pub fn hear_all(&mut self, alloc: Global, claims: &[Claim]) -> Result<(), AllocError>
        ensures { (xs : List Said) → HaveHeard self.old xs → OnOk result (HaveHeard self.new (xs ++ map claim_seen claims.now)) }
    {
        let mut rest = claims;
        while let Some((claim, others)) = rest.split_first() {
            self.hear(alloc, claim)?;
            rest = others;
        }
        Ok(())
    }

    fn hear(&mut self, alloc: Global, claim: &Claim) -> Result<(), AllocError>
        ensures { (xs : List Said) → HaveHeard self.old xs → OnOk result (HaveHeard self.new (xs ++ claim_seen claim.now ∷ [])) }
    {
        match beside(&self.firsts, claim) {
            Standing::First => self.put_first(alloc, claim),
            Standing::Same => Ok(()),
            Standing::Other => self.put_disputed(alloc, claim),
        }
    }

    fn put_first(&mut self, alloc: Global, claim: &Claim) -> Result<(), AllocError>
        ensures { OnOk result (PutsFirst (claim_seen claim.now) self.old self.new) }
    {
        let word = Vec::from_slice(alloc, &claim.word)?;
        let content = Vec::from_slice(alloc, &claim.content)?;
        let _ = self.firsts.insert(word, content)?;
        Ok(())
    }

    fn put_disputed(&mut self, alloc: Global, claim: &Claim) -> Result<(), AllocError>
        ensures { OnOk result (PutsDisputed claim.now.word.items self.old self.new) }
    {
        let word = Vec::from_slice(alloc, &claim.word)?;
        let _ = self.disputed.insert(word)?;
        Ok(())
    }

    /// Frees the contents. Which words are disputed stays.
    pub fn settle(&mut self)
        ensures { self.new.disputed ≡ self.old.disputed }
    {
        self.firsts.clear();
    }
}

fn beside(firsts: &BTreeMap<Vec<u8>, Vec<u8>>, claim: &Claim) -> Standing
    ensures { result ≡ beside (first_content firsts.now claim.now.word.items) claim.now.content.items }
{
    let Some(content) = firsts.get(&claim.word) else {
        return Standing::First;
    };
    if content.as_slice() == claim.content.as_slice() {
        return Standing::Same;
    }
    Standing::Other
}
