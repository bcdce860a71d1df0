//! The least entries of a key, and of each text, for keys with many entries.

ghost use Rattle.std.specs.Prelude.{◌≡◌, ◌++◌, ◌∷◌, [], List, true, IfOk, OnOk};
ghost use Rattle.reg_import.specs.declared.standing_entry.StandingEntry.{StandingEntry};
ghost use Rattle.std.specs.BTreeMap.{get};
ghost use Rattle.reg_import.specs.Imports.{and_least};
ghost use Rattle.reg_import.specs.Summary.{found, found_in, bytes_cmp, SumsUp};

use crate::indexed_text::IndexedText;
use crate::standing_entry::StandingEntry;
use reg_op::OpId;
use std::alloc::{AllocError, Global};
use std::collections::BTreeMap;

/// The least entry with a text, and the least valid one.
#[derive(Clone, Copy)]
pub struct Found {
    pub any: Option<OpId>,
    pub valid: Option<OpId>,
}

/// A summary of entries of one key: the least of all, and the least entries of each text.
#[derive(Drop)]
pub struct Summary {
    pub least: Option<OpId>,
    pub texts: BTreeMap<IndexedText, Found>,
}

// The least id of the entries that pass, after one more entry.
fn and_least(passes: bool, least: Option<OpId>, entry: OpId) -> Option<OpId>
    ensures { result ≡ and_least passes least entry }
{
    if !passes {
        return least;
    }
    let Some(id) = least else {
        return Some(entry);
    };
    if entry.is_before(&id) {
        return Some(entry);
    }
    Some(id)
}

// The least entries of the text, after one more entry that has it.
fn and_found(found: Found, entry: &StandingEntry) -> Found
    ensures any { result.any ≡ and_least true found.any entry.now.entry }
    ensures valid { result.valid ≡ and_least entry.now.valid found.valid entry.now.entry }
{
    Found {
        any: and_least(true, found.any, entry.entry),
        valid: and_least(entry.valid, found.valid, entry.entry),
    }
}

fn found_at(texts: &BTreeMap<IndexedText, Found>, text: &IndexedText) -> Found
    ensures { result ≡ found_in (get bytes_cmp texts.now text.now) }
{
    match texts.get(text) {
        Some(found) => *found,
        None => Found {
            any: None,
            valid: None,
        },
    }
}

impl Summary {
    /// The summary of no entries.
    fn new(alloc: Global) -> Summary
        ensures { SumsUp result [] }
    {
        Summary {
            least: None,
            texts: BTreeMap::new(alloc),
        }
    }

    /// The summary of some entries.
    pub fn of(alloc: Global, entries: &[StandingEntry]) -> Result<Summary, AllocError>
        ensures { IfOk result (λ s. SumsUp s entries.now) }
    {
        let mut summary = Summary::new(alloc);
        let mut rest = entries;
        while let Some((entry, others)) = rest.split_first() {
            summary.add(alloc, entry)?;
            rest = others;
        }
        Ok(summary)
    }

    /// Adds an entry.
    pub fn add(&mut self, alloc: Global, entry: &StandingEntry) -> Result<(), AllocError>
        ensures { OnOk result ((es : List StandingEntry) → SumsUp self.old es → SumsUp self.new (es ++ entry.now ∷ [])) }
    {
        let text = IndexedText::of(alloc, &entry.definition)?;
        let found = and_found(found_at(&self.texts, &text), entry);
        let _ = self.texts.insert(text, found)?;
        self.least = and_least(true, self.least, entry.entry);
        Ok(())
    }

    /// The least entries of the text.
    pub fn found(&self, text: &IndexedText) -> Found
        ensures { (es : List StandingEntry) → SumsUp self.now es → result ≡ found text.now.definition es }
    {
        found_at(&self.texts, text)
    }
}
