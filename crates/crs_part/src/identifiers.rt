//! Identifiers, and nodes with only a name and identifiers.

use crate::copies::{TryClone, five, two};
use crate::many::Many;
use crate::same::Same;
use crate::text::Text;
use crs_number::Decimal;
use std::alloc::{AllocError, Global};

/// A code or a version.
#[derive(Drop)]
pub enum NumberOrText {
    Number(Decimal),
    Text(Text),
}

/// An identifier in the list of an authority.
#[derive(Drop)]
pub struct Ident {
    pub authority: Text,
    pub code: NumberOrText,
    pub version: Option<NumberOrText>,
    pub citation: Option<Text>,
    pub uri: Option<Text>,
}

/// A member of an ensemble, a method of a conversion, or a geoid model.
#[derive(Drop)]
pub struct Named {
    pub name: Text,
    pub ids: Many<Ident>,
}

impl TryClone for NumberOrText {
    fn try_clone(&self, alloc: Global) -> Result<NumberOrText, AllocError> {
        match self {
            NumberOrText::Number(number) => Ok(NumberOrText::Number(*number)),
            NumberOrText::Text(text) => Ok(NumberOrText::Text(text.try_clone(alloc)?)),
        }
    }
}

impl Same for NumberOrText {
    fn same(&self, other: &NumberOrText) -> bool {
        match (self, other) {
            (NumberOrText::Number(a), NumberOrText::Number(b)) => a.same(b),
            (NumberOrText::Text(a), NumberOrText::Text(b)) => a.same(b),
            (_, _) => false,
        }
    }
}

impl TryClone for Ident {
    fn try_clone(&self, alloc: Global) -> Result<Ident, AllocError> {
        let (authority, code, version, citation, uri) = five(
            alloc,
            &self.authority,
            &self.code,
            &self.version,
            &self.citation,
            &self.uri,
        )?;
        Ok(Ident {
            authority,
            code,
            version,
            citation,
            uri,
        })
    }
}

impl Same for Ident {
    fn same(&self, other: &Ident) -> bool {
        self.authority.same(&other.authority)
            && self.code.same(&other.code)
            && self.version.same(&other.version)
            && self.citation.same(&other.citation)
            && self.uri.same(&other.uri)
    }
}

impl TryClone for Named {
    fn try_clone(&self, alloc: Global) -> Result<Named, AllocError> {
        let (name, ids) = two(alloc, &self.name, &self.ids)?;
        Ok(Named { name, ids })
    }
}

impl Same for Named {
    fn same(&self, other: &Named) -> bool {
        self.name.same(&other.name) && self.ids.same(&other.ids)
    }
}
