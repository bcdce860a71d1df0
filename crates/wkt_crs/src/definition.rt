//! Definitions: the texts that a register holds.

ghost use Rattle.std.specs.Prelude.{◌≡◌, ◌≤◌, ◌⊎◌, true, false, length, Some, Ok, Err, IfOk, IfErr, IfSome};
ghost use Rattle.std.specs.Str.{is_utf8};
ghost use Rattle.wkt_tree.specs.declared.fault.TextFault.{TextFault};
ghost use Rattle.wkt_tree.specs.Faults as tree;
ghost use Rattle.wkt_grammar.specs.declared.fault.SlotFault.{SlotFault};
ghost use Rattle.wkt_canonical.specs.Reads.{IsCanonicalOf};
ghost use Rattle.wkt_crs.specs.declared.fault.Unspelled.TheVariants as refused;
ghost use Rattle.wkt_crs.specs.Spells.{canon};
ghost use Rattle.wkt_crs.specs.Faults.{FirstSlot};
ghost use Rattle.wkt_crs.specs.Definition.{HasNone, IsCanonicalFault, IsSeenFault, IsDefinedBy, IsDefinition, of_read};
ghost use Rattle.wkt_crs.specs.declared.definition.DefinitionFault.TheVariants as fault;

use crate::block::text_in;
use crate::fault::{ReadFault, Unspelled};
use crate::reading::{read_crs, read_spelled};
use crate::shared_key::SharedKey;
use crate::writing::write_crs;
use bytes::Bytes;
use crs_part::{Many, Text, TryClone};
use crs_value::{Crs, Key};
use std::alloc::{AllocError, Global};
use std::fmt;
use std::marker::Model;
use std::rc::Rc;
use wkt_canonical::{Identifier, SeenSystem, recognize};
use wkt_write::condense;

/// Why a reference system, or a text, is not a definition.
#[derive(Clone, Copy, Debug, PartialEq, Eq)]
pub enum DefinitionFault {
    /// The text spells no reference system. This is its first fault.
    Read(Unspelled),
    /// The reference system has no identifier of its own.
    NoIdentifier,
    /// The canonical text has more than 65,536 bytes.
    CanonicalTooLong,
    /// The text is not the canonical one of its value.
    NotCanonical,
    /// An allocation failed.
    Memory,
}

impl DefinitionFault {
    ghost use Rattle.std.specs.Prelude.{◌≡◌};
    ghost use Rattle.wkt_crs.specs.Definition.{fault_name, fault_place};

    /// The name that is printed.
    pub fn name(self) -> &'static str
        ensures { result.now ≡ fault_name self }
    {
        match self {
            DefinitionFault::Read(fault) => fault.name(),
            DefinitionFault::NoIdentifier => "NoIdentifier",
            DefinitionFault::CanonicalTooLong => "CanonicalTooLong",
            DefinitionFault::NotCanonical => "NotCanonical",
            DefinitionFault::Memory => "Memory",
        }
    }

    /// The offset of the fault in the text, from 0, if it has one.
    pub fn place(self) -> Option<usize>
        ensures { result ≡ fault_place self }
    {
        match self {
            DefinitionFault::Read(fault) => fault.place(),
            DefinitionFault::NoIdentifier => None,
            DefinitionFault::CanonicalTooLong => None,
            DefinitionFault::NotCanonical => None,
            DefinitionFault::Memory => None,
        }
    }
}

impl fmt::Display for DefinitionFault {
    fn fmt<W: fmt::Write>(&self, f: &mut fmt::Formatter<W>) -> fmt::Result {
        match self {
            DefinitionFault::Read(fault) => fault.fmt(f),
            DefinitionFault::Memory => f.write_str("out of memory"),
            fault => f.write_str(fault.name()),
        }
    }
}

#[derive(Drop)]
pub(crate) struct Body {
    pub(crate) key: Key,
    name: Text,
    text: Bytes,
    ghost defined: { IsDefinedBy key name text },
}

/// A reference system with an identifier, held as its canonical text. Copies share the text, definitions of one file can share
/// its bytes, and no value is kept, so a register takes little more memory than its texts.
#[derive(Drop)]
pub struct Definition {
    body: Rc<Body>,
}

impl Model for Definition {
    ghost use Rattle.std.specs.Prelude.{ℕ, List};

    ghost Value = { List ℕ };

    ghost view = { λ d. d.body.value.text };
}

impl Definition {
    ghost use Rattle.std.specs.Prelude.{◌≡◌, ◌≤◌, ◌<◌, ◌⊎◌, length, Ok, Err, IfOk, IfErr};
    ghost use Rattle.wkt_tree.specs.declared.fault.TextFault.{TextFault};
    ghost use Rattle.wkt_tree.specs.Faults as tree;
    ghost use Rattle.wkt_grammar.specs.declared.fault.SlotFault.{SlotFault};
    ghost use Rattle.wkt_crs.specs.declared.fault.Unspelled.TheVariants as refused;
    ghost use Rattle.wkt_crs.specs.Faults.{FirstSlot};
    ghost use Rattle.wkt_crs.specs.declared.definition.DefinitionFault.TheVariants as fault;
    ghost use Rattle.wkt_crs.specs.Spells.{Spells, SpellsCanon, canon};
    ghost use Rattle.wkt_crs.specs.Definition.{HasNone, IsDefinition, IsNewFault, IsCanonicalFault, IsTextFault, IsDefinedBy, IsCrsOf, IsNameIn, IsKeyIn};

    /// The most bytes of a definition's canonical text.
    pub const MAX: usize = 65_536;

    /// The definition of a reference system.
    pub fn new(alloc: Global, crs: Crs) -> Result<Definition, DefinitionFault>
        ensures ok { IfOk result (λ d. d ≡ canon crs) }
        ensures is { IfOk result IsDefinition }
        ensures fault { IfErr result (IsNewFault crs) }
        ensures only { IsDefinition (canon crs) → (result ≡ Ok (canon crs)) ⊎ (result ≡ Err fault.Memory) }
        // This fault is reported without allocating.
        ensures none { HasNone crs → result ≡ Err fault.NoIdentifier }
    {
        if !has_identifier(&crs) {
            return Err(DefinitionFault::NoIdentifier);
        }
        let Ok(text) = write_crs(alloc, &crs) else {
            return Err(DefinitionFault::Memory);
        };
        if text.len() > Definition::MAX {
            return Err(DefinitionFault::CanonicalTooLong);
        }
        defined(alloc, &crs, text)
    }

    /// The definition with this canonical text.
    pub fn from_canonical(alloc: Global, bytes: &[u8]) -> Result<Definition, DefinitionFault>
        ensures ok { IfOk result (λ d. d ≡ bytes.now) }
        ensures fault { IfErr result (IsCanonicalFault bytes.now) }
        ensures only { IsDefinition bytes.now → (result ≡ Ok bytes.now) ⊎ (result ≡ Err fault.Memory) }
        // These faults are always reported: `Memory` never replaces them.
        ensures long { 65536 < length bytes.now → result ≡ Err fault.CanonicalTooLong }
        ensures text { (f : TextFault) → length bytes.now ≤ 65536 → tree.FirstFault bytes.now f → result ≡ Err (fault.Read (refused.Text f)) }
        ensures slot { (f : SlotFault) → length bytes.now ≤ 65536 → FirstSlot bytes.now f → result ≡ Err (fault.Read (refused.Slot f)) }
    {
        Definition::from_block(alloc, &Bytes::new(), bytes, 0)
    }

    /// The same. If this text stands in the block with `behind` bytes after it, the definition is a part of the block, and no
    /// byte of the text is copied. The block then lives as long as the definition.
    pub fn from_block(
        alloc: Global,
        block: &Bytes,
        bytes: &[u8],
        behind: usize,
    ) -> Result<Definition, DefinitionFault>
        ensures ok { IfOk result (λ d. d ≡ bytes.now) }
        ensures fault { IfErr result (IsCanonicalFault bytes.now) }
        ensures only { IsDefinition bytes.now → (result ≡ Ok bytes.now) ⊎ (result ≡ Err fault.Memory) }
        ensures long { 65536 < length bytes.now → result ≡ Err fault.CanonicalTooLong }
        ensures text { (f : TextFault) → length bytes.now ≤ 65536 → tree.FirstFault bytes.now f → result ≡ Err (fault.Read (refused.Text f)) }
        ensures slot { (f : SlotFault) → length bytes.now ≤ 65536 → FirstSlot bytes.now f → result ≡ Err (fault.Read (refused.Slot f)) }
    {
        if bytes.len() > Definition::MAX {
            return Err(DefinitionFault::CanonicalTooLong);
        }
        let Some(seen) = recognize(bytes) else {
            return read_canonical(alloc, bytes);
        };
        seen_in_block(alloc, block, bytes, behind, seen)
    }

    /// The definition of the value that the text spells. No value is built if the text, or its condensed form, is recognized as
    /// canonical, as most are.
    pub fn from_text(alloc: Global, text: &[u8]) -> Result<Definition, DefinitionFault>
        ensures ok { IfOk result (SpellsCanon text.now) }
        ensures is { IfOk result IsDefinition }
        ensures fault { IfErr result (IsTextFault text.now) }
        ensures only { (v : Crs) → Spells text.now v → IsDefinition (canon v) → (result ≡ Ok (canon v)) ⊎ (result ≡ Err fault.Memory) }
        // These faults are reported even if an allocation fails.
        ensures text { (f : TextFault) → tree.FirstFault text.now f → result ≡ Err (fault.Read (refused.Text f)) }
        ensures slot { (f : SlotFault) → FirstSlot text.now f → result ≡ Err (fault.Read (refused.Slot f)) }
    {
        if let Some(seen) = seen_in(text) {
            return of_seen(alloc, text, seen);
        }
        if let Some(condensed) = condense(alloc, text) {
            if let Some(seen) = seen_in(&condensed) {
                return of_seen(alloc, &condensed, seen);
            }
        }
        match read_crs(alloc, text) {
            Ok(crs) => Definition::new(alloc, crs),
            Err(fault) => Err(of_read(fault)),
        }
    }

    /// The canonical text.
    pub fn as_bytes(&self) -> &[u8]
        ensures bytes { result.now ≡ self.now }
        ensures canonical { IsDefinition self.now }
    {
        self.body.text.as_slice()
    }

    /// The reference system that the text spells. Each call reads the text.
    pub fn crs(&self, alloc: Global) -> Result<Crs, AllocError>
        ensures { IfOk result (λ crs. IsCrsOf crs self.now) }
    {
        // The text of a definition spells its reference system.
        match read_spelled(alloc, self.as_bytes()) {
            Ok(crs) => Ok(crs),
            Err(_) => Err(AllocError),
        }
    }

    /// The name of the reference system.
    pub fn name(&self) -> &Text
        ensures { IsNameIn result.now self.now }
    {
        &self.body.name
    }

    /// The key of its first identifier.
    pub fn key(&self) -> &Key
        ensures { IsKeyIn result.now self.now }
    {
        &self.body.key
    }

    /// The same key, as a value that shares the memory of the definition.
    pub fn shared_key(&self, alloc: Global) -> Result<SharedKey, AllocError>
        ensures { IfOk result (λ key. IsKeyIn key self.now) }
    {
        let _ = alloc;
        let body = self.body.clone()?;
        Ok(SharedKey { body })
    }

    /// A copy that shares the text.
    pub fn try_clone(&self, alloc: Global) -> Result<Definition, AllocError>
        ensures { IfOk result (λ copy. copy ≡ self.now) }
    {
        // The text is shared, so the copy allocates nothing.
        let _ = alloc;
        let body = self.body.clone()?;
        Ok(Definition { body })
    }
}

// Whether the reference system has an identifier of its own.
fn has_identifier(crs: &Crs) -> bool
    ensures some { result ≡ true → ¬ (HasNone crs.now) }
    ensures none { result ≡ false → HasNone crs.now }
{
    !crs.parts().ids().is_empty()
}

// The findings for a text that is recognized as canonical and not too long for a definition.
fn seen_in(text: &[u8]) -> Option<SeenSystem<'_>>
    ensures { IfSome result (λ seen. (length text.now ≤ 65536) × IsCanonicalOf seen text.now) }
{
    if text.len() > Definition::MAX {
        return None;
    }
    recognize(text)
}

// The definition with a copy of these bytes and with these findings, if there is an identifier.
fn of_seen(alloc: Global, bytes: &[u8], seen: SeenSystem<'_>) -> Result<Definition, DefinitionFault>
    requires { (length bytes.now ≤ 65536) × IsCanonicalOf seen bytes.now }
    ensures ok { IfOk result (λ d. d ≡ bytes.now) }
    ensures is { IfOk result IsDefinition }
    ensures fault { IfErr result (IsSeenFault bytes.now) }
{
    seen_in_block(alloc, &Bytes::new(), bytes, 0, seen)
}

// The same, as a part of the block if the bytes stand there with `behind` bytes after them.
fn seen_in_block(
    alloc: Global,
    block: &Bytes,
    bytes: &[u8],
    behind: usize,
    seen: SeenSystem<'_>,
) -> Result<Definition, DefinitionFault>
    requires { (length bytes.now ≤ 65536) × IsCanonicalOf seen bytes.now }
    ensures ok { IfOk result (λ d. d ≡ bytes.now) }
    ensures is { IfOk result IsDefinition }
    ensures fault { IfErr result (IsSeenFault bytes.now) }
{
    let Some(identifier) = seen.identifier else {
        return Err(DefinitionFault::NoIdentifier);
    };
    match recognized(alloc, block, bytes, behind, seen, identifier) {
        Ok(definition) => Ok(definition),
        Err(_) => Err(DefinitionFault::Memory),
    }
}

// The same with this identifier. No value is built.
fn recognized(
    alloc: Global,
    block: &Bytes,
    bytes: &[u8],
    behind: usize,
    seen: SeenSystem<'_>,
    identifier: Identifier<'_>,
) -> Result<Definition, AllocError>
    requires { (length bytes.now ≤ 65536) × IsCanonicalOf seen bytes.now × (seen.identifier ≡ Some identifier) }
    ensures { IfOk result (λ d. (d ≡ bytes.now) × IsDefinition bytes.now) }
{
    let key = Key {
        authority: text_of(alloc, identifier.authority)?,
        code: text_of(alloc, identifier.code)?,
    };
    let name = text_of(alloc, seen.name)?;
    let text = text_in(alloc, block, bytes, behind)?;
    let body = Rc::new(alloc, Body { key, name, text })?;
    Ok(Definition { body })
}

fn text_of(alloc: Global, bytes: &[u8]) -> Result<Text, AllocError>
    requires { is_utf8 bytes.now ≡ true }
    ensures { IfOk result (λ text. text.bytes ≡ bytes.now) }
{
    match Text::from_utf8(Many::copied(alloc, bytes)?) {
        Some(text) => Ok(text),
        None => unreachable!(),
    }
}

// The definition with these bytes, or their first fault.
fn read_canonical(alloc: Global, bytes: &[u8]) -> Result<Definition, DefinitionFault>
    requires { length bytes.now ≤ 65536 }
    ensures ok { IfOk result (λ d. d ≡ bytes.now) }
    ensures fault { IfErr result (IsCanonicalFault bytes.now) }
    ensures only { IsDefinition bytes.now → (result ≡ Ok bytes.now) ⊎ (result ≡ Err fault.Memory) }
    ensures text { (f : TextFault) → tree.FirstFault bytes.now f → result ≡ Err (fault.Read (refused.Text f)) }
    ensures slot { (f : SlotFault) → FirstSlot bytes.now f → result ≡ Err (fault.Read (refused.Slot f)) }
{
    let crs = match read_crs(alloc, bytes) {
        Ok(crs) => crs,
        Err(fault) => return Err(of_read(fault)),
    };
    if !has_identifier(&crs) {
        return Err(DefinitionFault::NoIdentifier);
    }
    let Ok(text) = write_crs(alloc, &crs) else {
        return Err(DefinitionFault::Memory);
    };
    if text.as_slice() != bytes {
        return Err(DefinitionFault::NotCanonical);
    }
    defined(alloc, &crs, text)
}

// The definition of a reference system with an identifier, and its canonical text.
fn defined(alloc: Global, crs: &Crs, text: Vec<u8>) -> Result<Definition, DefinitionFault>
    requires { (text.items ≡ canon crs.now) × (length text.items ≤ 65536) × ¬ (HasNone crs.now) }
    ensures ok { IfOk result (λ d. d ≡ text.items) }
    ensures is { IfOk result IsDefinition }
    ensures fault { IfErr result (λ f. f ≡ fault.Memory) }
{
    let key = match crs.key(alloc) {
        Ok(Some(key)) => key,
        // An identifier has a key.
        Ok(None) => unreachable!(),
        Err(_) => return Err(DefinitionFault::Memory),
    };
    let Ok(name) = crs.name().try_clone(alloc) else {
        return Err(DefinitionFault::Memory);
    };
    let Ok(text) = Bytes::from_vec(text) else {
        return Err(DefinitionFault::Memory);
    };
    match Rc::new(alloc, Body { key, name, text }) {
        Ok(body) => Ok(Definition { body }),
        Err(_) => Err(DefinitionFault::Memory),
    }
}

fn of_read(fault: ReadFault) -> DefinitionFault
    ensures { result ≡ of_read fault }
{
    match fault.unspelled() {
        Some(refused) => DefinitionFault::Read(refused),
        None => DefinitionFault::Memory,
    }
}
