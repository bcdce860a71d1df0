//! Operations, and their effects.

ghost use Rattle.std.specs.Prelude.{◌≡◌, ◌↔◌, false, IsTrue, IfOk, IsErr};
ghost use Rattle.std.specs.Ordering.{is_eq};
ghost use Rattle.reg_op.specs.Operations.{Op as Operation, IsBody, IsOperation, IsOfItself, op_cmp, clashes, replaces};

use crate::{Note, OpId};
use std::alloc::{AllocError, Global};
use std::marker::Model;
use wkt_crs::Definition;

/// The effect of an operation. An entry is named by the id of the operation that entered it.
#[derive(Drop)]
pub enum OpBody {
    Enter(Definition),
    Supersede { old: OpId, newer: OpId },
    Retire { entry: OpId },
}

/// An entry would supersede itself.
#[derive(Clone, Copy, Debug, PartialEq, Eq)]
pub struct SameEntry;

/// An operation: an effect with its own id and note.
#[derive(Drop)]
pub struct Op {
    id: OpId,
    body: OpBody,
    note: Note,
}

impl Model for Op {
    ghost use Rattle.reg_op.specs.Operations.{Op as Operation, IsOperation};
    ghost use Rattle.reg_op.specs.Codes.{op_code};

    ghost Value = { Operation };

    ghost coded = { op_code };

    ghost view = { λ o. record { id = o.id; body = o.body; note = o.note } };

    ghost invariant = { λ o. IsOperation (record { id = o.id; body = o.body; note = o.note }) };
}

impl Op {
    /// An operation with this id, or a fault if an entry would supersede itself.
    pub fn new(id: OpId, body: OpBody, note: Note) -> Result<Op, SameEntry>
        ensures ok { IfOk result (λ op. op ≡ record { id = id; body = body; note = note }) }
        ensures same { IsErr result ↔ IsOfItself body }
    {
        let _count = id.count();
        let _noted = note.as_bytes();
        if body.is_of_itself() {
            return Err(SameEntry);
        }
        Ok(Op { id, body, note })
    }

    /// The id, which no other operation has.
    pub fn id(&self) -> OpId
        ensures value { result ≡ self.now.id }
        ensures operation { IsOperation self.now }
    {
        self.id
    }

    /// The effect.
    pub fn body(&self) -> &OpBody
        ensures { result.now ≡ self.now.body }
    {
        &self.body
    }

    /// The note.
    pub fn note(&self) -> &Note
        ensures { result.now ≡ self.now.note }
    {
        &self.note
    }

    /// Returns the parts of the operation.
    pub fn into_parts(self) -> (OpId, OpBody, Note)
        ensures id { result.0 ≡ self.id }
        ensures body { result.1 ≡ self.body }
        ensures note { result.2 ≡ self.note }
    {
        let Op { id, body, note } = self;
        (id, body, note)
    }

    /// A copy, which shares its definition and its note.
    pub fn try_clone(&self, alloc: Global) -> Result<Op, AllocError>
        ensures { IfOk result (λ copy. copy ≡ self.now) }
    {
        let body = self.body.try_clone(alloc)?;
        let note = self.note.try_clone()?;
        Ok(Op {
            id: self.id,
            body,
            note,
        })
    }

    /// Whether the operations are the same.
    pub fn is_same(&self, other: &Op) -> bool
        ensures { result ≡ is_eq (op_cmp self.now other.now) }
    {
        self.equals(other)
    }

    fn equals(&self, other: &Op) -> bool
        ensures { IsTrue result ↔ (self.now ≡ other.now) }
    {
        self.id == other.id && self.body.is_same(&other.body) && self.note.is_same(&other.note)
    }

    /// Whether the id is the same, and the body or the note is not.
    pub fn clashes(&self, other: &Op) -> bool
        ensures { result ≡ clashes self.now other.now }
    {
        self.id.is_same(&other.id) && !self.is_same(other)
    }

    /// Whether this one makes the other redundant.
    pub fn replaces(&self, other: &Op) -> bool
        ensures { result ≡ replaces self.now other.now }
    {
        let before = self.id.is_before(&other.id);
        match (&self.body, &other.body) {
            (OpBody::Retire { entry }, OpBody::Retire { entry: other_entry }) => {
                entry.is_same(other_entry) && before
            }
            (OpBody::Retire { entry }, OpBody::Supersede { old, newer: _ }) => entry.is_same(old),
            (
                OpBody::Supersede { old, newer },
                OpBody::Supersede {
                    old: other_old,
                    newer: other_newer,
                },
            ) => old.is_same(other_old) && newer.is_same(other_newer) && before,
            _ => false,
        }
    }
}

impl OpBody {
    /// Whether an entry would supersede itself. Every other effect is allowed.
    pub fn is_of_itself(&self) -> bool
        ensures value { IsTrue result ↔ IsOfItself self.now }
        ensures possible { result ≡ false → IsBody self.now }
    {
        match self {
            OpBody::Enter(definition) => {
                let _text = definition.as_bytes();
                false
            }
            OpBody::Supersede { old, newer } => {
                let _counts = (old.count(), newer.count());
                old == newer
            }
            OpBody::Retire { entry } => {
                let _count = entry.count();
                false
            }
        }
    }

    /// A copy, which shares its definition.
    pub fn try_clone(&self, alloc: Global) -> Result<OpBody, AllocError>
        ensures { IfOk result (λ copy. copy ≡ self.now) }
    {
        match self {
            OpBody::Enter(definition) => Ok(OpBody::Enter(definition.try_clone(alloc)?)),
            OpBody::Supersede { old, newer } => Ok(OpBody::Supersede {
                old: *old,
                newer: *newer,
            }),
            OpBody::Retire { entry } => Ok(OpBody::Retire { entry: *entry }),
        }
    }

    /// Whether the effects are the same.
    pub fn is_same(&self, other: &OpBody) -> bool
        ensures { IsTrue result ↔ (self.now ≡ other.now) }
    {
        match (self, other) {
            (OpBody::Enter(a), OpBody::Enter(b)) => has_same_text(a, b),
            (
                OpBody::Supersede { old, newer },
                OpBody::Supersede {
                    old: other_old,
                    newer: other_newer,
                },
            ) => { *old == *other_old && *newer == *other_newer }
            (OpBody::Retire { entry }, OpBody::Retire { entry: other_entry }) => {
                *entry == *other_entry
            }
            _ => false,
        }
    }
}

fn has_same_text(left: &Definition, right: &Definition) -> bool
    ensures { IsTrue result ↔ (left.now ≡ right.now) }
{
    left.as_bytes() == right.as_bytes()
}
