//! Operations as callers see them, with borrowed definitions and notes.

ghost use Rattle.std.specs.Prelude.{◌≡◌};
ghost use Rattle.std.specs.Iterator.{YieldsFirstBy, item_count};
ghost use Rattle.reg_state.specs.Views.{op_seen};

use reg_op::{Definition, Note, Op, OpBody, OpId};
use std::marker::Model;

/// The effect of an operation, with a borrowed definition.
#[derive(Clone, Copy)]
pub enum BodyView<'a> {
    Enter(&'a Definition),
    Supersede { old: OpId, newer: OpId },
    Retire { entry: OpId },
}

/// An operation, with a borrowed definition and note.
#[derive(Clone, Copy)]
pub struct OpView<'a> {
    pub id: OpId,
    pub body: BodyView<'a>,
    pub note: &'a Note,
}

fn view_of(op: &Op) -> OpView<'_>
    ensures { op_seen result ≡ op.now }
{
    let id = op.id();
    let body = match op.body() {
        OpBody::Enter(definition) => BodyView::Enter(definition),
        OpBody::Supersede { old, newer } => BodyView::Supersede {
            old: *old,
            newer: *newer,
        },
        OpBody::Retire { entry } => BodyView::Retire { entry: *entry },
    };
    let note = op.note();
    OpView { id, body, note }
}

/// The kept operations of a register, ordered by id, seen as the list of those that remain.
#[derive(Drop)]
pub struct Ops<'a> {
    rest: &'a [Op],
}

impl<'a> Model for Ops<'a> {
    ghost use Rattle.std.specs.Prelude.{List};
    ghost use Rattle.std.specs.Coded.{coded_list};
    ghost use Rattle.reg_op.specs.Operations.{Op as Operation};
    ghost use Rattle.reg_op.specs.Codes.{op_code};

    ghost Value = { List Operation };

    ghost coded = { coded_list op_code };

    ghost view = { λ ops. ops.rest.now };
}

impl<'a> Ops<'a> {
    pub(crate) fn of(rest: &'a [Op]) -> Ops<'a>
        ensures { result ≡ rest.now }
    {
        Ops { rest }
    }

    /// The remaining operations.
    pub fn as_slice(&self) -> &'a [Op]
        ensures { result.now ≡ self.now }
    {
        self.rest
    }
}

impl<'a> Iterator for Ops<'a> {
    type Item = OpView<'a>;

    ghost next_gives = { YieldsFirstBy op_seen (λ rest. rest) };

    ghost remaining = { item_count (λ rest. rest) };

    fn next(&mut self) -> Option<OpView<'a>> {
        let (first, others) = self.rest.split_first()?;
        self.rest = others;
        Some(view_of(first))
    }
}
