//! What the page shows of each entry.

ghost use Rattle.std.specs.Prelude.{◌≡◌, ◌++◌, ◌∷◌, [], All, true, filter, map, IfOk, OnOk};
ghost use Rattle.reg_op.specs.Set as set;
ghost use Rattle.reg_op.specs.Operations.{Op as Operation};
ghost use Rattle.reg_op.specs.Status.{is_enter};
ghost use Rattle.reg_page.specs.Descriptions.{IsSystemOf, IsSystemIn, DescribesEntry, IsDescribed, described_cmp, AreById, at, InOrder};

use crate::boxes::{Edges, boxes_of};
use crate::kind::{areas_of, kind_of};
use crate::order::compare_codes;
use crs_value::Crs;
use crs_value::search::Kind;
use reg_lint::{Rule, questions};
use reg_op::{Op, OpBody, OpId};
use reg_state::Register;
use std::alloc::{AllocError, Global};
use std::cmp::Ordering;
use wkt_crs::{Definition, SharedKey, write_pretty};

/// What the page shows of a reference system.
#[derive(Drop)]
pub struct DescribedSystem {
    pub name: Vec<u8>,
    pub boxes: Vec<Edges>,
    pub areas: Vec<Vec<u8>>,
    pub kind: Kind,
    /// The indented text.
    pub text: Vec<u8>,
    /// What an expert would ask.
    pub questions: Vec<Vec<u8>>,
}

/// What the page shows of an entry.
#[derive(Drop)]
pub struct Described {
    pub id: OpId,
    pub key: SharedKey,
    pub system: DescribedSystem,
    pub note: Vec<u8>,
}

fn system_of(alloc: Global, rules: &[Rule], crs: &Crs) -> Result<DescribedSystem, AllocError>
    ensures { IfOk result (IsSystemOf rules.now crs.now) }
{
    let name = Vec::from_slice(alloc, crs.name().as_bytes())?;
    let boxes = boxes_of(alloc, crs.parts())?;
    let areas = areas_of(alloc, crs.parts())?;
    let mut text = write_pretty(alloc, crs)?;
    text.shrink_to_fit();
    let questions = questions(alloc, rules, crs.parts())?;
    Ok(DescribedSystem {
        name,
        boxes,
        areas,
        kind: kind_of(crs.parts()),
        text,
        questions,
    })
}

fn system_in(
    alloc: Global,
    rules: &[Rule],
    definition: &Definition,
) -> Result<DescribedSystem, AllocError>
    ensures { IfOk result (IsSystemIn rules.now definition.now) }
{
    let crs = definition.crs(alloc)?;
    let made = system_of(alloc, rules, &crs)?;
    Ok(made)
}

fn describe_entry(
    alloc: Global,
    rules: &[Rule],
    id: OpId,
    definition: &Definition,
    note: &[u8],
) -> Result<Described, AllocError>
    ensures { IfOk result (DescribesEntry rules.now id definition.now note.now) }
{
    let system = system_in(alloc, rules, definition)?;
    let key = definition.shared_key(alloc)?;
    let note = Vec::from_slice(alloc, note)?;
    Ok(Described {
        id,
        key,
        system,
        note,
    })
}

fn push_described(
    alloc: Global,
    rules: &[Rule],
    described: &mut Vec<Described>,
    register: &Register,
    op: &Op,
) -> Result<(), AllocError>
    requires there { set.contains register.now.ops op.now ≡ true }
    requires before { All (IsDescribed rules.now register.now.ops) described.old.items }
    ensures each { OnOk result (All (IsDescribed rules.now register.now.ops) described.new.items) }
    ensures ids { OnOk result (map (λ (t : Described). t.id) described.new.items ≡ map (λ (t : Described). t.id) described.old.items ++ map (λ (o : Operation). o.id) (filter (λ (o : Operation). is_enter o.body) (op.now ∷ []))) }
{
    let definition = match op.body() {
        OpBody::Enter(definition) => definition,
        OpBody::Supersede { old: _, newer: _ } => return Ok(()),
        OpBody::Retire { entry: _ } => return Ok(()),
    };
    let one = describe_entry(alloc, rules, op.id(), definition, op.note().as_bytes())?;
    described.push(one)?;
    Ok(())
}

fn compare(left: &Described, right: &Described) -> Ordering
    ensures { result ≡ described_cmp left.now right.now }
{
    let (mine, its) = (left.key.get(), right.key.get());
    mine.authority.as_bytes().cmp(its.authority.as_bytes()).then(compare_codes(
        mine.code.as_bytes(),
        its.code.as_bytes(),
    ).then(left.id.cmp(&right.id)))
}

/// What the page shows of each entry, by id.
pub fn all_described(
    alloc: Global,
    rules: &[Rule],
    register: &Register,
) -> Result<Vec<Described>, AllocError>
    ensures { IfOk result (λ made. AreById rules.now register.now.ops made.items) }
{
    let mut made = Vec::new(alloc);
    let ops = register.ops().as_slice();
    for op in ops {
        push_described(alloc, rules, &mut made, register, op)?;
    }
    Ok(made)
}

fn all_of<'a>(alloc: Global, described: &'a [Described]) -> Result<Vec<&'a Described>, AllocError>
    ensures { IfOk result (λ made. at made.items ≡ described.now) }
{
    let mut made = Vec::with_capacity(alloc, described.len())?;
    for one in described {
        made.push(one)?;
    }
    Ok(made)
}

/// The same by key, and then by id.
pub fn by_key<'a>(
    alloc: Global,
    described: &'a [Described],
) -> Result<Vec<&'a Described>, AllocError>
    ensures { IfOk result (λ made. InOrder described.now (at made.items)) }
{
    let mut made = all_of(alloc, described)?;
    made.sort_unstable_by(|left, right| compare(left, right));
    Ok(made)
}
