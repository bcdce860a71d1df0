//! The register: taking an operation, joining two registers.

ghost use Rattle.std.specs.Prelude.{◌≡◌, ◌↔◌, ℕ, true, false, List, [], ◌∷◌, Ok, Err, OnOk, OnErr, IfOk, IfSome, IfNone, Some, None};
ghost use Rattle.reg_op.specs.Set as set;
ghost use Rattle.reg_op.specs.Ids.{Id, is_same};
ghost use Rattle.reg_op.specs.Operations.{Op as Operation, ids, one, op_cmp, IsOperation, OneBody};
ghost use Rattle.reg_op.specs.Contents.{Content, Agreed, IsContent, state, nothing, merged, joined};
ghost use Rattle.reg_op.specs.Pieces.{outside};
ghost use Rattle.reg_op.specs.Finite.{any};
ghost use Rattle.reg_op.specs.Status.{enters, status, is_enter, is_supersession};
ghost use Rattle.reg_op.specs.Kept.{entering, first_dropped};
ghost use Rattle.reg_op.specs.Lists.{ById, has, content_at};
ghost use Rattle.reg_state.specs.Marks.{marks_of_body};
ghost use Rattle.reg_state.specs.RegisterLaws.{register_laws};

use crate::mark::{Mark, MarkTarget};
use crate::mark_set::Marks;
use crate::marks::{is_marked, is_replaced, mark_of, marks_of};
use crate::merge::join_ops;
use crate::outside::ops_outside;
use crate::run::Run;
use crate::seen::Seen;
use crate::table::{
    definition_in, first_clash, first_replaced, has_id, put_op, put_with_room, remove_replaced,
};
use crate::view::Ops;
use reg_op::joining::{Join, JoinFault};
use reg_op::{Definition, Op, OpId, Status};
use std::alloc::{AllocError, Global};
use std::marker::Model;
use std::{fmt, slice};

/// Why `from_content` rejects operations.
#[derive(Clone, Copy, Debug, PartialEq, Eq)]
pub enum ContentFault {
    /// The least id that is not kept.
    NotKept(OpId),
    Memory,
}

impl ContentFault {
    ghost use Rattle.reg_state.specs.Names.{content_name, content_id};

    /// The name that is printed.
    pub fn name(self) -> &'static str
        ensures { result.now ≡ content_name self }
    {
        match self {
            ContentFault::NotKept(_) => "NotKept",
            ContentFault::Memory => "Memory",
        }
    }

    /// The id that it names, if any.
    pub fn id(self) -> Option<OpId>
        ensures { result ≡ content_id self }
    {
        match self {
            ContentFault::NotKept(id) => Some(id),
            ContentFault::Memory => None,
        }
    }
}

impl fmt::Display for ContentFault {
    fn fmt<W: fmt::Write>(&self, f: &mut fmt::Formatter<W>) -> fmt::Result {
        match self {
            ContentFault::NotKept(id) => write!(f, "NotKept {id}"),
            ContentFault::Memory => f.write_str("out of memory"),
        }
    }
}

/// Why an operation is not taken.
#[derive(Clone, Copy, Debug, PartialEq, Eq)]
pub enum TakeFault {
    /// Its id has another body.
    Clash(OpId),
    Memory,
}

impl TakeFault {
    ghost use Rattle.reg_state.specs.Names.{take_name, take_id};

    /// The name that is printed.
    pub fn name(self) -> &'static str
        ensures { result.now ≡ take_name self }
    {
        match self {
            TakeFault::Clash(_) => "Clash",
            TakeFault::Memory => "Memory",
        }
    }

    /// The id that it names, if any.
    pub fn id(self) -> Option<OpId>
        ensures { result ≡ take_id self }
    {
        match self {
            TakeFault::Clash(id) => Some(id),
            TakeFault::Memory => None,
        }
    }
}

impl fmt::Display for TakeFault {
    fn fmt<W: fmt::Write>(&self, f: &mut fmt::Formatter<W>) -> fmt::Result {
        match self {
            TakeFault::Clash(id) => write!(f, "Clash {id}"),
            TakeFault::Memory => f.write_str("out of memory"),
        }
    }
}

/// A register: the operations that it keeps by id, the marks that they set, and the ids that it has seen.
#[derive(Drop)]
pub struct Register {
    ops: Vec<Op>,
    marks: Marks,
    seen: Seen,
}

impl Model for Register {
    ghost use Rattle.reg_op.specs.Contents.{Content};
    ghost use Rattle.reg_op.specs.Codes.{content_code};
    ghost use Rattle.reg_op.specs.Lists.{content_at};
    ghost use Rattle.reg_state.specs.Tables.{AreTables};

    ghost Value = { Content };

    ghost coded = { content_code };

    ghost view = { λ r. content_at r.ops.items r.seen };

    ghost invariant = { λ r. AreTables r.ops.items r.marks r.seen };
}

impl Register {
    /// The empty register.
    pub fn new(alloc: Global) -> Register
        ensures { result ≡ nothing }
    {
        Register {
            ops: Vec::new(alloc),
            marks: Marks::new(alloc),
            seen: Seen::new(alloc),
        }
    }

    /// A register of operations ordered by id, all of them seen and none redundant.
    pub fn from_content(alloc: Global, ops: Vec<Op>, seen: Seen) -> Result<Register, ContentFault>
        requires by_id { ById ops.items }
        requires are_seen { (o : Operation) → has ops.items o ≡ true → set.contains seen o.id ≡ true }
        ensures ok { IfOk result (λ r. r ≡ content_at ops.items seen) }
        ensures kept { OnOk result (first_dropped (set.from_list {R = op_cmp} ops.items) ≡ None) }
        ensures not_kept { (id : Id) → result ≡ Err (ContentFault.NotKept id) → first_dropped (set.from_list {R = op_cmp} ops.items) ≡ Some id }
    {
        let marks = match marks_of(alloc, &ops) {
            Ok(marks) => marks,
            Err(_) => return Err(ContentFault::Memory),
        };
        if let Some(id) = first_replaced(&ops, &marks) {
            return Err(ContentFault::NotKept(id));
        }
        let _first = seen.run(0);
        Ok(Register { ops, marks, seen })
    }

    /// The allocator that it was made with.
    pub fn allocator(&self) -> Global {
        *self.ops.allocator()
    }

    /// The operations that are kept, by id.
    pub fn ops(&self) -> Ops<'_>
        ensures items { result ≡ set.items self.now.ops }
        ensures by_id { ById result }
        ensures content { IsContent self.now }
    {
        Ops::of(&self.ops)
    }

    /// The ids that were seen.
    pub fn seen(&self) -> &Seen
        ensures value { result.now ≡ self.now.seen }
        ensures content { IsContent self.now }
    {
        &self.seen
    }

    /// The status of an entry; other ids have none.
    pub fn status(&self, entry: OpId) -> Option<Status>
        ensures { result ≡ status self.now.ops entry }
    {
        if definition_in(&self.ops, entry).is_none() {
            return None;
        }
        if is_marked(&self.marks, &MarkTarget { entry, by: None }) {
            return Some(Status::Retired);
        }
        if self.marks.is_touched(entry) {
            return Some(Status::Superseded);
        }
        Some(Status::Valid)
    }

    /// Whether a kept operation supersedes an entry by a newer one.
    pub fn is_superseded_by(&self, old: OpId, newer: OpId) -> bool
        ensures { result ≡ any (λ o. is_supersession old (is_same newer) o.body) self.now.ops }
    {
        let by = Some(newer);
        is_marked(&self.marks, &MarkTarget { entry: old, by })
    }

    /// The definition that an id entered.
    pub fn definition(&self, entry: OpId) -> Option<&Definition>
        ensures found { IfSome result (λ d. (note : List ℕ) × (set.contains self.now.ops (entering entry d.now note) ≡ true)) }
        ensures none { IfNone result (enters self.now.ops entry ≡ false) }
    {
        definition_in(&self.ops, entry)
    }

    /// Joins one operation. A clash is found before anything is allocated.
    pub fn take(&mut self, op: Op) -> Result<(), TakeFault>
        ensures ok { OnOk result (joined self.old (state (one op)) ≡ Ok self.new) }
        ensures clash { (id : Id) → (result ≡ Err (TakeFault.Clash id)) ↔ (joined self.old (state (one op)) ≡ Err id) }
        ensures err { OnErr result (self.new ≡ self.old) }
    {
        if let Some(id) = first_clash(&self.ops, slice::from_ref(&op)) {
            return Err(TakeFault::Clash(id));
        }
        let alloc = *self.ops.allocator();
        match self.put(alloc, op) {
            Ok(()) => Ok(()),
            Err(_) => Err(TakeFault::Memory),
        }
    }

    /// A copy, which shares its definitions.
    pub fn try_clone(&self, alloc: Global) -> Result<Register, AllocError>
        ensures { IfOk result (λ copy. copy ≡ self.now) }
    {
        let ops = copies(alloc, &self.ops)?;
        let marks = self.marks.try_clone(alloc)?;
        let seen = self.seen.try_clone(alloc)?;
        Ok(Register { ops, marks, seen })
    }

    /// The part of the register with ids outside a basis.
    pub(crate) fn outside(&self, alloc: Global, basis: &Seen) -> Result<Register, AllocError>
        ensures { IfOk result (λ part. part ≡ outside basis.now self.now) }
    {
        let ops = ops_outside(alloc, &self.ops, basis)?;
        let marks = marks_of(alloc, &ops)?;
        let seen = self.seen.outside(alloc, basis)?;
        Ok(Register { ops, marks, seen })
    }

    // Joins one operation whose id has no other body. If it is there already, nothing changes.
    fn put(&mut self, alloc: Global, op: Op) -> Result<(), AllocError>
        requires { OneBody (set.union self.old.ops (one op)) }
        ensures ok { OnOk result (self.new ≡ merged self.old (state (one op))) }
        ensures err { OnErr result (self.new ≡ self.old) }
    {
        if has_id(&self.ops, op.id()) {
            return Ok(());
        }
        let seen = with_id(alloc, &self.seen, op.id())?;
        match mark_of(&op) {
            None => self.put_entry(op, seen),
            Some(mark) => self.put_mark(op, mark, seen),
        }
    }

    // Inserts an entry, whose id no operation has.
    fn put_entry(&mut self, op: Op, seen: Seen) -> Result<(), AllocError>
        requires operation { IsOperation op }
        requires entry { is_enter op.body ≡ true }
        requires absent { (q : Operation) → set.contains self.old.ops q ≡ true → is_same op.id q.id ≡ false }
        requires one_body { OneBody (set.union self.old.ops (one op)) }
        requires seen { seen ≡ set.union self.old.seen (ids (one op)) }
        ensures ok { OnOk result (self.new ≡ merged self.old (state (one op))) }
        ensures err { OnErr result (self.new ≡ self.old) }
    {
        put_op(&mut self.ops, op)?;
        self.seen = seen;
        Ok(())
    }

    // Inserts an operation that sets a mark, whose id no operation has, and removes what becomes redundant. If it is
    // redundant itself, only its id is recorded. Everything that can fail comes first.
    fn put_mark(&mut self, op: Op, mark: Mark, seen: Seen) -> Result<(), AllocError>
        requires operation { IsOperation op }
        requires mark { marks_of_body op.id op.body ≡ mark ∷ [] }
        requires absent { (q : Operation) → set.contains self.old.ops q ≡ true → is_same op.id q.id ≡ false }
        requires one_body { OneBody (set.union self.old.ops (one op)) }
        requires seen { seen ≡ set.union self.old.seen (ids (one op)) }
        ensures ok { OnOk result (self.new ≡ merged self.old (state (one op))) }
        ensures err { OnErr result (self.new ≡ self.old) }
    {
        if is_replaced(&self.marks, &op) {
            self.seen = seen;
            return Ok(());
        }
        self.ops.reserve(1)?;
        let replaces = self.marks.has_covered(&mark.target);
        self.marks.insert(mark)?;
        remove_replaced(&mut self.ops, &op, replaces);
        put_with_room(&mut self.ops, op);
        self.seen = seen;
        Ok(())
    }

    // Joins registers in which no id has two bodies.
    fn merge(&self, alloc: Global, other: &Register) -> Result<Register, AllocError>
        requires { OneBody (set.union self.now.ops other.now.ops) }
        ensures { IfOk result (λ r. r ≡ merged self.now other.now) }
    {
        let ops = join_ops(alloc, &self.ops, &self.marks, &other.ops, &other.marks)?;
        let Ok(marks) = self.marks.join(alloc, &other.marks) else {
            return Err(AllocError);
        };
        match self.seen.join(alloc, &other.seen) {
            Ok(seen) => Ok(Register { ops, marks, seen }),
            Err(_) => Err(AllocError),
        }
    }
}

// An id that was seen.
fn seen_once(alloc: Global, id: OpId) -> Result<Seen, AllocError>
    ensures { IfOk result (λ seen. seen ≡ set.from_list (id ∷ [])) }
{
    let mut seen = Seen::new(alloc);
    seen.add_run(Run {
        replica: id.replica(),
        low: id.count(),
        high: id.count(),
    })?;
    Ok(seen)
}

// The seen ids, and one more.
fn with_id(alloc: Global, seen: &Seen, id: OpId) -> Result<Seen, AllocError>
    ensures { IfOk result (λ more. more ≡ set.union seen.now (set.from_list (id ∷ []))) }
{
    let once = seen_once(alloc, id)?;
    match seen.join(alloc, &once) {
        Ok(more) => Ok(more),
        Err(_) => Err(AllocError),
    }
}

// Copies of operations, in order.
fn copies(alloc: Global, ops: &[Op]) -> Result<Vec<Op>, AllocError>
    ensures { IfOk result (λ made. made.items ≡ ops.now) }
{
    let mut made = Vec::with_capacity(alloc, ops.len())?;
    for op in ops {
        made.push(op.try_clone(alloc)?)?;
    }
    Ok(made)
}

impl Join for Register {
    type Clash = OpId;

    ghost nothing = { nothing };

    ghost joined = { joined };

    ghost merged = { merged };

    ghost agree = { Agreed };

    ghost is_value = { IsContent };

    fn empty(alloc: Global) -> Register {
        Register::new(alloc)
    }

    fn join(&self, alloc: Global, other: &Register) -> Result<Register, JoinFault<OpId>> {
        if let Some(id) = first_clash(&self.ops, &other.ops) {
            return Err(JoinFault::Clash(id));
        }
        match self.merge(alloc, other) {
            Ok(register) => Ok(register),
            Err(_) => Err(JoinFault::Memory),
        }
    }

    ghost laws = { register_laws };
}
