//! What an operation says of keys.

ghost use Rattle.std.specs.Prelude.{◌≡◌, false, IfSome, IfNone};
ghost use Rattle.reg_op.specs.declared.operation.OpBody.TheVariants as body;
ghost use Rattle.reg_report.specs.Conflicts.{KeyBytes};
ghost use Rattle.reg_report.specs.Keys.{key_bytes};
ghost use Rattle.reg_tree.specs.Sayings.{Keys, Saying, is_entry, stands, tells};
ghost use Rattle.reg_tree.specs.Voices.{AreRight, AreInUse, is_key, saying_is};

use reg_op::{Op, OpBody, OpId};
use reg_report::{KeyText, is_retired, key_in};
use reg_state::Register;
use std::collections::BTreeSet;

/// A key that another one supersedes; or, without one, a key whose entries are all retired.
#[derive(Clone, Copy, PartialEq, Eq, PartialOrd, Ord)]
pub struct SayingText<'a> {
    pub key: KeyText<'a>,
    pub by: Option<KeyText<'a>>,
}

// The key of an entry.
fn entry_key(register: &Register, entry: OpId) -> Option<KeyText<'_>>
    ensures some { IfSome result (λ k. (has : Keys KeyBytes) → AreRight has register.now.ops → (q : KeyBytes) → is_entry has register.now.ops q entry ≡ is_key (key_bytes k) q) }
    ensures none { IfNone result ((has : Keys KeyBytes) (q : KeyBytes) → is_entry has register.now.ops q entry ≡ false) }
{
    let _ops = register.ops();
    match register.definition(entry) {
        Some(definition) => Some(key_in(definition)),
        None => None,
    }
}

// The key of an entry that is not retired.
fn live_key(register: &Register, entry: OpId) -> Option<KeyText<'_>>
    ensures live { IfSome result (λ k. (has : Keys KeyBytes) → AreRight has register.now.ops → (q : KeyBytes) → stands has register.now.ops q entry ≡ is_key (key_bytes k) q) }
    ensures entry { IfSome result (λ k. (has : Keys KeyBytes) → AreRight has register.now.ops → (q : KeyBytes) → is_entry has register.now.ops q entry ≡ is_key (key_bytes k) q) }
    ensures none { IfNone result ((has : Keys KeyBytes) (q : KeyBytes) → stands has register.now.ops q entry ≡ false) }
{
    let _ops = register.ops();
    let Some(definition) = register.definition(entry) else {
        return None;
    };
    if is_retired(register, entry) {
        return None;
    }
    Some(key_in(definition))
}

fn link_of(register: &Register, old: OpId, newer: OpId) -> Option<SayingText<'_>>
    ensures { (has : Keys KeyBytes) → AreRight has register.now.ops → (q : Saying KeyBytes) → tells has register.now.ops q (body.Supersede old newer) ≡ saying_is result q }
{
    let Some(key) = live_key(register, old) else {
        return None;
    };
    let Some(by) = live_key(register, newer) else {
        return None;
    };
    if key.cmp(&by).is_eq() {
        return None;
    }
    Some(SayingText { key, by: Some(by) })
}

fn withdrawal_of<'a>(
    register: &'a Register,
    live: &BTreeSet<KeyText<'a>>,
    entry: OpId,
) -> Option<SayingText<'a>>
    requires { AreInUse register.now.ops live.now }
    ensures { (has : Keys KeyBytes) → AreRight has register.now.ops → (q : Saying KeyBytes) → tells has register.now.ops q (body.Retire entry) ≡ saying_is result q }
{
    let Some(key) = entry_key(register, entry) else {
        return None;
    };
    if live.contains(&key) {
        return None;
    }
    Some(SayingText { key, by: None })
}

/// What the operation of a register says, whose keys in use are known.
pub fn saying_of<'a>(
    register: &'a Register,
    live: &BTreeSet<KeyText<'a>>,
    op: &Op,
) -> Option<SayingText<'a>>
    requires { AreInUse register.now.ops live.now }
    ensures { (has : Keys KeyBytes) → AreRight has register.now.ops → (q : Saying KeyBytes) → tells has register.now.ops q op.now.body ≡ saying_is result q }
{
    match op.body() {
        OpBody::Enter(_) => None,
        OpBody::Supersede { old, newer } => link_of(register, *old, *newer),
        OpBody::Retire { entry } => withdrawal_of(register, live, *entry),
    }
}
