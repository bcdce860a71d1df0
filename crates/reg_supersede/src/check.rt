//! The pairs that a line adds after the lines before it, and why an office refuses them.

ghost use Rattle.std.specs.Prelude.{◌≡◌, ◌+◌, ◌≤◌, ◌<◌, [], nat_lt, length, None, IfOk, OnOk, IfErr};
ghost use Rattle.reg_office.specs.Making.{greatest, numbered, objections, note_fault};
ghost use Rattle.reg_supersede.specs.Lists.{is_there, lacking, bodies_of};
ghost use Rattle.reg_supersede.specs.Effects.{task_of, after, next, pair_fault, ArePairs, HasPairs, AddsPair, IsPairFault, IsAddFault, CanMake, CanAdd};

use crate::fault::LineFault;
use crate::list_options::{ListEffects, ListOptions};
use crate::pair::Pair;
use reg_office::OfficeFault;
use reg_op::Note;
use reg_report::{is_entered, is_retired};
use reg_state::Register;
use std::alloc::Global;
use std::collections::BTreeSet;

// Why the office refuses a pair that is not there yet.
fn pair_fault(register: &Register, pair: Pair) -> Option<OfficeFault>
    ensures { result ≡ pair_fault register.now.ops pair }
{
    let Pair { old, newer } = pair;
    if !is_entered(register, old) {
        return Some(OfficeFault::UnknownEntry(old));
    }
    if !is_entered(register, newer) {
        return Some(OfficeFault::UnknownEntry(newer));
    }
    if old.is_same(&newer) {
        return Some(OfficeFault::SameEntry);
    }
    if is_retired(register, old) {
        return Some(OfficeFault::AlreadyRetired(old));
    }
    if is_retired(register, newer) {
        return Some(OfficeFault::AlreadyRetired(newer));
    }
    None
}

// Whether the old entry is superseded by the newer one already, in the register or by an earlier line. A retired entry is superseded by
// none.
fn is_there(options: &ListOptions<'_>, effects: &ListEffects, pair: Pair) -> bool
    requires made { CanMake (task_of options.now) options.now.register.now effects.now.bodies.items }
    requires pairs { ArePairs effects.now.pairs effects.now.bodies.items }
    ensures { result ≡ is_there (after (task_of options.now) options.now.register.now effects.now.bodies.items).ops pair }
{
    let _content = options.register.seen();
    options.register.is_superseded_by(pair.old, pair.newer) || effects.pairs.contains(&pair)
}

// The pairs of a line so far, as a list and as a set.
#[derive(Drop)]
struct Added {
    list: Vec<Pair>,
    set: BTreeSet<Pair>,
}

// Adds one pair more, unless it is there.
fn add_pair(
    options: &ListOptions<'_>,
    effects: &ListEffects,
    added: &mut Added,
    pair: Pair,
) -> Result<(), LineFault>
    requires made { CanMake (task_of options.now) options.now.register.now effects.now.bodies.items }
    requires pairs { ArePairs effects.now.pairs effects.now.bodies.items }
    requires set { HasPairs added.old.set added.old.list.items }
    ensures ok { OnOk result (AddsPair options.now.register.now.ops (after (task_of options.now) options.now.register.now effects.now.bodies.items).ops pair added.old.list.items added.new.list.items) }
    ensures set { OnOk result (HasPairs added.new.set added.new.list.items) }
    ensures fault { IfErr result (IsPairFault options.now.register.now.ops (after (task_of options.now) options.now.register.now effects.now.bodies.items).ops pair added.old.list.items) }
{
    if is_there(options, effects, pair) {
        return Ok(());
    }
    if added.set.contains(&pair) {
        return Ok(());
    }
    if let Some(fault) = pair_fault(options.register, pair) {
        return Err(LineFault::Office(fault));
    }
    let Ok(_) = added.set.insert(pair) else {
        return Err(LineFault::Memory);
    };
    match added.list.push(pair) {
        Ok(()) => Ok(()),
        Err(_) => Err(LineFault::Memory),
    }
}

// Of these pairs those that are not there yet, each once.
fn lacking(
    alloc: Global,
    options: &ListOptions<'_>,
    effects: &ListEffects,
    pairs: &[Pair],
) -> Result<Vec<Pair>, LineFault>
    requires made { CanMake (task_of options.now) options.now.register.now effects.now.bodies.items }
    requires pairs { ArePairs effects.now.pairs effects.now.bodies.items }
    requires short { note_fault options.now.note.now ≡ None }
    ensures ok { IfOk result (λ v. (v.items ≡ lacking (after (task_of options.now) options.now.register.now effects.now.bodies.items).ops [] pairs.now)
        × (objections (after (task_of options.now) options.now.register.now effects.now.bodies.items)
        (numbered options.now.replica (next (task_of options.now) options.now.register.now effects.now.bodies.items) options.now.note.now (bodies_of v.items)) ≡ None)) }
    ensures fault { IfErr result (IsAddFault (task_of options.now) (after (task_of options.now) options.now.register.now effects.now.bodies.items)
        (lacking (after (task_of options.now) options.now.register.now effects.now.bodies.items).ops [] pairs.now)) }
{
    let _content = options.register.seen();
    let mut added = Added {
        list: Vec::new(alloc),
        set: BTreeSet::new(alloc),
    };
    for pair in pairs {
        add_pair(options, effects, &mut added, *pair)?;
    }
    let Added { list, set: _ } = added;
    Ok(list)
}

// The greatest own count seen before the first line.
fn last_count(options: &ListOptions<'_>) -> u32
    ensures { result ≡ greatest options.now.replica options.now.register.now.seen }
{
    options.register.seen().greatest(options.replica)
}

// Whether the last number would be out of range.
fn is_spent(options: &ListOptions<'_>, effects: &ListEffects, pairs: &[Pair]) -> bool
    requires { greatest options.now.replica options.now.register.now.seen + length effects.now.bodies.items ≤ 4294967295 }
    ensures { result ≡ nat_lt 4294967295 (greatest options.now.replica options.now.register.now.seen + length effects.now.bodies.items + length pairs.now) }
{
    let left = u32::MAX - last_count(options);
    left as usize - effects.bodies.len() < pairs.len()
}

// Why the note is refused.
fn note_fault(note: &str) -> Option<OfficeFault>
    ensures { result ≡ note_fault note.now }
{
    if note.len() > Note::MAX {
        return Some(OfficeFault::NoteTooLong);
    }
    None
}

/// Of these pairs those that a line adds: the ones that are not there yet, each once.
pub fn pairs_to_add(
    alloc: Global,
    options: &ListOptions<'_>,
    effects: &ListEffects,
    pairs: &[Pair],
) -> Result<Vec<Pair>, LineFault>
    requires made { CanMake (task_of options.now) options.now.register.now effects.now.bodies.items }
    requires pairs { ArePairs effects.now.pairs effects.now.bodies.items }
    ensures lacking { IfOk result (λ v. v.items ≡ lacking (after (task_of options.now) options.now.register.now effects.now.bodies.items).ops [] pairs.now) }
    ensures allowed { IfOk result (λ v. CanAdd (task_of options.now) options.now.register.now effects.now.bodies.items (bodies_of v.items)) }
    ensures fault { IfErr result (IsAddFault (task_of options.now) (after (task_of options.now) options.now.register.now effects.now.bodies.items)
        (lacking (after (task_of options.now) options.now.register.now effects.now.bodies.items).ops [] pairs.now)) }
{
    if let Some(fault) = note_fault(options.note) {
        return Err(LineFault::Office(fault));
    }
    let lacking = match lacking(alloc, options, effects, pairs) {
        Ok(lacking) => lacking,
        Err(fault) => return Err(fault),
    };
    if is_spent(options, effects, &lacking) {
        return Err(LineFault::Office(OfficeFault::CountSpent));
    }
    Ok(lacking)
}
