//! The lines of a list, one after the other.

ghost use Rattle.std.specs.Prelude.{◌≡◌, ◌++◌, ◌∷◌, [], true, map, IfOk, OnOk, IfErr};
ghost use Rattle.reg_keys.specs.Index.{IsIndex};
ghost use Rattle.reg_supersede.specs.Lines.{words};
ghost use Rattle.reg_supersede.specs.Lists.{rows_if, IsRefusal, bodies_of, RefusesFor, DoesAll};
ghost use Rattle.reg_supersede.specs.Effects.{task_of, after, ids_of, ArePairs, CanMake, AddsFor, StepsOn, AreDone, HasMore, IsLineFault, IsListFault, IsStepFault, IsNotLeft};

use crate::check::pairs_to_add;
use crate::fault::{LineFault, LineWord, RefusedLine};
use crate::lines::words_of;
use crate::list_options::{ListEffects, ListOptions};
use crate::naming::{LineEntries, entries_for};
use crate::pair::{Pair, pairs_of};
use reg_op::OpBody;
use std::alloc::{AllocError, Global};
use std::collections::BTreeSet;

// The pairs that a line adds, if it is not refused.
fn allowed(
    alloc: Global,
    options: &ListOptions<'_>,
    effects: &ListEffects,
    line: &[u8],
) -> Result<Vec<Pair>, LineFault>
    requires index { IsIndex options.now.index.now (rows_if options.now.keys options.now.register.now) }
    requires made { CanMake (task_of options.now) options.now.register.now effects.now.bodies.items }
    requires pairs { ArePairs effects.now.pairs effects.now.bodies.items }
    ensures adds { IfOk result (λ ps. AddsFor (task_of options.now) options.now.register.now effects.now.bodies.items (words line.now) ps.items) }
    ensures fault { IfErr result (IsLineFault (task_of options.now) (after (task_of options.now) options.now.register.now effects.now.bodies.items) line.now) }
{
    let Ok(words) = words_of(alloc, line) else {
        return Err(LineFault::Memory);
    };
    match allowed_for(alloc, options, effects, &words) {
        Ok(pairs) => Ok(pairs),
        Err(fault) => Err(fault),
    }
}

// The pairs that a line of these words adds.
fn allowed_for(
    alloc: Global,
    options: &ListOptions<'_>,
    effects: &ListEffects,
    words: &[&[u8]],
) -> Result<Vec<Pair>, LineFault>
    requires index { IsIndex options.now.index.now (rows_if options.now.keys options.now.register.now) }
    requires made { CanMake (task_of options.now) options.now.register.now effects.now.bodies.items }
    requires pairs { ArePairs effects.now.pairs effects.now.bodies.items }
    ensures adds { IfOk result (λ ps. AddsFor (task_of options.now) options.now.register.now effects.now.bodies.items (map (λ w. w.now) words.now) ps.items) }
    ensures fault { IfErr result (λ f. IsRefusal f → RefusesFor (task_of options.now) (after (task_of options.now) options.now.register.now effects.now.bodies.items) (map (λ w. w.now) words.now) f) }
{
    let Some((first, others)) = words.split_first() else {
        return Ok(Vec::new(alloc));
    };
    let LineEntries { olds, newer } = match entries_for(
        alloc,
        options.index,
        options.keys,
        *first,
        others,
    ) {
        Ok(entries) => entries,
        Err(fault) => return Err(fault),
    };
    if others.is_empty() {
        return Err(LineFault::BadId(LineWord::Old));
    }
    let Ok(pairs) = pairs_of(alloc, &olds, &newer) else {
        return Err(LineFault::Memory);
    };
    match pairs_to_add(alloc, options, effects, &pairs) {
        Ok(added) => Ok(added),
        Err(fault) => Err(fault),
    }
}

// Appends the effects of a line.
fn push_line(effects: &mut ListEffects, pairs: &[Pair]) -> Result<(), AllocError>
    requires { ArePairs effects.old.pairs effects.old.bodies.items }
    ensures bodies { OnOk result (effects.new.bodies.items ≡ effects.old.bodies.items ++ bodies_of pairs.now) }
    ensures pairs { OnOk result (ArePairs effects.new.pairs effects.new.bodies.items) }
{
    for pair in pairs {
        let Pair { old, newer } = *pair;
        effects.bodies.push(OpBody::Supersede { old, newer })?;
        effects.pairs.insert(Pair { old, newer })?;
    }
    Ok(())
}

// Appends the effects of a line, and puts it among the lines that are done.
fn push_done<'a>(
    effects: &mut ListEffects,
    done: &mut BTreeSet<&'a [u8]>,
    pairs: &[Pair],
    line: &'a [u8],
) -> Result<(), AllocError>
    requires { ArePairs effects.old.pairs effects.old.bodies.items }
    ensures bodies { OnOk result (effects.new.bodies.items ≡ effects.old.bodies.items ++ bodies_of pairs.now) }
    ensures pairs { OnOk result (ArePairs effects.new.pairs effects.new.bodies.items) }
    ensures done { OnOk result (HasMore line.now done.old done.new) }
{
    push_line(effects, pairs)?;
    done.insert(line)?;
    Ok(())
}

// One line, with this number. If it was done before, nothing of it is left to do. If it is refused and left out, it is listed.
fn step<'a>(
    alloc: Global,
    options: &ListOptions<'_>,
    effects: &mut ListEffects,
    done: &mut BTreeSet<&'a [u8]>,
    left: &mut Vec<RefusedLine>,
    number: usize,
    line: &'a [u8],
) -> Result<(), RefusedLine>
    requires index { IsIndex options.now.index.now (rows_if options.now.keys options.now.register.now) }
    requires made { CanMake (task_of options.now) options.now.register.now effects.old.bodies.items }
    requires pairs { ArePairs effects.old.pairs effects.old.bodies.items }
    requires done { AreDone (task_of options.now) options.now.register.now effects.old.bodies.items done.old }
    ensures ok { OnOk result (StepsOn (task_of options.now) options.now.register.now number line.now effects.old.bodies.items left.old.items effects.new.bodies.items left.new.items) }
    ensures made { OnOk result (CanMake (task_of options.now) options.now.register.now effects.new.bodies.items) }
    ensures pairs { OnOk result (ArePairs effects.new.pairs effects.new.bodies.items) }
    ensures done { OnOk result (AreDone (task_of options.now) options.now.register.now effects.new.bodies.items done.new) }
    ensures fault { IfErr result (IsStepFault (task_of options.now) (after (task_of options.now) options.now.register.now effects.old.bodies.items) number line.now) }
{
    let _content = options.register.seen();
    if done.contains(&line) {
        return Ok(());
    }
    match allowed(alloc, options, effects, line) {
        Ok(pairs) => match push_done(effects, done, &pairs, line) {
            Ok(()) => Ok(()),
            Err(_) => Err(RefusedLine {
                line: number,
                fault: LineFault::Memory,
            }),
        },
        Err(fault) => {
            let refused = RefusedLine {
                line: number,
                fault,
            };
            match leave_out(options.keep_going, left, refused) {
                Ok(()) => Ok(()),
                Err(fault) => Err(fault),
            }
        }
    }
}

/// Lists a refused line, if refused lines are left out.
pub fn leave_out(
    keep_going: bool,
    left: &mut Vec<RefusedLine>,
    refused: RefusedLine,
) -> Result<(), RefusedLine>
    ensures ok { OnOk result ((keep_going ≡ true) × IsRefusal refused.fault × (left.new.items ≡ left.old.items ++ refused ∷ [])) }
    ensures fault { IfErr result (IsNotLeft keep_going refused) }
{
    let RefusedLine { line, fault } = refused;
    if fault.is_memory() {
        return Err(refused);
    }
    if !keep_going {
        return Err(refused);
    }
    match left.push(refused) {
        Ok(()) => Ok(()),
        Err(_) => Err(RefusedLine {
            line,
            fault: LineFault::Memory,
        }),
    }
}

/// The effects of the lines, and the refused lines that are left out.
#[derive(Drop)]
pub struct Listed {
    pub bodies: Vec<OpBody>,
    pub left: Vec<RefusedLine>,
}

/// One line after the other.
pub fn all_lines(
    alloc: Global,
    options: &ListOptions<'_>,
    lines: &[&[u8]],
) -> Result<Listed, RefusedLine>
    requires { IsIndex options.now.index.now (rows_if options.now.keys options.now.register.now) }
    ensures done { IfOk result (λ l. DoesAll (task_of options.now) 1 options.now.register.now (map (λ w. w.now) lines.now)
        (after (task_of options.now) options.now.register.now l.bodies.items) (ids_of (task_of options.now) options.now.register.now l.bodies.items) l.left.items) }
    ensures made { IfOk result (λ l. CanMake (task_of options.now) options.now.register.now l.bodies.items) }
    ensures fault { IfErr result (IsListFault (task_of options.now) options.now.register.now (map (λ w. w.now) lines.now)) }
{
    let _content = options.register.seen();
    let mut effects = ListEffects {
        bodies: Vec::new(alloc),
        pairs: BTreeSet::new(alloc),
    };
    let mut done = BTreeSet::new(alloc);
    let mut left = Vec::new(alloc);
    for (at, line) in lines.iter().enumerate() {
        step(
            alloc,
            options,
            &mut effects,
            &mut done,
            &mut left,
            at + 1,
            *line,
        )?;
    }
    let ListEffects { bodies, pairs: _ } = effects;
    Ok(Listed { bodies, left })
}
