//! All that a register says of keys.

ghost use Rattle.std.specs.Prelude.{◌≡◌, ◌||◌, true, map, IfOk, OnOk};
ghost use Rattle.reg_op.specs.Set as set;
ghost use Rattle.reg_report.specs.Conflicts.{KeyBytes};
ghost use Rattle.reg_tree.specs.Sayings.{Keys, Saying, says};
ghost use Rattle.reg_tree.specs.Voices.{AreRight, AreInUse, AreKeyed, IsVoice, AreVoices, saying_is, saying_seen, has_saying, content_of, is_unsaid, PutsLive};

use crate::undone::saying::{SayingText, saying_of};
use reg_op::{Op, OpBody, OpId};
use reg_report::{KeyText, is_retired, key_in};
use reg_state::Register;
use std::alloc::{AllocError, Global};
use std::collections::BTreeSet;

/// A register, its keys in use, and all that it says.
#[derive(Drop)]
pub struct Voice<'a> {
    pub register: &'a Register,
    pub live: BTreeSet<KeyText<'a>>,
    pub said: BTreeSet<SayingText<'a>>,
}

// Puts the key of an entry that the operation enters into the set, unless it is retired.
fn put_live<'a>(
    live: &mut BTreeSet<KeyText<'a>>,
    register: &'a Register,
    op: &'a Op,
) -> Result<(), AllocError>
    requires { set.contains register.now.ops op.now ≡ true }
    ensures { OnOk result (PutsLive register.now.ops op.now.id op.now.body live.old live.new) }
{
    let definition = match op.body() {
        OpBody::Enter(definition) => definition,
        OpBody::Supersede { old: _, newer: _ } => return Ok(()),
        OpBody::Retire { entry: _ } => return Ok(()),
    };
    let key = key_in(definition);
    if is_retired(register, op.id()) {
        return Ok(());
    }
    let _ = live.insert(key)?;
    Ok(())
}

// The keys in use.
fn live_keys<'a>(alloc: Global, register: &'a Register) -> Result<BTreeSet<KeyText<'a>>, AllocError>
    ensures live { IfOk result (AreInUse register.now.ops) }
    ensures keyed { OnOk result (AreKeyed register.now.ops) }
{
    let ops = register.ops().as_slice();
    let mut live = BTreeSet::new(alloc);
    for op in ops {
        put_live(&mut live, register, op)?;
    }
    Ok(live)
}

/// Puts the saying into the set, if there is one.
pub fn put_saying<'a>(
    set: &mut BTreeSet<SayingText<'a>>,
    saying: Option<SayingText<'a>>,
) -> Result<(), AllocError>
    ensures { OnOk result ((q : Saying KeyBytes) → has_saying set.new q ≡ (saying_is saying.entry q || has_saying set.old q)) }
{
    let Some(saying) = saying else {
        return Ok(());
    };
    let _ = set.insert(saying)?;
    Ok(())
}

fn said_by<'a>(
    alloc: Global,
    register: &'a Register,
    live: &BTreeSet<KeyText<'a>>,
) -> Result<BTreeSet<SayingText<'a>>, AllocError>
    requires { AreInUse register.now.ops live.now }
    ensures { IfOk result (λ said. (has : Keys KeyBytes) → AreRight has register.now.ops → (q : Saying KeyBytes) → has_saying said q ≡ says has register.now q) }
{
    let ops = register.ops().as_slice();
    let mut said = BTreeSet::new(alloc);
    for op in ops {
        put_saying(&mut said, saying_of(register, live, op))?;
    }
    Ok(said)
}

/// All that the register says.
pub fn voice_of<'a>(alloc: Global, register: &'a Register) -> Result<Voice<'a>, AllocError>
    ensures register { IfOk result (λ v. content_of v ≡ register.now) }
    ensures voice { IfOk result IsVoice }
{
    let live = live_keys(alloc, register)?;
    let said = said_by(alloc, register, &live)?;
    Ok(Voice {
        register,
        live,
        said,
    })
}

/// All that each of the registers says.
pub fn voices_of<'a>(alloc: Global, registers: &'a [Register]) -> Result<Vec<Voice<'a>>, AllocError>
    ensures registers { IfOk result (λ vs. map content_of vs.items ≡ registers.now) }
    ensures voices { IfOk result (λ vs. AreVoices vs.items) }
{
    let mut voices = Vec::new(alloc);
    for register in registers {
        let voice = voice_of(alloc, register)?;
        voices.push(voice)?;
    }
    Ok(voices)
}

/// Whether the register has seen the operation, and does not say this.
pub fn is_unsaid<'a>(voice: &Voice<'a>, saying: &SayingText<'a>, id: OpId) -> bool
    ensures { result ≡ is_unsaid (saying_seen saying.now) id voice.now }
{
    voice.register.seen().contains(id) && !voice.said.contains(saying)
}
