//! What a join undoes, in order.

ghost use Rattle.std.specs.Prelude.{◌≡◌, ◌∷◌, ◌||◌, map, IfOk, OnOk};
ghost use Rattle.std.specs.List.{list_any};
ghost use Rattle.reg_report.specs.Conflicts.{KeyBytes};
ghost use Rattle.reg_tree.specs.Sayings.{Keys, Saying};
ghost use Rattle.reg_tree.specs.Voices.{IsVoice, AreVoices, AreUndone, saying_is, saying_seen, has_saying, content_of, is_unsaid, lost_at, lost_in, AreAllRight};

use crate::undone::saying::{SayingText, saying_of};
use crate::undone::voice::{Voice, is_unsaid, put_saying, voice_of, voices_of};
use reg_op::{Op, OpId};
use reg_state::Register;
use std::alloc::{AllocError, Global};
use std::collections::BTreeSet;

// Whether an input has seen the operation, and does not say this.
fn is_taken_back<'a>(voices: &[Voice<'a>], saying: &SayingText<'a>, id: OpId) -> bool
    ensures { result ≡ list_any (is_unsaid (saying_seen saying.now) id) voices.now }
{
    for voice in voices {
        if is_unsaid(voice, saying, id) {
            return true;
        }
    }
    false
}

// What the operation says, if the join does not, and no input has seen the operation without saying the same.
fn lost_by<'a>(
    voices: &[Voice<'a>],
    join: &Voice<'a>,
    voice: &Voice<'a>,
    op: &Op,
) -> Option<SayingText<'a>>
    requires voices { AreVoices voices.now }
    requires join { IsVoice join.now }
    requires voice { IsVoice voice.now }
    ensures { (has : Keys KeyBytes) → AreAllRight has (join.now ∷ voice.now ∷ voices.now) → (q : Saying KeyBytes) → lost_at has (map content_of voices.now) (content_of join.now) (content_of voice.now) q op.now ≡ saying_is result q }
{
    let Some(saying) = saying_of(voice.register, &voice.live, op) else {
        return None;
    };
    if join.said.contains(&saying) {
        return None;
    }
    if is_taken_back(voices, &saying, op.id()) {
        return None;
    }
    Some(saying)
}

// Puts what an input says and the join undoes into the set.
fn put_lost<'a>(
    lost: &mut BTreeSet<SayingText<'a>>,
    voices: &[Voice<'a>],
    join: &Voice<'a>,
    voice: &Voice<'a>,
) -> Result<(), AllocError>
    requires voices { AreVoices voices.now }
    requires join { IsVoice join.now }
    requires voice { IsVoice voice.now }
    ensures { OnOk result ((has : Keys KeyBytes) → AreAllRight has (join.now ∷ voice.now ∷ voices.now) → (q : Saying KeyBytes)
        → has_saying lost.new q ≡ (has_saying lost.old q || lost_in has (map content_of voices.now) (content_of join.now) q (content_of voice.now))) }
{
    let ops = voice.register.ops().as_slice();
    for op in ops {
        put_saying(lost, lost_by(voices, join, voice, op))?;
    }
    Ok(())
}

// All that the inputs say and the join undoes.
fn lost_of<'a>(
    alloc: Global,
    voices: &[Voice<'a>],
    join: &Voice<'a>,
) -> Result<BTreeSet<SayingText<'a>>, AllocError>
    requires voices { AreVoices voices.now }
    requires join { IsVoice join.now }
    ensures { IfOk result (λ lost. (has : Keys KeyBytes) → AreAllRight has (join.now ∷ voices.now) → (q : Saying KeyBytes)
        → has_saying lost q ≡ list_any (lost_in has (map content_of voices.now) (content_of join.now) q) (map content_of voices.now)) }
{
    let mut lost = BTreeSet::new(alloc);
    for voice in voices {
        put_lost(&mut lost, voices, join, voice)?;
    }
    Ok(lost)
}

fn in_order<'a>(
    alloc: Global,
    lost: BTreeSet<SayingText<'a>>,
) -> Result<Vec<SayingText<'a>>, AllocError>
    ensures { IfOk result (λ made. made.items ≡ lost.entry.keys) }
{
    let made: Vec<SayingText<'a>> = lost.into_iter().collect(alloc)?;
    Ok(made)
}

/// What the inputs say, their join does not say, and nobody who knew it took back: by key, each once. The time is n log n for n
/// operations, and for each that the join lost a look at each input.
pub fn undone_in<'a>(
    alloc: Global,
    inputs: &'a [Register],
    join: &'a Register,
) -> Result<Vec<SayingText<'a>>, AllocError>
    ensures { IfOk result (λ made. AreUndone inputs.now join.now (map saying_seen made.items)) }
{
    let whole = voice_of(alloc, join)?;
    let voices = voices_of(alloc, inputs)?;
    let lost = lost_of(alloc, &voices, &whole)?;
    let _count = lost.len();
    let made = in_order(alloc, lost)?;
    Ok(made)
}
