//! The laws of places. The functions do nothing: their contracts are the laws.

ghost use Rattle.std.specs.Prelude.{◌≡◌, ℕ, List};
ghost use Rattle.byte_system.specs.System.{calls};
ghost use Rattle.byte_protocol.specs.Protocol.{Job, Move, IsPath, AreIdle, calls_of, end, finished};
ghost use Rattle.byte_place.specs.Course.{HasReadUnless, IsJobOf, read_of};
ghost use Rattle.byte_place.specs.declared.progress.At.TheVariants as at;

use crate::call_place::CallPlace;
use crate::out_place::OutPlace;
use byte_system::{HostSystem, System};

/// Whatever was done with a place, its calls are a path of the protocol. Those that are no moves change no file. If each caller of
/// `put` gave what it had read, no file was put in place without a comparison.
pub fn its_calls_are_a_path<S: System + Drop>(_place: &CallPlace<S>)
    ensures { (j : Job) (k : ℕ) → IsJobOf j k (read_of _place.now.unread _place.now.found.bytes) _place.now.out.items _place.now.beside.items _place.now.taken.bytes →
        ∥ ((ms : List Move) × IsPath ms × AreIdle ms × (calls (S.state _place.now.system) ≡ calls_of j k ms) × HasReadUnless _place.now.unread ms) ∥₁ }
{}

/// The calls of a place that has put its file lead to where a process has replaced exactly what it had read; or, if a caller of `put`
/// had not read it, put its file there.
pub fn what_is_put_replaced<S: System + Drop>(_place: &CallPlace<S>)
    ensures { let x = read_of _place.now.unread _place.now.found.bytes in
        _place.now.at ≡ at.Put → (j : Job) (k : ℕ) → IsJobOf j k x _place.now.out.items _place.now.beside.items _place.now.taken.bytes →
        ∥ ((ms : List Move) × IsPath ms × AreIdle ms × (calls (S.state _place.now.system) ≡ calls_of j k ms) × (end ms ≡ finished x)) ∥₁ }
{}

/// Whatever was done with the place of OUT, the calls of its new file are such a path.
pub fn calls_on_out_are_steps<'a>(place: &OutPlace<'a>)
    ensures { let p = place.now.place.beside in (j : Job) (k : ℕ) → IsJobOf j k (read_of p.unread p.found.bytes) p.out.items p.beside.items p.taken.bytes →
        ∥ ((ms : List Move) × IsPath ms × AreIdle ms × (calls (⟦<HostSystem<'a> as System>⟧.state p.system) ≡ calls_of j k ms) × HasReadUnless p.unread ms) ∥₁ }
{
    its_calls_are_a_path(&place.place.beside);
}
