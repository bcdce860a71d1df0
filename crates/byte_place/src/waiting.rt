//! Waits until no other command has the new file.
//!
//! A lock of the system that waits has no limit, and the lock of a file that was renamed says nothing about the name. So a command
//! sleeps, and makes its new file as soon as the name is free.

ghost use Rattle.std.specs.Prelude.{◌≡◌};

use crate::call_place::CallPlace;
use crate::progress::ReserveFault;
use crate::systems::SystemSource;
use byte_system::System;
use std::rt::Clock;
use std::thread::sleep;
use std::time::Duration;

/// How many milliseconds a command sleeps before it looks again.
const PAUSE: u64 = 10;

/// An attempt that takes this many milliseconds has watched an empty lock file.
const WATCH: u64 = 900;

/// Makes the new file. While another command has it, this one waits, at most this long. Where it had waited for one that was stopped before
/// it could say who it was, and another command took that over, it waits once more.
pub(crate) fn reserve_in<R: Clock, S: System + Drop, M: SystemSource<S>>(
    rt: &R,
    source: &M,
    call: &mut CallPlace<S>,
    wait: Duration,
) -> Result<(), ReserveFault>
    ensures out { call.new.out ≡ call.old.out }
    ensures beside { call.new.beside ≡ call.old.beside }
{
    match reserve_within(rt, source, call, wait) {
        Err(ReserveFault::Exists) => {}
        Err(fault) => return Err(fault),
        Ok(()) => return Ok(()),
    }
    let last = rt.monotonic().ok();
    match reserve_now(source, call) {
        Err(ReserveFault::Exists) => {}
        Err(fault) => return Err(fault),
        Ok(()) => return Ok(()),
    }
    if is_within(rt, last, Duration::from_millis(WATCH)) {
        return Err(ReserveFault::Exists);
    }
    match source.system() {
        Ok(system) => call.restart(system),
        Err(_) => return Err(ReserveFault::NotOpened),
    }
    reserve_within(rt, source, call, wait)
}

// Tries to make the new file, at most this long. Each attempt is that of a process of its own, so that no lock of a former one is left.
fn reserve_within<R: Clock, S: System + Drop, M: SystemSource<S>>(
    rt: &R,
    source: &M,
    call: &mut CallPlace<S>,
    wait: Duration,
) -> Result<(), ReserveFault>
    ensures out { call.new.out ≡ call.old.out }
    ensures beside { call.new.beside ≡ call.old.beside }
{
    let start = rt.monotonic().ok();
    for _ in 0..u64::MAX {
        match call.reserve() {
            Ok(()) => return Ok(()),
            Err(ReserveFault::Exists) => {}
            Err(fault) => return Err(fault),
        }
        if !is_within(rt, start, wait) {
            return Err(ReserveFault::Exists);
        }
        sleep(rt, Duration::from_millis(PAUSE));
        match source.system() {
            Ok(system) => call.restart(system),
            Err(_) => return Err(ReserveFault::NotOpened),
        }
    }
    Err(ReserveFault::Exists)
}

/// Makes the new file, without waiting for another command. One that a stopped process left is told from one of a process that has
/// just begun.
pub(crate) fn reserve_now<S: System + Drop, M: SystemSource<S>>(
    source: &M,
    call: &mut CallPlace<S>,
) -> Result<(), ReserveFault>
    ensures out { call.new.out ≡ call.old.out }
    ensures beside { call.new.beside ≡ call.old.beside }
{
    match call.reserve() {
        Err(ReserveFault::Exists) => {}
        Err(fault) => return Err(fault),
        Ok(()) => return Ok(()),
    }
    match source.after_waiting() {
        Ok(system) => call.restart(system),
        Err(_) => return Err(ReserveFault::NotOpened),
    }
    call.reserve()
}

// Whether less time than this has passed since the start. A clock that fails ends the wait.
fn is_within<R: Clock>(rt: &R, start: Option<Duration>, wait: Duration) -> bool {
    match (start, rt.monotonic()) {
        (Some(start), Ok(now)) => now.saturating_sub(start) < wait,
        _ => false,
    }
}
