//! Reports how a command ended.

ghost use Rattle.std.specs.Prelude.{◌≡◌, ◌↔◌, IsOk};
ghost use Rattle.cli_open.specs.Outcome.{TellsEach, TellsDone, Tells, left_out_status, whole_status, done_status, exit_status, IsAllDone, TellsAnswer, answer_status};

use crate::ending::outcome::{Done, NotDone};
use crate::ending::teller::Teller;

/// The exit status for a wrong command line.
const MISUSE: u8 = 2;

/// The exit status for a difference.
const DIFFERS: u8 = 1;

// Reports that each of these was left out.
fn tell_each<F, L, B, T: Teller<F, L, B>>(teller: &mut T, left: &[L])
    ensures { TellsEach T.tells_left left.now teller.old teller.new }
{
    for one in left {
        let _ = teller.left(one);
    }
}

// Reports what was left out, and returns the exit status of the first. None if nothing was.
fn tell_left<F, L, B, T: Teller<F, L, B>>(teller: &mut T, left: &[L]) -> Option<u8>
    ensures told { TellsEach T.tells_left left.now teller.old teller.new }
    ensures status { result ≡ left_out_status T.left_status left.now }
{
    let Some((first, others)) = left.split_first() else {
        return None;
    };
    let status = teller.left(first);
    tell_each::<F, L, B, T>(teller, others);
    Some(status)
}

// The exit status of a command that left nothing out.
fn whole_status(differs: bool) -> u8
    ensures { result ≡ whole_status differs }
{
    if differs {
        return DIFFERS;
    }
    0
}

// Reports what a command did that is done, and returns its exit status.
fn tell_done<F, L, B, T: Teller<F, L, B>>(teller: &mut T, done: &Done<L, B>) -> u8
    ensures told { TellsDone T.tells_left T.tells_brought done.now teller.old teller.new }
    ensures status { result ≡ done_status T.left_status done.now }
{
    let left = tell_left::<F, L, B, T>(teller, &done.left);
    teller.brought(&done.brought);
    match left {
        Some(status) => status,
        None => whole_status(done.differs),
    }
}

/// Reports how a command ended, and returns its exit status.
pub fn report<F: Drop, L: Drop, B: Drop, T: Teller<F, L, B>>(
    teller: &mut T,
    outcome: Result<Done<L, B>, NotDone<'_, F>>,
) -> u8
    ensures told { Tells T.tells_fault T.tells_misuse T.tells_left T.tells_brought outcome.entry teller.old teller.new }
    ensures status { result ≡ exit_status T.fault_status T.left_status outcome.entry }
    ensures zero { (result ≡ 0) ↔ IsAllDone outcome.entry }
{
    match &outcome {
        Ok(done) => tell_done::<F, L, B, T>(teller, done),
        Err(NotDone::Fault(fault)) => teller.fault(fault),
        Err(NotDone::Misuse(line)) => {
            teller.misuse(*line);
            MISUSE
        }
    }
}

/// The same for a command that is done or has a fault.
pub fn report_answer<F: Drop, T: Teller<F, F, ()>>(teller: &mut T, answer: Result<(), F>) -> u8
    ensures told { TellsAnswer T.tells_fault T.tells_brought answer teller.old teller.new }
    ensures status { result ≡ answer_status T.fault_status answer }
    ensures zero { (result ≡ 0) ↔ IsOk answer }
{
    match answer {
        Ok(()) => {
            teller.brought(&());
            0
        }
        Err(fault) => {
            let status = teller.fault(&fault);
            drop(fault);
            status
        }
    }
}
