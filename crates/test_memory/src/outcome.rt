//! The outcome of a call.

use reg_op::OpId;
use std::process::ExitCode;

/// The outcome of a call.
#[derive(Drop)]
pub enum TestOutcome {
    Done,
    /// Out of memory; the object of the call is unchanged.
    Memory,
    /// A text is refused with this fault at this offset.
    Fault(&'static str, usize),
    /// An operation is refused: the fault and the id.
    Refused(&'static str, OpId),
    /// Another result, or the object of the call has changed.
    Wrong,
}

impl TestOutcome {
    /// The outcome of a call without an object that it could change.
    pub fn of(is_done: bool) -> TestOutcome {
        if is_done {
            TestOutcome::Done
        } else {
            TestOutcome::Memory
        }
    }

    /// The outcome of a call whose memory failed, which must not have changed its object.
    pub fn left(is_left: bool) -> TestOutcome {
        if is_left {
            TestOutcome::Memory
        } else {
            TestOutcome::Wrong
        }
    }

    /// Prints it, and returns the program's status: 0 done, 1 refused, 3 wrong, 4 out of memory.
    pub fn print(&self, rt: &HostRuntime) -> ExitCode {
        let (said, status) = match self {
            TestOutcome::Done => (println!(rt; "done"), 0),
            TestOutcome::Memory => (println!(rt; "out of memory"), 4),
            TestOutcome::Fault(name, place) => (println!(rt; "{name} at {place}"), 1),
            TestOutcome::Refused(name, id) => (println!(rt; "{name} {}", id.count()), 1),
            TestOutcome::Wrong => (println!(rt; "wrong"), 3),
        };
        match said {
            Ok(()) => ExitCode::from(status),
            Err(_) => ExitCode::from(3),
        }
    }
}
