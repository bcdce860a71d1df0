//! Standard error, where the end of a command is printed.

use clap::ArgMatches;
use cli_faults::CommandFiles;
use cli_open::ending::Teller;
use std::fmt;

/// Standard error, for a command with these arguments. The command's files are known if sentences are on.
#[derive(Drop)]
pub struct StandardError<'a, 'b> {
    pub rt: &'a HostRuntime,
    pub matches: &'a ArgMatches<'b>,
    pub named: &'a Option<CommandFiles<'b>>,
}

impl StandardError<'_, '_> {
    /// Prints a line; if that fails too, only the status remains.
    pub fn line<D: fmt::Display>(&self, line: &D) {
        let _ = eprintln!(self.rt; "{line}");
    }
}

/// A fault, or something that was left out, as it is printed.
pub trait Said {
    ghost use Rattle.std.specs.Prelude.{◌≡◌, ℕ};

    /// Its exit status.
    ghost status: { Self → ℕ };

    /// Prints it, and returns its exit status.
    fn say(&self, to: &StandardError<'_, '_>) -> u8
        ensures { result ≡ status self.now };

    /// That is not the status of success.
    ghost is_no_success: { (said : Self) → ¬ (status said ≡ 0) };
}

/// What a command brought, as it is printed at the end.
pub trait SaidLast {
    fn say_last(&self, to: &StandardError<'_, '_>);
}

// The end of a command: `report` of `cli_open` decides what is printed, and in which order.
impl<F: Said, L: Said, B: SaidLast> Teller<F, L, B> for StandardError<'_, '_> {
    ghost fault_status = { F.status };

    ghost left_status = { L.status };

    ghost tells_fault = { λ old. λ fault. λ new. Unit {0} };

    ghost tells_left = { λ old. λ left. λ new. Unit {0} };

    ghost tells_brought = { λ old. λ brought. λ new. Unit {0} };

    ghost tells_misuse = { λ old. λ line. λ new. Unit {0} };

    fn fault(&mut self, fault: &F) -> u8 {
        fault.say(self)
    }

    fn left(&mut self, left: &L) -> u8 {
        left.say(self)
    }

    fn brought(&mut self, brought: &B) {
        brought.say_last(self);
    }

    fn misuse(&mut self, line: &str) {
        self.line(&line);
    }

    ghost fails = { F.is_no_success };

    ghost lacks = { L.is_no_success };
}
