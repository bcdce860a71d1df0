//! What standard error reports of faults, of what was left out, and of what was brought.
use crate::telling::{Said, SaidLast, StandardError};
use cli_change::{ListFault, ToldLine};
use cli_exchange::{Gained, say_gained};
use cli_faults::{CommandFiles, SecondLook, add, explain, explain_word, say};
use cli_import::{Brought, NotImported, say_brought};
use cli_look::handing::LeftKey;
use cli_look::say_hidden;
use cli_sentences::{KeyTaken, LEAVES_OUT, Shown, TAKE_JOINS};
use reg_desk::{Comparison, Explained, ImportFault, Unimported};
use reg_engine::{CliFault, Refusal};
use reg_op::OpId;
use reg_take::LeftOut;

/// The exit status for a refusal.
const REFUSED: u8 = 1;

const NAME_TOO_LONG: &str = "NameTooLong";

const IS_LONG: &str = "the name of its file would have more than 255 bytes";

impl Said for CliFault {
    ghost use Rattle.reg_engine.specs.Fault.{status_of};
    ghost use Rattle.reg_cli.specs.Statuses.{fault_is_no_success};

    ghost status = { λ f. status_of f };

    ghost is_no_success = { λ f. fault_is_no_success f };

    fn say(&self, to: &StandardError<'_, '_>) -> u8 {
        to.line(self);
        explain(to.rt, *self, to.named);
        CliFault::status(self)
    }
}

impl Said for Explained {
    ghost use Rattle.reg_engine.specs.Fault.{status_of};
    ghost use Rattle.reg_cli.specs.Statuses.{fault_is_no_success};

    ghost status = { λ e. status_of e.fault };

    ghost is_no_success = { λ e. fault_is_no_success e.fault };

    fn say(&self, to: &StandardError<'_, '_>) -> u8 {
        to.line(&self.fault);
        if self.note.is_empty() {
            explain(to.rt, self.fault, to.named);
        } else {
            add(to.rt, &self.note, to.named);
        }
        self.fault.status()
    }
}

impl Said for Unimported {
    ghost use Rattle.reg_desk.specs.Import.{exit_status};
    ghost use Rattle.reg_cli.specs.Statuses.{import_is_no_success};

    ghost status = { λ u. exit_status u.fault };

    ghost is_no_success = { λ u. import_is_no_success u.fault };

    fn say(&self, to: &StandardError<'_, '_>) -> u8 {
        to.line(&self.fault);
        explain_import(to, self.fault);
        add(to.rt, &self.notes, to.named);
        self.fault.status()
    }
}

impl Said for NotImported {
    ghost use Rattle.reg_desk.specs.Import.{exit_status};
    ghost use Rattle.reg_cli.specs.Statuses.{import_is_no_success};

    ghost status = { λ n. exit_status n.why.fault };

    ghost is_no_success = { λ n. import_is_no_success n.why.fault };

    // A refused text is printed before what the others brought, another fault after it.
    fn say(&self, to: &StandardError<'_, '_>) -> u8 {
        if is_refused(&self.why.fault) {
            let status = self.why.say(to);
            advise(to, self.is_own);
            say_brought(to.rt, &self.brought);
            return status;
        }
        say_brought(to.rt, &self.brought);
        self.why.say(to)
    }
}

impl Said for ListFault {
    ghost use Rattle.reg_cli.specs.Statuses.{list_status, list_is_no_success};

    ghost status = { λ f. list_status f };

    ghost is_no_success = { λ f. list_is_no_success f };

    fn say(&self, to: &StandardError<'_, '_>) -> u8 {
        match self {
            ListFault::Plain(fault) => fault.say(to),
            ListFault::AtLine(line) => {
                let _ = eprint!(to.rt; "refused: ");
                say_line(to, line);
                REFUSED
            }
        }
    }
}

// A line that was left out.
impl Said for ToldLine {
    ghost use Rattle.reg_cli.specs.Statuses.{refused, refused_is_no_success};

    ghost status = { λ line. refused };

    ghost is_no_success = { λ line. refused_is_no_success };

    fn say(&self, to: &StandardError<'_, '_>) -> u8 {
        let _ = eprint!(to.rt; "left out: ");
        say_line(to, self);
        REFUSED
    }
}

// A file that was left out.
impl Said for LeftOut {
    ghost use Rattle.reg_engine.specs.Fault.{status_of};
    ghost use Rattle.reg_take.specs.Taken.{fault_of};
    ghost use Rattle.reg_cli.specs.Statuses.{fault_is_no_success};

    ghost status = { λ l. status_of (fault_of l) };

    ghost is_no_success = { λ l. fault_is_no_success (fault_of l) };

    fn say(&self, to: &StandardError<'_, '_>) -> u8 {
        let paths = to.matches.get_strs("FILE").unwrap_or(&[]);
        let path = Shown(paths.get(self.file()).copied().unwrap_or(""));
        let _ = eprintln!(to.rt; "left out: {path}: {self}");
        let fault = self.fault();
        explain(to.rt, fault, to.named);
        fault.status()
    }
}

// A key that was left out.
impl Said for LeftKey {
    ghost use Rattle.reg_cli.specs.Statuses.{refused, refused_is_no_success};

    ghost status = { λ key. refused };

    ghost is_no_success = { λ key. refused_is_no_success };

    fn say(&self, to: &StandardError<'_, '_>) -> u8 {
        match self {
            LeftKey::TooLong(id) => say_long(to, *id),
            LeftKey::Taken(id) => {
                let _ = CliFault::Refused(Refusal::KeyTaken(*id)).say(to);
            }
        }
        REFUSED
    }
}

impl SaidLast for () {
    fn say_last(&self, _to: &StandardError<'_, '_>) {}
}

impl SaidLast for Option<Gained> {
    fn say_last(&self, to: &StandardError<'_, '_>) {
        if let Some(gained) = self {
            say_gained(to.rt, gained, to.named);
        }
    }
}

impl SaidLast for Comparison {
    fn say_last(&self, to: &StandardError<'_, '_>) {
        say_hidden(to.rt, self, to.named);
    }
}

impl SaidLast for Brought {
    fn say_last(&self, to: &StandardError<'_, '_>) {
        say_brought(to.rt, self);
    }
}

// A line of a list, with its sentence.
fn say_line(to: &StandardError<'_, '_>, told: &ToldLine) {
    to.line(&told.line);
    explain_word(to.rt, told.line.cause(), told.word.as_str(), to.named);
}

// The entry whose file would have a name that is too long.
fn say_long(to: &StandardError<'_, '_>, id: OpId) {
    let _ = eprintln!(to.rt; "left out: {NAME_TOO_LONG} {id}");
    if to.named.is_some() {
        to.line(&IS_LONG);
    }
}

fn is_refused(fault: &ImportFault) -> bool {
    match fault {
        ImportFault::Refused { .. } => true,
        ImportFault::Cli(_) => false,
    }
}

// Says how an import passes over a text, or which command takes a file of crsreg.
fn advise(to: &StandardError<'_, '_>, is_own: bool) {
    let Some(named) = to.named else {
        return;
    };
    if is_own {
        to.line(&TAKE_JOINS);
    } else if !named.keeps_going {
        to.line(&LEAVES_OUT);
    }
}

// Prints the sentence of the fault of an import.
fn explain_import(to: &StandardError<'_, '_>, fault: ImportFault) {
    match fault {
        ImportFault::Cli(fault) => explain(to.rt, fault, to.named),
        ImportFault::Refused { file, .. } => {
            if let (Some(entry), Some(named)) = (fault.taken(), to.named) {
                explain_taken(to.rt, entry, file, named);
            }
        }
    }
}

fn explain_taken(rt: &HostRuntime, entry: OpId, file: usize, named: &CommandFiles<'_>) {
    let second = SecondLook::entry(rt, named, entry);
    let sentence = KeyTaken {
        entry,
        head: second.found().head,
        file: named.paths().file(file),
        paths: named.paths(),
    };
    say(rt, &sentence, named);
}
