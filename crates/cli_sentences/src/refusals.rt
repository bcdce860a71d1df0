//! Sentences for refusals.
use crate::guard;
use crate::paths::{Findings, Paths, RegisterArgument, SpecialCommand};
use crate::shown::{EntryHead, Shown};
use reg_engine::Refusal;
use reg_office::OfficeFault;
use reg_op::OpId;
use std::fmt;

/// Writes the sentence for a refusal. Faults of texts have none: `--explain` explains them at their place.
pub fn write<W: fmt::Write>(
    f: &mut fmt::Formatter<W>,
    refusal: Refusal,
    found: &Findings<'_>,
    paths: &Paths<'_>,
) -> fmt::Result {
    match refusal {
        Refusal::Text(_) | Refusal::Slot(_) | Refusal::Broken { .. } => Ok(()),
        Refusal::NoIdentifier => f.write_str("the system has no ID of its own\n"),
        Refusal::CanonicalTooLong => {
            f.write_str("the canonical text has more than 65,536 bytes\n")
        }
        Refusal::Clash(id) => write_clash(f, id),
        Refusal::KeyTaken(id) => write_taken(f, id, found.head, paths),
        Refusal::Basis(id) => {
            writeln!(
                f,
                "the piece continues a register that has seen {id}, and this one has not"
            )?;
            f.write_str(
                "hint: merge a register or a piece with it first, or ask for a piece for a new summary (crsreg seen)\n",
            )
        }
        Refusal::HasNote(id) => {
            writeln!(
                f,
                "the operation {id} has a note, and files of version 1 have none"
            )
        }
        Refusal::Office(fault) => write_office(f, fault, paths),
        Refusal::Behind(id) => guard::write_behind(f, id, paths),
        Refusal::Forged(id) => guard::write_forged(f, id, paths),
        refusal => write_word(f, refusal, found, paths),
    }
}

// Writes the sentence for two operations with one id.
fn write_clash<W: fmt::Write>(f: &mut fmt::Formatter<W>, id: OpId) -> fmt::Result {
    let (office, count) = (id.replica(), id.count());
    writeln!(
        f,
        "two files have different operations under {id}: somebody gave the number {count} of the office {office} twice, as from an older file or a copy, or forged it"
    )?;
    f.write_str(
        "hint: see both with crsreg ops FILE, and agree on the file that stays; whoever has the other one starts again from a copy of it, with a new office, and enters again what only the other one has\n",
    )
}

// Writes the sentence for a key that two different texts have.
fn write_taken<W: fmt::Write>(
    f: &mut fmt::Formatter<W>,
    id: OpId,
    head: Option<&str>,
    paths: &Paths<'_>,
) -> fmt::Result {
    match head {
        Some(head) => {
            let head = EntryHead(head);
            writeln!(
                f,
                "the key of this entry has another entry with a different text: {head}"
            )?;
        }
        None => writeln!(f, "the key of {id} has another entry with a different text")?,
    }
    let register = RegisterArgument::of(paths);
    writeln!(
        f,
        "hint: crsreg compare {register} KEY shows what differs; crsreg settle {register} ID keeps one entry of a key"
    )?;
    match paths.command {
        SpecialCommand::Export if !paths.keeps_going => {
            f.write_str("hint: --keep-going leaves out such keys\n")
        }
        _ => Ok(()),
    }
}

// Writes the sentence for a refusal of an office.
fn write_office<W: fmt::Write>(
    f: &mut fmt::Formatter<W>,
    fault: OfficeFault,
    paths: &Paths<'_>,
) -> fmt::Result {
    match fault {
        OfficeFault::NoteTooLong => f.write_str("the note has more than 200 bytes\n"),
        OfficeFault::UnknownEntry(id) => {
            let register = Shown(paths.register);
            writeln!(
                f,
                "{register} has no entry {id}\nhint: crsreg find prints entries with their ids"
            )
        }
        OfficeFault::SameEntry => f.write_str("an entry cannot supersede itself\n"),
        OfficeFault::AlreadyRetired(id) => {
            writeln!(f, "the entry {id} is retired already, or is named twice")?;
            guard::write_again(f, paths)
        }
        OfficeFault::AlreadySuperseded(id) => {
            writeln!(
                f,
                "the entry is superseded by {id} already, or that is named twice"
            )?;
            guard::write_again(f, paths)
        }
        OfficeFault::CountSpent => f.write_str(
            "the office has given the number 4,294,967,295, the last one\nhint: go on with a new UUID\n",
        ),
        OfficeFault::Memory => f.write_str("there is not enough memory\n"),
    }
}

// A word of the command line, or what it looks for.
fn write_word<W: fmt::Write>(
    f: &mut fmt::Formatter<W>,
    refusal: Refusal,
    found: &Findings<'_>,
    paths: &Paths<'_>,
) -> fmt::Result {
    match refusal {
        Refusal::BadId => write_bad_id(f, found.word, paths.command),
        Refusal::BadReplica => f.write_str(
            "--as (or CRSREG_AS) is not a UUID\nhint: uuidgen makes one, once for each office; crsreg office makes an office file with one\n",
        ),
        Refusal::BadSize => f.write_str("a shelf has from 14 to 67,108,864 bytes\n"),
        Refusal::NoEntry => write_no_entry(f, found, paths),
        Refusal::Several(id) => write_several(f, id, found, paths),
        Refusal::Unsettled => f.write_str(
            "a register has a conflict, an awaited id, a gap, a key with equal texts or a superseded entry without a valid heir\nhint: crsreg report lists them; crsreg settle ends a conflict, and settle --equal equal texts\n",
        ),
        _ => Ok(()),
    }
}

// A word with several texts.
fn write_several<W: fmt::Write>(
    f: &mut fmt::Formatter<W>,
    id: OpId,
    found: &Findings<'_>,
    paths: &Paths<'_>,
) -> fmt::Result {
    if found.has_namesake {
        return write_namesakes(f, id, found.word, paths);
    }
    match found.word {
        "" => writeln!(f, "this key has several texts, that of {id} among them")?,
        word => {
            let word = Shown(word);
            writeln!(f, "{word} has several texts, that of {id} among them")?;
        }
    }
    let register = RegisterArgument::of(paths);
    writeln!(
        f,
        "hint: crsreg compare {register} KEY shows what differs; crsreg settle keeps one of them, settle --equal one of each text"
    )
}

// The same of a word that is several keys: `settle` looks at each by itself.
fn write_namesakes<W: fmt::Write>(
    f: &mut fmt::Formatter<W>,
    id: OpId,
    word: &str,
    paths: &Paths<'_>,
) -> fmt::Result {
    match word {
        "" => f.write_str("this word")?,
        word => {
            let word = Shown(word);
            write!(f, "{word}")?;
        }
    }
    writeln!(
        f,
        " is several keys, that of {id} among them: they differ in letter case, or in the colon behind the authority"
    )?;
    let register = RegisterArgument::of(paths);
    writeln!(
        f,
        "hint: name the entry by its id: crsreg find {register} KEY --status live prints the entries of these keys"
    )
}

// A word that names no entry.
fn write_no_entry<W: fmt::Write>(
    f: &mut fmt::Formatter<W>,
    found: &Findings<'_>,
    paths: &Paths<'_>,
) -> fmt::Result {
    let register = Shown(paths.register);
    if let SpecialCommand::Find = paths.command {
        return writeln!(
            f,
            "{register} has no such entry\nhint: crsreg find prints its entries"
        );
    }
    let word = Shown(found.word);
    if found.shows {
        writeln!(
            f,
            "the office has retired each entry {word} that {register} has"
        )?;
        return guard::write_again(f, paths);
    }
    match found.word {
        "" => writeln!(f, "{register} has no such entry that is not retired")?,
        _ => writeln!(f, "{register} has no entry {word} that is not retired")?,
    }
    let register = RegisterArgument::of(paths);
    writeln!(
        f,
        "hint: crsreg find prints its entries; crsreg log -k {register} KEY says what became of those of a key"
    )
}

// A word that should be an id, or a line of a list with only one word.
fn write_bad_id<W: fmt::Write>(
    f: &mut fmt::Formatter<W>,
    word: &str,
    command: SpecialCommand,
) -> fmt::Result {
    match command {
        SpecialCommand::Settle => f.write_str(
            "a word is not an id of the form UUID:NUMBER\nhint: settle takes only ids: crsreg find REG KEY --status live --ids prints those of a key\n",
        ),
        SpecialCommand::SupersedeFrom { keys } => write_bad_line(f, Shown(word), keys),
        _ => f.write_str(
            "a word is not an id of the form UUID:NUMBER\nhint: with -k, AUTHORITY:CODE names the entry of a key\n",
        ),
    }
}

fn write_bad_line<W: fmt::Write>(
    f: &mut fmt::Formatter<W>,
    word: Shown<'_>,
    keys: bool,
) -> fmt::Result {
    if keys {
        return writeln!(
            f,
            "{word} is the only word of the line\nhint: a line has an entry, and then one or more that supersede it"
        );
    }
    writeln!(
        f,
        "{word} is not an id of the form UUID:NUMBER, or it is the only word of the line\nhint: with -k, AUTHORITY:CODE names the entry of a key"
    )
}
