//! The command `import`.

ghost use Rattle.cli_open.specs.Targets.{Admits, IsTriedBy};
ghost use Rattle.cli_import.specs.Imports.{IsImportOutcome};

use crate::brought::Brought;
use crate::texts::{late_texts, refuses_own, with_openings};
use crate::tried::Tried;
use byte_disk::FileDisk;
use byte_io::{Reading, Source, Writing};
use byte_out::{InputOf, Place};
use clap::ArgMatches;
use cli_change::{Desk, TWICE, office_named, open_desk};
use cli_open::ending::{NotDone, Outcome, all_done};
use cli_open::{
    RegisterTarget, Rows, answered, explains, files_before, is_twice, open_target, word,
};
use reg_desk::{HasRoom, ImportOptions, Unimported, run_import, try_import};
use reg_engine::{CliFault, Either, Keep, OfFile, OnShelf};
use reg_guard::{TriedFile, TriedShelf};
use reg_import::Differs;
use reg_journal::OfficeFile;
use reg_news::watch::{Notes, Watched};
use std::alloc::{AllocError, Global};
use std::fs::{File, OpenFile};
use std::io::{self, Read, Seek, Write};

/// Why texts were not imported, or not all of them, and what the others brought, if sentences are on.
#[derive(Drop)]
pub struct NotImported {
    pub why: Unimported,
    pub brought: Brought,
    /// Whether the refused text is a file of crsreg, which no option takes for a text.
    pub is_own: bool,
}

/// How an import ended, and what it brought, if sentences are on.
pub type ImportOutcome = Outcome<NotImported, NotImported, Brought>;

// The outcome of an import that did not begin.
fn unbegun(alloc: Global, fault: CliFault) -> ImportOutcome {
    Err(NotDone::Fault(NotImported {
        why: Unimported::plain(alloc, fault),
        brought: Brought::nothing(alloc),
        is_own: false,
    }))
}

/// `import`.
pub fn import(rt: &HostRuntime, matches: &ArgMatches<'_>) -> ImportOutcome {
    let paths = matches.get_strs("FILE").unwrap_or(&[]);
    if is_twice(paths) {
        return Err(NotDone::Misuse(TWICE));
    }
    let named = match office_named(matches) {
        Ok(named) => named,
        Err(fault) => return unbegun(rt.alloc(), fault),
    };
    let Ok(names) = names_of(rt.alloc(), paths) else {
        return unbegun(rt.alloc(), CliFault::Memory);
    };
    let mut desk = match open_desk(rt, rt.alloc(), named, word(matches, "office")) {
        Ok(desk) => desk,
        Err(fault) => return unbegun(rt.alloc(), fault),
    };
    let mut brought = Brought::nothing(rt.alloc());
    let mut is_own = false;
    let answer = import_at(
        rt,
        matches,
        &mut desk,
        paths,
        &names,
        &mut brought,
        &mut is_own,
    );
    desk.close();
    outcome_of(rt.alloc(), answer, brought, is_own)
}

// The outcome of an import that brought this. If a text was refused, it was a file of crsreg or not.
fn outcome_of(
    alloc: Global,
    answer: Result<(), Unimported>,
    brought: Brought,
    is_own: bool,
) -> ImportOutcome
    ensures { IsImportOutcome answer brought is_own result }
{
    match answer {
        Ok(()) => Ok(all_done(alloc, brought)),
        Err(why) => Err(NotDone::Fault(NotImported {
            why,
            brought,
            is_own,
        })),
    }
}

fn names_of(alloc: Global, paths: &[&str]) -> Result<Vec<String>, AllocError> {
    let mut names = Vec::new(alloc);
    for path in paths {
        names.push(String::from_str(alloc, path)?)?;
    }
    Ok(names)
}

// Opens the register, imports the files, and prints the rows. Notes whether the first refused text is a file of crsreg.
fn import_at<Q: Place>(
    rt: &HostRuntime,
    matches: &ArgMatches<'_>,
    desk: &mut Desk<Q>,
    paths: &[&str],
    names: &[String],
    brought: &mut Brought,
    is_own: &mut bool,
) -> Result<(), Unimported> {
    let target = match open_target(rt, matches, out_of(matches)) {
        Ok(target) => target,
        Err(fault) => return Err(Unimported::plain(rt.alloc(), fault)),
    };
    let Ok(mut files) = late_texts(rt, rt.alloc(), paths) else {
        return Err(Unimported::plain(rt.alloc(), CliFault::Memory));
    };
    let first = target.next().saturating_add(files_before(matches));
    let answer = import_from(rt, matches, desk, target, &mut files, names, brought);
    *is_own = refuses_own(&answer, &files, first);
    with_openings(rt.alloc(), answer, &files, first)
}

// The path of OUT. A dry run has none.
fn out_of<'a>(matches: &ArgMatches<'a>) -> &'a str {
    if matches.get_flag("dry-run") {
        return "";
    }
    word(matches, "out")
}

// The action for a text whose key has another text. clap rejects other words.
fn differs(word: &str) -> Differs {
    match word {
        "beside" => Differs::Beside,
        "revise" => Differs::Revise,
        _ => Differs::Refuse,
    }
}

// Imports the files into the register, and prints the rows.
fn import_from<Q: Place, P: Place + Drop, S: Source>(
    rt: &HostRuntime,
    matches: &ArgMatches<'_>,
    desk: &mut Desk<Q>,
    target: RegisterTarget<File, P>,
    files: &mut [S],
    names: &[String],
    brought: &mut Brought,
) -> Result<(), Unimported> {
    let order = ImportOptions {
        replica: desk.replica,
        differs: differs(word(matches, "differs")),
        keep_going: matches.get_flag("keep-going"),
        explain: explains(matches),
        changes: matches.get_flag("changes"),
        gone: matches.get_str("gone"),
        note: word(matches, "note"),
        names,
    };
    let mut sink = Rows::sink(rt, matches, io::writer(rt));
    let answer = if matches.get_flag("dry-run") {
        import_tried(
            rt,
            matches,
            desk.made(),
            target,
            files,
            &order,
            &mut sink,
            brought,
        )
    } else {
        import_to(rt, matches, desk, target, files, &order, &mut sink, brought)
    };
    match answered(rt.alloc(), sink, answer) {
        Ok(answer) => answer,
        Err(fault) => Err(Unimported::plain(rt.alloc(), fault)),
    }
}

// Whether rows are printed about the entries that are entered: if sentences are on.
fn lints(matches: &ArgMatches<'_>, order: &ImportOptions<'_>) -> bool {
    order.explain && matches.get_flag("lint")
}

// Imports the files, and prints the rows to the sink. If texts are explained, what it brings is noted.
fn import_to<Q: Place, P: Place + Drop, S: Source, W: Write>(
    rt: &HostRuntime,
    matches: &ArgMatches<'_>,
    desk: &mut Desk<Q>,
    target: RegisterTarget<File, P>,
    files: &mut [S],
    order: &ImportOptions<'_>,
    sink: &mut Writing<W>,
    brought: &mut Brought,
) -> Result<(), Unimported> {
    let mut target = target;
    let mut store = target.store(&mut desk.file);
    let answer = if order.explain {
        import_and_note(rt, matches, &mut store, files, order, sink, brought)
    } else {
        run_import(rt.alloc(), &mut store, files, order, sink)
    };
    drop(store);
    drop(target);
    answer
}

fn import_and_note<T: Keep, S: Source, W: Write>(
    rt: &HostRuntime,
    matches: &ArgMatches<'_>,
    store: &mut T,
    files: &mut [S],
    order: &ImportOptions<'_>,
    sink: &mut Writing<W>,
    brought: &mut Brought,
) -> Result<(), Unimported> {
    let mut notes = Notes::none();
    let answer = {
        let mut watched = Watched {
            store,
            notes: &mut notes,
        };
        run_import(rt.alloc(), &mut watched, files, order, sink)
    };
    note_all(rt, matches, order, &notes, brought);
    answer
}

// Notes what was brought, and with `--lint` what an expert would ask about it.
fn note_all(
    rt: &HostRuntime,
    matches: &ArgMatches<'_>,
    order: &ImportOptions<'_>,
    notes: &Notes,
    brought: &mut Brought,
) {
    if let Ok(told) = notes.news(rt.alloc()) {
        brought.news = told;
    }
    if lints(matches, order) {
        brought.ask(rt, matches, &notes.loaded, &notes.kept);
    }
}

// `import --dry-run`, which opens no OUT. If texts are explained, what it would bring is noted.
fn import_tried<F: Read + Write + Seek + OpenFile + Drop, P: Place + Drop, S: Source, W: Write>(
    rt: &HostRuntime,
    matches: &ArgMatches<'_>,
    office: Option<&OfficeFile>,
    target: RegisterTarget<F, P>,
    files: &mut [S],
    order: &ImportOptions<'_>,
    sink: &mut Writing<W>,
    brought: &mut Brought,
) -> Result<(), Unimported> {
    let mut target = target;
    let mut store = tried(&mut target, office);
    let answer = if order.explain {
        try_and_note(rt, matches, &mut store, files, order, sink, brought)
    } else {
        try_import(rt.alloc(), &mut store, files, order, sink)
    };
    drop(store);
    drop(target);
    answer
}

fn try_and_note<T: HasRoom, S: Source, W: Write>(
    rt: &HostRuntime,
    matches: &ArgMatches<'_>,
    store: &mut T,
    files: &mut [S],
    order: &ImportOptions<'_>,
    sink: &mut Writing<W>,
    brought: &mut Brought,
) -> Result<(), Unimported> {
    let mut tried = Tried {
        store,
        loaded: None,
        fitting: None,
    };
    let answer = try_import(rt.alloc(), &mut tried, files, order, sink);
    let Tried {
        store: _,
        loaded,
        fitting,
    } = tried;
    let notes = Notes {
        loaded,
        kept: fitting,
    };
    note_all(rt, matches, order, &notes, brought);
    answer
}

// The store of a register that a dry run reads, without an office file.
type ReadRegister<'a, F> = Either<OfFile<'a, InputOf<Reading<F>>>, OnShelf<'a, FileDisk<F>>>;

// The same with an office file.
type AdmittedRegister<'a, F> = Either<
    TriedFile<'a, InputOf<Reading<F>>>,
    TriedShelf<'a, FileDisk<F>>,
>;

fn tried<'a, F, P>(
    target: &'a mut RegisterTarget<F, P>,
    office: Option<&'a OfficeFile>,
) -> Either<ReadRegister<'a, F>, AdmittedRegister<'a, F>>
    ensures { IsTriedBy office.entry result }
{
    match office {
        None => Either::One(read_only(target)),
        Some(file) => Either::Other(admitted(target, file)),
    }
}

fn read_only<'a, F, P>(target: &'a mut RegisterTarget<F, P>) -> ReadRegister<'a, F> {
    match target {
        RegisterTarget::File(source, _) => Either::One(OfFile { source }),
        RegisterTarget::Shelf(disk) => Either::Other(OnShelf { disk }),
    }
}

fn admitted<'a, F, P>(
    target: &'a mut RegisterTarget<F, P>,
    file: &'a OfficeFile,
) -> AdmittedRegister<'a, F>
    ensures { Admits file.now result }
{
    match target {
        RegisterTarget::File(source, _) => Either::One(TriedFile { source, file }),
        RegisterTarget::Shelf(disk) => Either::Other(TriedShelf { disk, file }),
    }
}
