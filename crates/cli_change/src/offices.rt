//! Who changes a register: an office by its UUID, or one that works through its office file.

ghost use Rattle.std.specs.Prelude.{◌≡◌, ◌↔◌, None, Err, IfOk, IfErr, IsSome, IsOkAnd, option_map};
ghost use Rattle.reg_engine.specs.declared.fault.CliFault.TheVariants as cli;
ghost use Rattle.cli_open.specs.Offices.{office_made, IsClosed};
ghost use Rattle.cli_change.specs.Desks.{IsDesk};

use byte_io::Writing;
use byte_out::{FileId, Place, own_path};
use byte_place::{NewPlace, OutPlace};
use byte_system::HostSystem;
use clap::ArgMatches;
use cli_open::{OpenOffice, office_at, office_file, open_office, parts, real_path, replica, word};
use reg_engine::{CliFault, OutFault};
use reg_guard::run_office;
use reg_journal::OfficeFile;
use std::alloc::{AllocError, Global};
use std::io::ErrorKind;
use std::os::fd::AsFd;
use std::random::RandomSource;
use std::rt::Files;
use std::{fs, io};
use uuid::Uuid;

const OUT_IS_OFFICE: &str = "error: OUT is the office file, or its new one";

const REG_IS_OFFICE: &str = "error: REG is the office file, or its new one";

const AS_IS_OFFICE: &str =
    "error: --as is the office of the file in CRSREG_OFFICE, which would not know what it makes: leave --as out";

// The most bytes of the name of an office file: the name of the new file beside it has 25 more, of which 255 are the most.
const LONGEST_NAME: usize = 230;

// How many links a path may lead through.
const MOST_LINKS: usize = 40;

/// The UUID of the office, unless it is in the office file.
pub fn office_named(matches: &ArgMatches<'_>) -> Result<Option<Uuid>, CliFault> {
    if office_file(matches).is_some() {
        return Ok(None);
    }
    match replica(word(matches, "as")) {
        Ok(replica) => Ok(Some(replica)),
        Err(fault) => Err(fault),
    }
}

/// An office that can make operations.
pub struct Desk<Q> {
    pub replica: Uuid,
    pub file: Option<OpenOffice<Q>>,
}

// By hand: otherwise the prover goes through the office file wherever a desk goes out of scope.
impl<Q: Drop> Drop for Desk<Q> {
    fn drop(self) {
        let Desk { replica: _, file } = self;
        drop(file);
    }
}

impl<Q: Place> Desk<Q> {
    /// What the office file has, if the office has one.
    pub fn made(&self) -> Option<&OfficeFile>
        ensures { option_map (λ file. file.now) result ≡ office_made self.now.file }
    {
        match &self.file {
            Some(office) => Some(&office.file),
            None => None,
        }
    }

    /// Removes the new office file, unless it has replaced the old one.
    pub fn close(&mut self)
        ensures file { IsClosed Q.state self.old.file self.new.file }
        ensures replica { self.new.replica ≡ self.old.replica }
    {
        if let Some(file) = &mut self.file {
            file.place.remove();
        }
    }
}

/// The desk of the office with this UUID, or else of the office file at this path. The new office file is made first, and the old
/// one is read then: otherwise two commands could read the same one. Another command of the office waits meanwhile.
pub fn open_desk<'a>(
    rt: &'a HostRuntime,
    alloc: Global,
    named: Option<Uuid>,
    path: &'a str,
) -> Result<Desk<OutPlace<'a>>, CliFault>
    ensures { IfOk result (λ desk. IsDesk named desk) }
{
    match named {
        Some(replica) => Ok(Desk {
            replica,
            file: None,
        }),
        None => desk_at(rt, alloc, path),
    }
}

// The desk of the office of the office file at this path.
fn desk_at<'a>(
    rt: &'a HostRuntime,
    alloc: Global,
    path: &'a str,
) -> Result<Desk<OutPlace<'a>>, CliFault>
    ensures { IfOk result (λ desk. IsDesk None desk) }
{
    match open_office(rt, alloc, path) {
        Ok(office) => Ok(Desk {
            replica: office.file.replica(),
            file: Some(office),
        }),
        Err(fault) => Err(fault),
    }
}

/// What is wrong with a command line that names an office, if clap does not check it: `--as` is the office of the office file in
/// the environment, or REG or OUT is the office file.
pub fn misnamed<R: Files>(
    rt: &R,
    alloc: Global,
    matches: &ArgMatches<'_>,
) -> Result<Option<&'static str>, CliFault>
where
    R::File: AsFd,
{
    let Some(path) = office_file(matches) else {
        return misnamed_office(rt, alloc, matches);
    };
    if is_office_file(rt, alloc, word(matches, "out"), path)? {
        return Ok(Some(OUT_IS_OFFICE));
    }
    if is_office_file(rt, alloc, word(matches, "REG"), path)? {
        return Ok(Some(REG_IS_OFFICE));
    }
    Ok(None)
}

// What is wrong if `--as` is the office of a file that the environment names: the file would not have the numbers. A file
// that cannot be read is not used, so nothing is wrong with it.
fn misnamed_office<R: Files>(
    rt: &R,
    alloc: Global,
    matches: &ArgMatches<'_>,
) -> Result<Option<&'static str>, CliFault> {
    let (Some(path), Ok(named)) = (matches.get_str("office"), replica(word(matches, "as"))) else {
        return Ok(None);
    };
    match fs::metadata(rt, path) {
        Ok(file) if file.is_file() => {}
        _ => return Ok(None),
    }
    complaint(named, office_at(rt, alloc, path))
}

// What is wrong, if the office file was read so.
fn complaint(
    named: Uuid,
    read: Result<OfficeFile, CliFault>,
) -> Result<Option<&'static str>, CliFault>
    ensures ok { IfOk result (λ wrong. IsSome wrong ↔ IsOkAnd read (λ file. file.replica ≡ named)) }
    ensures fault { IfErr result (λ f. (f ≡ cli.Memory) × (read ≡ Err cli.Memory)) }
    ensures memory { read ≡ Err cli.Memory → result ≡ Err cli.Memory }
{
    match read {
        Ok(file) => {
            let replica = file.replica();
            drop(file);
            Ok(complaint_of(named, replica))
        }
        Err(CliFault::Memory) => Err(CliFault::Memory),
        Err(_) => Ok(None),
    }
}

fn complaint_of(named: Uuid, replica: Uuid) -> Option<&'static str>
    ensures { IsSome result ↔ (replica ≡ named) }
{
    if replica == named {
        return Some(AS_IS_OFFICE);
    }
    None
}

// Whether the path leads to the office file or its new one, by any name, or the new file beside it is the office file.
fn is_office_file<R: Files>(
    rt: &R,
    alloc: Global,
    path: &str,
    office: &str,
) -> Result<bool, CliFault> {
    let Ok(target) = followed(rt, alloc, path) else {
        return Err(CliFault::Memory);
    };
    let file = match real_path(rt, alloc, office)? {
        Some(real) => real,
        None => match String::from_str(alloc, office) {
            Ok(path) => path,
            Err(_) => return Err(CliFault::Memory),
        },
    };
    let (target, file) = (target.as_str(), file.as_str());
    let (Ok(new_target), Ok(new_file)) = (own_path(alloc, target), own_path(alloc, file)) else {
        return Err(CliFault::Memory);
    };
    Ok(
        is_same(rt, target, file)
            || is_same(rt, target, new_file.as_str())
            || is_same(rt, new_target.as_str(), file),
    )
}

// The path that the links lead to, even if nothing is there. The system follows no more links than these.
fn followed<R: Files>(rt: &R, alloc: Global, path: &str) -> Result<String, AllocError> {
    let mut path = String::from_str(alloc, path)?;
    for _ in 0..MOST_LINKS {
        let target = match rt.read_link(alloc, path.as_str()) {
            Ok(target) => target.into_string(),
            Err(error) if error.kind() == ErrorKind::OutOfMemory => return Err(AllocError),
            Err(_) => return Ok(path),
        };
        path = if target.starts_with('/') {
            target
        } else {
            let (folder, _) = parts(path.as_str());
            format!(in alloc; "{folder}/{target}")?
        };
    }
    Ok(path)
}

// Whether two paths name one file, which may not exist yet.
fn is_same<R: Files>(rt: &R, a: &str, b: &str) -> bool {
    if a == b {
        return true;
    }
    match (FileId::at(rt, a), FileId::at(rt, b)) {
        (Some(file), Some(other)) => file == other,
        (None, None) => {
            let (folder, name) = parts(a);
            let (other, other_name) = parts(b);
            name == other_name && FileId::at(rt, folder) == FileId::at(rt, other)
        }
        _ => false,
    }
}

/// `office`.
pub fn office(rt: &HostRuntime, matches: &ArgMatches<'_>) -> Result<(), CliFault> {
    let path = word(matches, "NEW");
    let (_, name) = parts(path);
    if name.len() > LONGEST_NAME {
        return Err(CliFault::Out(OutFault::NotOpened));
    }
    let mut random = [0; 16];
    if rt.fill_bytes(&mut random).is_err() {
        return Err(CliFault::Out(OutFault::NotOpened));
    }
    let Ok(system) = HostSystem::new(rt.alloc(), rt) else {
        return Err(CliFault::Memory);
    };
    let mut place = NewPlace::new(system, path.as_bytes());
    let mut sink = Writing::new(io::writer(rt));
    let answer = run_office(rt.alloc(), random, &mut place, &mut sink);
    drop(place);
    answer
}
