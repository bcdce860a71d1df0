//! Opens an office file, which another command of the office then waits for.

ghost use Rattle.std.specs.Prelude.{◌≡◌, IfOk, OnOk, None, true};
ghost use Rattle.byte_io.specs.Device.{target_of};
ghost use Rattle.byte_out.specs.Place.{untold};
ghost use Rattle.byte_place.specs.Ways.{is_beside};
ghost use Rattle.reg_engine.specs.declared.fault.CliFault.TheVariants as cli;
ghost use Rattle.reg_engine.specs.declared.fault.InputFault.TheVariants as file;
ghost use Rattle.reg_journal.specs.Text.{FindsOffice};
ghost use Rattle.cli_open.specs.Offices.{Makes, MakesNone};

use crate::waiting::patience;
use crate::words::place;
use byte_io::{LateFile, LateSource};
use byte_out::Place;
use byte_place::OutPlace;
use reg_engine::{CliFault, InputFault};
use reg_guard::{busy, lock_office, office_in, unopened};
use reg_journal::OfficeFile;
use std::alloc::Global;
use std::fs;
use std::os::unix::fs::{FileTypeExt, MetadataExt};
use std::rt::Files;

/// What an office file has, and its place, where the new one is made already.
#[derive(Drop)]
pub struct OpenOffice<Q> {
    pub file: OfficeFile,
    pub place: Q,
}

/// Makes the new office file beside the one at this path, and then reads that: otherwise two commands could read the same one.
pub fn open_office<'a>(
    rt: &'a HostRuntime,
    alloc: Global,
    path: &'a str,
) -> Result<OpenOffice<OutPlace<'a>>, CliFault>
    ensures made { IfOk result (λ office. Makes (untold (target_of None)) (⟦<OutPlace<'a> as Place>⟧.state office.place)) }
    ensures beside { IfOk result (λ office. is_beside office.place.place.way ≡ true) }
{
    if has_second_name(rt, path) {
        return Err(unopened());
    }
    if is_pipe(rt, path) {
        return Err(not_office());
    }
    let mut place = place(rt, alloc, path)?;
    match read_locked(rt, alloc, &mut place, &mut LateFile::new(rt, path)) {
        Ok(file) => Ok(OpenOffice { file, place }),
        Err(fault) => {
            place.remove();
            drop(place);
            Err(fault)
        }
    }
}

// Makes the new office file, which is never one that is written in place, and then reads the old one.
fn read_locked<'a, S: LateSource>(
    rt: &HostRuntime,
    alloc: Global,
    place: &mut OutPlace<'a>,
    source: &mut S,
) -> Result<OfficeFile, CliFault>
    ensures made { OnOk result (Makes (⟦<OutPlace<'a> as Place>⟧.state place.old) (⟦<OutPlace<'a> as Place>⟧.state place.new)) }
    ensures beside { OnOk result (is_beside place.new.place.way ≡ true) }
    ensures found { IfOk result (FindsOffice (S.state source.old) (S.state source.new)) }
    ensures unread { MakesNone (⟦<OutPlace<'a> as Place>⟧.state place.old) (⟦<OutPlace<'a> as Place>⟧.state place.new) → S.state source.new ≡ S.state source.old }
{
    if place.reserve(patience(rt)?).is_err() {
        return Err(busy());
    }
    lock_office(place)?;
    if !place.is_beside() {
        return Err(unopened());
    }
    office_of(alloc, source)
}

// What the office file has.
fn office_of<S: LateSource>(alloc: Global, source: &mut S) -> Result<OfficeFile, CliFault>
    ensures { IfOk result (FindsOffice (S.state source.old) (S.state source.new)) }
{
    match office_in(alloc, source) {
        Ok(file) => Ok(file),
        Err(fault) => {
            if source.is_shut() {
                return Err(unopened());
            }
            Err(fault)
        }
    }
}

// Whether the office file has a second name, a hard link: that would keep what it has now.
fn has_second_name<R: Files>(rt: &R, path: &str) -> bool {
    match fs::metadata(rt, path) {
        Ok(there) => there.nlink() > 1,
        Err(_) => false,
    }
}

// Whether there is a pipe, which is no office file. It could block whoever opens it.
fn is_pipe<R: Files>(rt: &R, path: &str) -> bool {
    match fs::metadata(rt, path) {
        Ok(there) => there.file_type().is_fifo(),
        Err(_) => false,
    }
}

fn not_office() -> CliFault
    ensures { result ≡ cli.File 1 file.NotOffice }
{
    CliFault::File {
        number: 1,
        fault: InputFault::NotOffice,
    }
}

/// What the office file at this path has.
pub fn office_at<R: Files>(rt: &R, alloc: Global, path: &str) -> Result<OfficeFile, CliFault> {
    if is_pipe(rt, path) {
        return Err(not_office());
    }
    office_of(alloc, &mut LateFile::new(rt, path))
}
