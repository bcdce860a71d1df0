//! Files of registers and pieces, which are opened, read and closed in turn.

ghost use Rattle.std.specs.Prelude.{◌≡◌, ◌++◌, ◌∷◌, [], map, option_map, false, IfOk, OnOk, IfErr};
ghost use Rattle.reg_file.specs.Parts.{FindsPart};
ghost use Rattle.reg_journal.specs.Standing.{is_forged, Leasts};
ghost use Rattle.reg_take.specs.Files.{file_state, fault_in, brought, arrived, content_of, retired_in, judged, IsScreened, IsUnread, IsArrival, IsLast, AreArrivals, IsRetiredIn, AreRetired, IsStopped};

use crate::options::TakeOptions;
use crate::retired::retired_in;
use byte_io::LateSource;
use reg_engine::{CliFault, InputFault};
use reg_file::{Part, ReadFileFault, read_part_beside};
use reg_journal::OfficeFile;
use reg_op::OpId;
use reg_state::{Piece, Register};
use reg_tree::offices::{from_piece, from_register, register_in};
use std::alloc::{AllocError, Global};
use std::slice;
use uuid::Uuid;

/// What a file gave: a register or a piece, or the reason why it is left out.
#[derive(Drop)]
pub enum Arrival {
    Register(Register),
    Piece(Piece),
    Unread { number: usize, fault: InputFault },
    /// Somebody else gave this number in the name of the office.
    Forged(OpId),
}

/// What a file gave, and the entries that are retired in it, if offices are named.
#[derive(Drop)]
pub struct FileGift {
    pub arrival: Arrival,
    pub retired: Vec<OpId>,
}

/// What each file gave, and the entries that are retired in them, if offices are named.
#[derive(Drop)]
pub struct FileGifts {
    pub all: Vec<Arrival>,
    pub retired: Vec<OpId>,
}

// The fault of the file with this number, which may have failed to open.
fn fault_in(number: usize, shut: bool, fault: ReadFileFault) -> CliFault
    ensures { result ≡ fault_in number shut fault }
{
    match fault {
        ReadFileFault::ReadFailed(_) if shut => CliFault::File {
            number,
            fault: InputFault::NotOpened,
        },
        fault => CliFault::of_file(number, fault),
    }
}

// Reads the register or the piece in the file with this number, and closes it. Definitions of known registers are not read again.
fn read_next<S: LateSource>(
    alloc: Global,
    known: &Register,
    number: usize,
    file: &mut S,
) -> Result<Part, CliFault>
    ensures found { IfOk result (FindsPart (S.state file.old) (S.state file.new)) }
    ensures fault { IfErr result (IsUnread number (file_state (S.state file.old) (S.shut file.old)) (file_state (S.state file.new) (S.shut file.new))) }
    ensures closed { S.held file.new ≡ false }
{
    let read = read_part_beside(alloc, slice::from_ref(known), file);
    file.close();
    match read {
        Ok(part) => Ok(part),
        Err(fault) => Err(fault_in(number, file.is_shut(), fault)),
    }
}

// What is joined of a part: all of it, unless offices are named.
fn brought(alloc: Global, offices: &[Uuid], part: Part) -> Result<Part, AllocError>
    ensures { IfOk result (λ p. p ≡ brought offices.now part) }
{
    if offices.is_empty() {
        return Ok(part);
    }
    let theirs = match part {
        Part::Register(register) => from_register(alloc, &register, offices)?,
        Part::Piece(piece) => from_piece(alloc, &piece, offices)?,
    };
    Ok(Part::Register(theirs))
}

// The least id that somebody else gave in the office's name, of which a part tells.
fn forged_in(alloc: Global, file: &OfficeFile, part: &Part) -> Result<Option<OpId>, AllocError>
    ensures { IfOk result (Leasts (is_forged file.now (content_of part.now))) }
{
    match part {
        Part::Register(register) => Ok(file.forged(register)),
        Part::Piece(piece) => {
            let register = register_in(alloc, piece)?;
            Ok(file.forged(&register))
        }
    }
}

fn arrived(part: Part) -> Arrival
    ensures { result ≡ arrived part }
{
    match part {
        Part::Register(register) => Arrival::Register(register),
        Part::Piece(piece) => Arrival::Piece(piece),
    }
}

// What arrives of a part: all of it, unless somebody else gave a number in the office's name.
fn screened(alloc: Global, office: Option<&OfficeFile>, part: Part) -> Result<Arrival, AllocError>
    ensures { IfOk result (IsScreened (option_map (λ f. f.now) office.entry) part) }
{
    let Some(file) = office else {
        return Ok(arrived(part));
    };
    let forged = forged_in(alloc, file, &part)?;
    match forged {
        Some(id) => Ok(Arrival::Forged(id)),
        None => Ok(arrived(part)),
    }
}

// What arrives of the part that a file gave, and the entries that are retired in it.
fn gift_in(alloc: Global, options: &TakeOptions<'_>, part: Part) -> Result<FileGift, AllocError>
    ensures arrival { IfOk result (λ g. IsScreened (judged options.now) (brought options.now.offices.items part) g.arrival) }
    ensures retired { IfOk result (λ g. g.retired.items ≡ retired_in options.now.offices.items part) }
{
    let retired = retired_in(alloc, &options.offices, &part)?;
    let joined = brought(alloc, &options.offices, part)?;
    let arrival = screened(alloc, options.office, joined)?;
    Ok(FileGift { arrival, retired })
}

// What the file with this number gave. Its fault ends the command, unless the command keeps going.
fn gift_of<S: LateSource>(
    alloc: Global,
    known: &Register,
    number: usize,
    options: &TakeOptions<'_>,
    file: &mut S,
) -> Result<FileGift, CliFault>
    ensures arrived { IfOk result (λ g. IsArrival options.now number (file_state (S.state file.old) (S.shut file.old)) (file_state (S.state file.new) (S.shut file.new)) g.arrival) }
    ensures retired { IfOk result (λ g. IsRetiredIn options.now number (file_state (S.state file.old) (S.shut file.old)) (file_state (S.state file.new) (S.shut file.new)) g.retired.items) }
    ensures fault { IfErr result (IsLast options.now number (file_state (S.state file.old) (S.shut file.old)) (file_state (S.state file.new) (S.shut file.new))) }
    ensures closed { S.held file.new ≡ false }
{
    match read_next(alloc, known, number, file) {
        Ok(part) => match gift_in(alloc, options, part) {
            Ok(gift) => Ok(gift),
            Err(_) => Err(CliFault::Memory),
        },
        Err(CliFault::File { number, fault }) => {
            if options.keep_going {
                return Ok(FileGift {
                    arrival: Arrival::Unread { number, fault },
                    retired: Vec::new(alloc),
                });
            }
            Err(CliFault::File { number, fault })
        }
        Err(_) => Err(CliFault::Memory),
    }
}

// Appends what the next file gave.
fn push_gift(arrivals: &mut FileGifts, gift: FileGift) -> Result<(), AllocError>
    ensures arrival { OnOk result (arrivals.new.all.items ≡ arrivals.old.all.items ++ gift.arrival ∷ []) }
    ensures retired { OnOk result (arrivals.new.retired.items ≡ arrivals.old.retired.items ++ gift.retired.items) }
{
    let FileGift { arrival, retired } = gift;
    arrivals.retired.extend_from_slice(&retired)?;
    arrivals.all.push(arrival)?;
    Ok(())
}

/// Reads all files in order, numbered from this number on. Unless the command keeps going, the first fault ends it.
pub fn arrivals<S: LateSource>(
    alloc: Global,
    known: &Register,
    next: usize,
    options: &TakeOptions<'_>,
    files: &mut [S],
) -> Result<FileGifts, CliFault>
    ensures arrived { IfOk result (λ a. AreArrivals options.now next
        (map (λ s. file_state (S.state s) (S.shut s)) files.old) (map (λ s. file_state (S.state s) (S.shut s)) files.new) a.all.items) }
    ensures retired { IfOk result (λ a. AreRetired options.now next
        (map (λ s. file_state (S.state s) (S.shut s)) files.old) (map (λ s. file_state (S.state s) (S.shut s)) files.new) a.retired.items) }
    ensures fault { IfErr result (IsStopped options.now next
        (map (λ s. file_state (S.state s) (S.shut s)) files.old) (map (λ s. file_state (S.state s) (S.shut s)) files.new)) }
{
    let mut arrivals = FileGifts {
        all: Vec::new(alloc),
        retired: Vec::new(alloc),
    };
    for i in 0..files.len() {
        let Some(number) = next.checked_add(i) else {
            return Err(CliFault::Memory);
        };
        let gift = match gift_of(alloc, known, number, options, &mut files[i]) {
            Ok(gift) => gift,
            Err(fault) => return Err(fault),
        };
        if let Err(_) = push_gift(&mut arrivals, gift) {
            return Err(CliFault::Memory);
        }
    }
    Ok(arrivals)
}
