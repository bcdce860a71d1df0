//! The files that offices exchange: registers, summaries of seen ids, pieces, and registers in file version 1.

ghost use Rattle.std.specs.Prelude.{◌≡◌, None, OnOk, IfErr};
ghost use Rattle.byte_out.specs.Input.{kept_of};
ghost use Rattle.reg_engine.specs.Shelf.{disks};
ghost use Rattle.reg_engine.specs.Store.{of_file, on_shelf, IsGiven, IsUngiven};
ghost use Rattle.reg_commands.specs.Exchange.{IsFileOf, HasNoFile, IsSummary, HasNoSummary, IsPieceFile, HasNoPiece};

use byte_disk::Disk;
use byte_io::Source;
use byte_out::{Input, Place};
use reg_engine::{CliFault, Give, OfFile, OnShelf, OutFault, read_summary, run_give};
use reg_file::{
    WriteFileFault, write_bytes, write_first_bytes, write_piece_bytes, write_seen_bytes,
};
use reg_state::Register;
use std::alloc::Global;

/// The register's file.
#[derive(Drop)]
pub struct Whole;

impl Give for Whole {
    ghost use Rattle.reg_commands.specs.Exchange.{IsFileOf, HasNoFile};

    ghost gives = { λ old. λ new. λ next. λ x. λ bytes. IsFileOf x bytes };

    ghost refuses = { λ old. λ new. λ next. λ x. λ f. HasNoFile x f };

    ghost same = { λ old. λ new. Unit {0} };

    ghost itself = { λ a. tt };

    ghost unread = { λ old. λ new. Unit {0} };

    ghost rests = { λ a. tt };

    fn file(
        &mut self,
        alloc: Global,
        _next: usize,
        register: &Register,
    ) -> Result<Vec<u8>, CliFault> {
        match write_bytes(alloc, register) {
            Ok(bytes) => Ok(bytes),
            Err(WriteFileFault::TooLarge) => Err(CliFault::Out(OutFault::TooLarge)),
            Err(_) => Err(CliFault::Memory),
        }
    }
}

/// The file of the ids that the register has seen.
#[derive(Drop)]
pub struct SeenFile;

impl Give for SeenFile {
    ghost use Rattle.reg_commands.specs.Exchange.{IsSummary, HasNoSummary};

    ghost gives = { λ old. λ new. λ next. λ x. λ bytes. IsSummary x bytes };

    ghost refuses = { λ old. λ new. λ next. λ x. λ f. HasNoSummary x f };

    ghost same = { λ old. λ new. Unit {0} };

    ghost itself = { λ a. tt };

    ghost unread = { λ old. λ new. Unit {0} };

    ghost rests = { λ a. tt };

    fn file(
        &mut self,
        alloc: Global,
        _next: usize,
        register: &Register,
    ) -> Result<Vec<u8>, CliFault> {
        match write_seen_bytes(alloc, register.seen()) {
            Ok(bytes) => Ok(bytes),
            Err(WriteFileFault::TooLarge) => Err(CliFault::Out(OutFault::TooLarge)),
            Err(_) => Err(CliFault::Memory),
        }
    }
}

/// The file of the register's piece for the ids of a summary, which is read after the register.
#[derive(Drop)]
pub struct PieceFor<'a, U> {
    pub summary: &'a mut U,
}

impl<U: Source> Give for PieceFor<'_, U> {
    ghost use Rattle.std.specs.Prelude.{◌≡◌};
    ghost use Rattle.std.proofs.Common.{refl};
    ghost use Rattle.reg_commands.specs.Exchange.{IsPieceFile, HasNoPiece};

    ghost gives = { λ old. λ new. λ next. λ x. λ bytes. IsPieceFile (U.state old.summary.now) (U.state new.summary.now) x bytes };

    ghost refuses = { λ old. λ new. λ next. λ x. λ f. HasNoPiece next (U.state old.summary.now) (U.state new.summary.now) x f };

    ghost same = { λ old. λ new. new.summary.ghost_name ≡ old.summary.ghost_name };

    ghost itself = { λ a. refl };

    ghost unread = { λ old. λ new. U.state new.summary.now ≡ U.state old.summary.now };

    ghost rests = { λ a. refl };

    fn file(
        &mut self,
        alloc: Global,
        next: usize,
        register: &Register,
    ) -> Result<Vec<u8>, CliFault> {
        let basis = match read_summary(alloc, next, self.summary) {
            Ok(basis) => basis,
            Err(fault) => return Err(fault),
        };
        let Ok(piece) = register.piece_for(alloc, &basis) else {
            return Err(CliFault::Memory);
        };
        match write_piece_bytes(alloc, &piece) {
            Ok(bytes) => Ok(bytes),
            Err(WriteFileFault::TooLarge) => Err(CliFault::Out(OutFault::TooLarge)),
            Err(_) => Err(CliFault::Memory),
        }
    }
}

/// The register's file of version 1, if no operation has a note.
#[derive(Drop)]
pub struct FirstVersion;

impl Give for FirstVersion {
    ghost use Rattle.reg_commands.specs.Exchange.{IsFirstFile, HasNoFirst};

    ghost gives = { λ old. λ new. λ next. λ x. λ bytes. IsFirstFile x bytes };

    ghost refuses = { λ old. λ new. λ next. λ x. λ f. HasNoFirst x f };

    ghost same = { λ old. λ new. Unit {0} };

    ghost itself = { λ a. tt };

    ghost unread = { λ old. λ new. Unit {0} };

    ghost rests = { λ a. tt };

    fn file(
        &mut self,
        alloc: Global,
        _next: usize,
        register: &Register,
    ) -> Result<Vec<u8>, CliFault> {
        match write_first_bytes(alloc, register) {
            Ok(bytes) => Ok(bytes),
            Err(fault) => Err(CliFault::of_first(fault)),
        }
    }
}

/// Reads the register of the source (file 1), and writes the file of the ids that it has seen.
pub fn run_seen<S: Input, P: Place>(
    alloc: Global,
    source: &mut S,
    place: &mut P,
) -> Result<(), CliFault>
    ensures summed { OnOk result (IsGiven (of_file (S.state source.old) (S.state source.new)) IsSummary
        (kept_of (S.keeps source.new) (S.state source.new)) (P.state place.old) (P.state place.new)) }
    ensures fault { IfErr result (IsUngiven (of_file (S.state source.old) (S.state source.new)) IsSummary HasNoSummary (Unit {0})
        (kept_of (S.keeps source.new) (S.state source.new)) (P.state place.old) (P.state place.new)) }
{
    match run_give(alloc, &mut OfFile { source }, &mut SeenFile, place) {
        Ok(()) => Ok(()),
        Err(fault) => Err(fault),
    }
}

/// Reads the register of the source (file 1), and then a summary (file 2), and writes the file of the register's piece
/// for the ids of the summary.
pub fn run_piece<S: Input, U: Source, P: Place>(
    alloc: Global,
    source: &mut S,
    summary: &mut U,
    place: &mut P,
) -> Result<(), CliFault>
    ensures made { OnOk result (IsGiven (of_file (S.state source.old) (S.state source.new))
        (IsPieceFile (U.state summary.old) (U.state summary.new)) (kept_of (S.keeps source.new) (S.state source.new)) (P.state place.old) (P.state place.new)) }
    ensures fault { IfErr result (IsUngiven (of_file (S.state source.old) (S.state source.new))
        (IsPieceFile (U.state summary.old) (U.state summary.new)) (HasNoPiece 2 (U.state summary.old) (U.state summary.new))
        (U.state summary.new ≡ U.state summary.old) (kept_of (S.keeps source.new) (S.state source.new)) (P.state place.old) (P.state place.new)) }
{
    match run_give(
        alloc,
        &mut OfFile { source },
        &mut PieceFor { summary },
        place,
    ) {
        Ok(()) => Ok(()),
        Err(fault) => Err(fault),
    }
}

/// Writes the file of the register on the shelf.
pub fn run_unshelf<D: Disk, P: Place>(
    alloc: Global,
    disk: &mut D,
    place: &mut P,
) -> Result<(), CliFault>
    ensures written { OnOk result (IsGiven (on_shelf (disks D.tells D.seen D.images D.moment D.images_since D.failures) disk.old disk.new)
        IsFileOf None (P.state place.old) (P.state place.new)) }
    ensures fault { IfErr result (IsUngiven (on_shelf (disks D.tells D.seen D.images D.moment D.images_since D.failures) disk.old disk.new)
        IsFileOf HasNoFile (Unit {0}) None (P.state place.old) (P.state place.new)) }
    ensures tells { D.tells disk.new ≡ D.tells disk.old }
{
    match run_give(alloc, &mut OnShelf { disk }, &mut Whole, place) {
        Ok(()) => Ok(()),
        Err(fault) => Err(fault),
    }
}
