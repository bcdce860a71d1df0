//! The commands of an office on a register's file, or on a shelf, with their devices as arguments.

ghost use Rattle.std.specs.Prelude.{◌≡◌, OnOk, IfErr};
ghost use Rattle.byte_out.specs.Input.{kept_of};
ghost use Rattle.reg_office.specs.Commands.{retirements, supersessions};
ghost use Rattle.reg_engine.specs.Shelf.{disks};
ghost use Rattle.reg_engine.specs.Store.{in_file, on_shelf, IsChanged, IsUnchanged};
ghost use Rattle.reg_commands.specs.Change.{Makes, CannotMake, Enters, CannotEnter};

use crate::change::{Enter, Retire, Supersede};
use byte_disk::Disk;
use byte_io::{Sink, Source};
use byte_out::{Input, Place};
use reg_engine::{CliFault, InFile, OnShelf, run_change};
use reg_op::OpId;
use std::alloc::Global;
use uuid::Uuid;

/// Reads the register of the source (file 1), retires entries as the replica, with the note, puts the register's file in
/// the place, and writes the new ids to the sink, each with a newline.
pub fn run_retire<S: Input, P: Place, K: Sink>(
    alloc: Global,
    source: &mut S,
    replica: Uuid,
    entries: &[OpId],
    note: &str,
    place: &mut P,
    sink: &mut K,
) -> Result<(), CliFault>
    ensures changed { OnOk result (IsChanged (in_file (S.state source.old) (P.state place.old)
        (S.state source.new) (kept_of (S.keeps source.new) (S.state source.new)) (P.state place.new))
        (Makes replica note.now (retirements entries.now)) (K.state sink.old) (K.state sink.new)) }
    ensures fault { IfErr result (IsUnchanged (in_file (S.state source.old) (P.state place.old)
        (S.state source.new) (kept_of (S.keeps source.new) (S.state source.new)) (P.state place.new))
        (Makes replica note.now (retirements entries.now)) (CannotMake replica note.now (retirements entries.now)) (Unit {0}) (K.state sink.old) (K.state sink.new)) }
{
    let mut command = Retire {
        replica,
        entries,
        note,
    };
    match run_change(alloc, &mut InFile { source, place }, &mut command, sink) {
        Ok(()) => Ok(()),
        Err(fault) => Err(fault),
    }
}

/// Reads the register of the source (file 1), supersedes an old entry by newer ones as the replica, with the note, puts
/// the register's file in the place, and writes the new ids to the sink, each with a newline.
pub fn run_supersede<S: Input, P: Place, K: Sink>(
    alloc: Global,
    source: &mut S,
    replica: Uuid,
    old: OpId,
    newer: &[OpId],
    note: &str,
    place: &mut P,
    sink: &mut K,
) -> Result<(), CliFault>
    ensures changed { OnOk result (IsChanged (in_file (S.state source.old) (P.state place.old)
        (S.state source.new) (kept_of (S.keeps source.new) (S.state source.new)) (P.state place.new))
        (Makes replica note.now (supersessions old newer.now)) (K.state sink.old) (K.state sink.new)) }
    ensures fault { IfErr result (IsUnchanged (in_file (S.state source.old) (P.state place.old)
        (S.state source.new) (kept_of (S.keeps source.new) (S.state source.new)) (P.state place.new))
        (Makes replica note.now (supersessions old newer.now)) (CannotMake replica note.now (supersessions old newer.now)) (Unit {0}) (K.state sink.old) (K.state sink.new)) }
{
    let mut command = Supersede {
        replica,
        old,
        newer,
        note,
    };
    match run_change(alloc, &mut InFile { source, place }, &mut command, sink) {
        Ok(()) => Ok(()),
        Err(fault) => Err(fault),
    }
}

/// Reads the register of the source (file 1), and then the text of another (file 2); enters the text's value as the
/// replica, with the note; puts the register's file in the place; and writes the new id to the sink, with a newline.
pub fn run_enter<S: Input, X: Source, P: Place, K: Sink>(
    alloc: Global,
    source: &mut S,
    replica: Uuid,
    text: &mut X,
    note: &str,
    place: &mut P,
    sink: &mut K,
) -> Result<(), CliFault>
    ensures entered { OnOk result (IsChanged (in_file (S.state source.old) (P.state place.old)
        (S.state source.new) (kept_of (S.keeps source.new) (S.state source.new)) (P.state place.new))
        (Enters replica note.now (X.state text.old) (X.state text.new)) (K.state sink.old) (K.state sink.new)) }
    ensures fault { IfErr result (IsUnchanged (in_file (S.state source.old) (P.state place.old)
        (S.state source.new) (kept_of (S.keeps source.new) (S.state source.new)) (P.state place.new))
        (Enters replica note.now (X.state text.old) (X.state text.new)) (CannotEnter replica note.now 2 (X.state text.old) (X.state text.new))
        (X.state text.new ≡ X.state text.old) (K.state sink.old) (K.state sink.new)) }
{
    let mut command = Enter {
        replica,
        text,
        note,
    };
    match run_change(alloc, &mut InFile { source, place }, &mut command, sink) {
        Ok(()) => Ok(()),
        Err(fault) => Err(fault),
    }
}

/// Restores the register of the shelf, retires entries as the replica, with the note, keeps the register, and then writes
/// the new ids to the sink, each with a newline.
pub fn run_retire_on<D: Disk, K: Sink>(
    alloc: Global,
    disk: &mut D,
    replica: Uuid,
    entries: &[OpId],
    note: &str,
    sink: &mut K,
) -> Result<(), CliFault>
    ensures changed { OnOk result (IsChanged (on_shelf (disks D.tells D.seen D.images D.moment D.images_since D.failures) disk.old disk.new)
        (Makes replica note.now (retirements entries.now)) (K.state sink.old) (K.state sink.new)) }
    ensures fault { IfErr result (IsUnchanged (on_shelf (disks D.tells D.seen D.images D.moment D.images_since D.failures) disk.old disk.new)
        (Makes replica note.now (retirements entries.now)) (CannotMake replica note.now (retirements entries.now)) (Unit {0}) (K.state sink.old) (K.state sink.new)) }
    ensures tells { D.tells disk.new ≡ D.tells disk.old }
{
    let mut command = Retire {
        replica,
        entries,
        note,
    };
    match run_change(alloc, &mut OnShelf { disk }, &mut command, sink) {
        Ok(()) => Ok(()),
        Err(fault) => Err(fault),
    }
}

/// Restores the register of the shelf, supersedes an old entry by newer ones as the replica, with the note, keeps the
/// register, and then writes the new ids to the sink, each with a newline.
pub fn run_supersede_on<D: Disk, K: Sink>(
    alloc: Global,
    disk: &mut D,
    replica: Uuid,
    old: OpId,
    newer: &[OpId],
    note: &str,
    sink: &mut K,
) -> Result<(), CliFault>
    ensures changed { OnOk result (IsChanged (on_shelf (disks D.tells D.seen D.images D.moment D.images_since D.failures) disk.old disk.new)
        (Makes replica note.now (supersessions old newer.now)) (K.state sink.old) (K.state sink.new)) }
    ensures fault { IfErr result (IsUnchanged (on_shelf (disks D.tells D.seen D.images D.moment D.images_since D.failures) disk.old disk.new)
        (Makes replica note.now (supersessions old newer.now)) (CannotMake replica note.now (supersessions old newer.now)) (Unit {0}) (K.state sink.old) (K.state sink.new)) }
    ensures tells { D.tells disk.new ≡ D.tells disk.old }
{
    let mut command = Supersede {
        replica,
        old,
        newer,
        note,
    };
    match run_change(alloc, &mut OnShelf { disk }, &mut command, sink) {
        Ok(()) => Ok(()),
        Err(fault) => Err(fault),
    }
}

/// Restores the register of the shelf, and then reads a text (file 1); enters the text's value as the replica, with the
/// note; keeps the register, and then writes the new id to the sink, with a newline.
pub fn run_enter_on<D: Disk, X: Source, K: Sink>(
    alloc: Global,
    disk: &mut D,
    replica: Uuid,
    text: &mut X,
    note: &str,
    sink: &mut K,
) -> Result<(), CliFault>
    ensures entered { OnOk result (IsChanged (on_shelf (disks D.tells D.seen D.images D.moment D.images_since D.failures) disk.old disk.new)
        (Enters replica note.now (X.state text.old) (X.state text.new)) (K.state sink.old) (K.state sink.new)) }
    ensures fault { IfErr result (IsUnchanged (on_shelf (disks D.tells D.seen D.images D.moment D.images_since D.failures) disk.old disk.new)
        (Enters replica note.now (X.state text.old) (X.state text.new)) (CannotEnter replica note.now 1 (X.state text.old) (X.state text.new))
        (X.state text.new ≡ X.state text.old) (K.state sink.old) (K.state sink.new)) }
    ensures tells { D.tells disk.new ≡ D.tells disk.old }
{
    let mut command = Enter {
        replica,
        text,
        note,
    };
    match run_change(alloc, &mut OnShelf { disk }, &mut command, sink) {
        Ok(()) => Ok(()),
        Err(fault) => Err(fault),
    }
}
