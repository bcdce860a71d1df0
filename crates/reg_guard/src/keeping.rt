//! Keeps a register, after the office file got what a command made.

ghost use Rattle.std.specs.Prelude.{◌≡◌, IfOk, OnOk, IfErr, ◌⊎◌, is_some, option_map};
ghost use Rattle.reg_op.specs.Contents.{Content};
ghost use Rattle.reg_engine.specs.Shelf.{disks, Has, IsSure};
ghost use Rattle.reg_engine.specs.declared.fault.CliFault.TheVariants as cli;
ghost use Rattle.byte_office.specs.declared.fault.OfficeFileFault.TheVariants as note;
ghost use Rattle.reg_journal.specs.Text.{HoldsOffice, IsOfficeTooLarge};
ghost use Rattle.reg_guard.specs.Keeping.{if_changed, is_first, IsLandedText, PublishesAfter, IsUnpublishedAfter, KeepsAfter, IsUnkeptAfter, Tries, TriesIf, unkept_fault};

use byte_disk::Disk;
use byte_office::{OfficeFileFault, UnreplacedFault, put_changed, put_office, replace_after};
use byte_out::{Place, replace};
use reg_engine::{CliFault, OutFault, put_on, ready_on};
use reg_file::{RegisterChunks, WriteFileFault};
use reg_journal::OfficeFile;
use reg_state::Register;
use std::alloc::Global;

/// Makes the register's file ready, replaces the office file by the next one, and then the register's file, unless that was read
/// and has changed. If it was read, the office file then notes that its last number stands in a register.
pub(crate) fn publish_after<P: Place, Q: Place>(
    alloc: Global,
    file: &OfficeFile,
    next: OfficeFile,
    register: &Register,
    read: Option<&[u8]>,
    place: &mut P,
    office: &mut Q,
) -> Result<(), CliFault>
    ensures published { OnOk result (PublishesAfter file.now next register.now (option_map (λ s. s.now) read.entry)
        (P.state place.old) (P.state place.new) (Q.state office.old) (Q.state office.new)) }
    ensures fault { IfErr result (IsUnpublishedAfter file.now next register.now (option_map (λ s. s.now) read.entry)
        (P.state place.old) (P.state place.new) (Q.state office.old) (Q.state office.new)) }
{
    let text = match office_text(alloc, &next) {
        Ok(text) => text,
        Err(fault) => return Err(fault),
    };
    let is_changed = file.is_changed(&next);
    let landed = match landed_text(alloc, read.is_some(), next) {
        Ok(landed) => landed,
        Err(fault) => return Err(fault),
    };
    let mut chunks = match RegisterChunks::new(alloc, register) {
        Ok(chunks) => chunks,
        Err(WriteFileFault::TooLarge) => return Err(CliFault::Out(OutFault::TooLarge)),
        Err(_) => return Err(CliFault::Memory),
    };
    let changed = changed(is_changed, &text);
    match replace_after(place, read, &mut chunks, office, changed) {
        Ok(()) => {}
        Err(fault) => return Err(unkept_by(fault)),
    }
    tell_first(is_changed, &text, &landed, office);
    Ok(())
}

/// Makes the register ready for the shelf from which another one was restored, replaces the office file by the next one, and then
/// changes the shelf. Then the office file notes that its last number stands in a register.
pub(crate) fn keep_after<D: Disk, Q: Place>(
    alloc: Global,
    file: &OfficeFile,
    next: OfficeFile,
    register: &Register,
    disk: &mut D,
    office: &mut Q,
) -> Result<(), CliFault>
    ensures kept { (was : Content) → Has (disks D.tells D.seen D.images D.moment D.images_since D.failures) disk.old was
        → IsSure (disks D.tells D.seen D.images D.moment D.images_since D.failures) disk.old
        → OnOk result (KeepsAfter (disks D.tells D.seen D.images D.moment D.images_since D.failures) file.now next was register.now
        disk.old disk.new (Q.state office.old) (Q.state office.new)) }
    ensures fault { (was : Content) → Has (disks D.tells D.seen D.images D.moment D.images_since D.failures) disk.old was
        → IsSure (disks D.tells D.seen D.images D.moment D.images_since D.failures) disk.old
        → IfErr result (IsUnkeptAfter (disks D.tells D.seen D.images D.moment D.images_since D.failures) file.now next was register.now
        disk.old disk.new (Q.state office.old) (Q.state office.new)) }
    ensures tells { D.tells disk.new ≡ D.tells disk.old }
{
    let text = match office_text(alloc, &next) {
        Ok(text) => text,
        Err(fault) => return Err(fault),
    };
    let is_changed = file.is_changed(&next);
    let landed = match landed_text(alloc, true, next) {
        Ok(landed) => landed,
        Err(fault) => return Err(fault),
    };
    let frame = match ready_on(alloc, disk, register) {
        Ok(frame) => frame,
        Err(fault) => return Err(fault),
    };
    let changed = changed(is_changed, &text);
    if let Err(fault) = put_changed(office, changed) {
        return Err(CliFault::Office(fault));
    }
    match put_on(disk, &frame) {
        Ok(()) => {}
        Err(fault) => return Err(fault),
    }
    tell_first(is_changed, &text, &landed, office);
    Ok(())
}

// The text of the office file.
fn office_text(alloc: Global, next: &OfficeFile) -> Result<Vec<u8>, CliFault>
    ensures held { IfOk result (λ text. HoldsOffice text.items next.now) }
    ensures fault { IfErr result (λ f. (f ≡ cli.Memory) ⊎ ((f ≡ cli.Office note.TooLarge) × IsOfficeTooLarge next.now)) }
{
    match next.to_bytes(alloc) {
        Ok(text) => Ok(text),
        Err(WriteFileFault::TooLarge) => Err(CliFault::Office(OfficeFileFault::TooLarge)),
        Err(_) => Err(CliFault::Memory),
    }
}

// The text, if it is another one than before.
fn changed(is_changed: bool, text: &[u8]) -> Option<&[u8]>
    ensures { option_map (λ s. s.now) result ≡ if_changed is_changed text.now }
{
    if is_changed { Some(text) } else { None }
}

fn unkept_by(fault: UnreplacedFault) -> CliFault
    ensures { result ≡ unkept_fault fault }
{
    match fault {
        UnreplacedFault::Unready(fault) => CliFault::of_replace(fault),
        UnreplacedFault::Unnoted(fault) => CliFault::Office(fault),
        UnreplacedFault::Late(fault) => CliFault::of_replace(fault),
    }
}

// The text of the office file once its last number stands in a register, if it will for the first time: in the file that was read.
// There is none if it would be too large.
fn landed_text(alloc: Global, is_same: bool, next: OfficeFile) -> Result<Option<Vec<u8>>, CliFault>
    ensures landed { IfOk result (λ t. IsLandedText (is_first is_same next) next (option_map (λ v. v.items) t)) }
    ensures memory { IfErr result (λ f. f ≡ cli.Memory) }
{
    if !is_first(is_same, &next) {
        return Ok(None);
    }
    let mut landed = next;
    let last = landed.last();
    landed.stood_to(last);
    match landed.to_bytes(alloc) {
        Ok(text) => Ok(Some(text)),
        Err(WriteFileFault::TooLarge) => Ok(None),
        Err(_) => Err(CliFault::Memory),
    }
}

fn is_first(is_same: bool, next: &OfficeFile) -> bool
    ensures { result ≡ is_first is_same next.now }
{
    is_same && next.stood() == 0 && next.last() > 0
}

// Tells the office file that its last number stands in a register, if there is a text that says so. The command is done by then: if this
// fails, the next command finds the number in the register.
fn tell_first<Q: Place>(is_changed: bool, text: &[u8], landed: &Option<Vec<u8>>, office: &mut Q)
    ensures { TriesIf is_changed text.now (option_map (λ v. v.items) landed.now) (Q.state office.old) (Q.state office.new) }
{
    if let Some(landed) = landed {
        tell(is_changed, text, landed, office);
    }
}

fn tell<Q: Place>(is_changed: bool, text: &[u8], landed: &[u8], office: &mut Q)
    ensures { Tries is_changed text.now landed.now (Q.state office.old) (Q.state office.new) }
{
    if is_changed {
        match replace(office, Some(text), landed) {
            Ok(()) => {}
            Err(_) => {}
        }
        return;
    }
    // Its new file was not used.
    match put_office(office, landed) {
        Ok(()) => {}
        Err(_) => {}
    }
}
