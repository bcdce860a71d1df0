//! The command `settle`: retires entries so that others are kept, or so that each text is in one entry.

ghost use Rattle.std.specs.Prelude.{◌≡◌, ◌⊎◌, List, IfOk, IfErr};
ghost use Rattle.reg_op.specs.Ids.{Id};
ghost use Rattle.reg_office.specs.declared.fault.OfficeFault.{OfficeFault as OneFault};
ghost use Rattle.reg_engine.specs.Fault.{office_fault};
ghost use Rattle.reg_engine.specs.Outputs.{id_lines};
ghost use Rattle.reg_disorder.specs.Retiring.{RetiresFor, CannotRetireFor};
ghost use Rattle.reg_desk.specs.Settle.{SettlesFor, CannotKeep, SettlesEqual, NeverRefuses, Retires, IsUnretired, settle_fault};

use reg_disorder::linking::{Retired, retire_for_heirs};
use reg_disorder::settling::{SettleFault, doubles, to_retire};
use reg_engine::{Change, CliFault, Made, Refusal, id_lines};
use reg_office::OfficeFault;
use reg_op::{Note, OpId};
use reg_state::Register;
use std::alloc::Global;
use uuid::Uuid;

/// Retires, as the replica and with the note, the other entries that have the keys of the entries to keep. Their links pass on
/// to these.
#[derive(Drop)]
pub struct Settle<'a> {
    pub replica: Uuid,
    pub keeps: &'a [OpId],
    pub note: &'a str,
}

impl Change for Settle<'_> {
    type Read = ();

    ghost use Rattle.std.specs.Prelude.{◌≡◌};
    ghost use Rattle.reg_desk.specs.Settle.{SettlesFor, CannotKeep, Retires, IsUnretired};

    ghost reads = { λ old. λ new. λ next. λ x. λ r. new ≡ old };

    ghost unmet = { λ old. λ new. λ next. λ x. λ f. ⊥ };

    ghost makes = { λ old. λ new. λ next. λ x. λ z. λ y. λ lines. Retires (SettlesFor old.keeps.now) old.replica old.note.now z y lines };

    ghost refuses = { λ old. λ new. λ next. λ x. λ z. λ f. IsUnretired (SettlesFor old.keeps.now) (CannotKeep old.keeps.now) old.replica old.note.now z f };

    ghost same = { λ old. λ new. Unit {0} };

    ghost itself = { λ a. tt };

    ghost unread = { λ old. λ new. Unit {0} };

    ghost rests = { λ a. tt };

    ghost still = { λ a b c e f. tt };

    ghost stops = { λ a b n x z f h. absurd h };

    fn read(&mut self, _alloc: Global, _next: usize, _register: &Register) -> Result<(), CliFault> {
        Ok(())
    }

    fn make(
        &mut self,
        alloc: Global,
        _next: usize,
        _read: (),
        register: Register,
    ) -> Result<Made, CliFault> {
        match settled(alloc, register, self.replica, self.keeps, self.note) {
            Ok(made) => Ok(made),
            Err(fault) => Err(fault),
        }
    }
}

// Retires the other entries that have the keys of the entries to keep.
fn settled(
    alloc: Global,
    register: Register,
    replica: Uuid,
    keeps: &[OpId],
    note: &str,
) -> Result<Made, CliFault>
    ensures made { IfOk result (λ made. Retires (SettlesFor keeps.now) replica note.now register made.register made.lines.items) }
    ensures fault { IfErr result (λ f. IsUnretired (SettlesFor keeps.now) (CannotKeep keeps.now) replica note.now register f) }
{
    if note.len() > Note::MAX {
        return Err(CliFault::Refused(Refusal::Office(OfficeFault::NoteTooLong)));
    }
    let entries = match to_retire(alloc, &register, keeps) {
        Ok(entries) => entries,
        Err(fault) => return Err(fault_of(fault)),
    };
    match retire_all(alloc, register, replica, &entries, note) {
        Ok(made) => Ok(made),
        Err(fault) => Err(fault),
    }
}

/// Retires all doubles, as the replica and with the note. Their links pass on to the entries that stay.
#[derive(Drop)]
pub struct SettleEqual<'a> {
    pub replica: Uuid,
    pub note: &'a str,
}

impl Change for SettleEqual<'_> {
    type Read = ();

    ghost use Rattle.std.specs.Prelude.{◌≡◌};
    ghost use Rattle.reg_desk.specs.Settle.{SettlesEqual, NeverRefuses, Retires, IsUnretired};

    ghost reads = { λ old. λ new. λ next. λ x. λ r. new ≡ old };

    ghost unmet = { λ old. λ new. λ next. λ x. λ f. ⊥ };

    ghost makes = { λ old. λ new. λ next. λ x. λ z. λ y. λ lines. Retires SettlesEqual old.replica old.note.now z y lines };

    ghost refuses = { λ old. λ new. λ next. λ x. λ z. λ f. IsUnretired SettlesEqual NeverRefuses old.replica old.note.now z f };

    ghost same = { λ old. λ new. Unit {0} };

    ghost itself = { λ a. tt };

    ghost unread = { λ old. λ new. Unit {0} };

    ghost rests = { λ a. tt };

    ghost still = { λ a b c e f. tt };

    ghost stops = { λ a b n x z f h. absurd h };

    fn read(&mut self, _alloc: Global, _next: usize, _register: &Register) -> Result<(), CliFault> {
        Ok(())
    }

    fn make(
        &mut self,
        alloc: Global,
        _next: usize,
        _read: (),
        register: Register,
    ) -> Result<Made, CliFault> {
        match settled_equal(alloc, register, self.replica, self.note) {
            Ok(made) => Ok(made),
            Err(fault) => Err(fault),
        }
    }
}

// Retires all doubles.
fn settled_equal(
    alloc: Global,
    register: Register,
    replica: Uuid,
    note: &str,
) -> Result<Made, CliFault>
    ensures made { IfOk result (λ made. Retires SettlesEqual replica note.now register made.register made.lines.items) }
    ensures fault { IfErr result (λ f. IsUnretired SettlesEqual NeverRefuses replica note.now register f) }
{
    if note.len() > Note::MAX {
        return Err(CliFault::Refused(Refusal::Office(OfficeFault::NoteTooLong)));
    }
    let entries = match doubles(alloc, &register) {
        Ok(entries) => entries,
        Err(_) => return Err(CliFault::Memory),
    };
    match retire_all(alloc, register, replica, &entries, note) {
        Ok(made) => Ok(made),
        Err(fault) => Err(fault),
    }
}

// Retires the entries, as the replica and with the note, and makes the links that pass on.
fn retire_all(
    alloc: Global,
    register: Register,
    replica: Uuid,
    entries: &[OpId],
    note: &str,
) -> Result<Made, CliFault>
    ensures made { IfOk result (λ made. (ids : List Id) × RetiresFor register replica note.now entries.now made.register ids × (made.lines.items ≡ id_lines ids)) }
    ensures fault { IfErr result (λ f. ((g : OneFault) × CannotRetireFor register replica note.now entries.now g × (f ≡ office_fault g)) ⊎ (f ≡ CliFault.Memory)) }
{
    let Retired { register, ids } = match retire_for_heirs(
        alloc, register, replica, entries, note,
    ) {
        Ok(retired) => retired,
        Err(fault) => return Err(CliFault::of_office(fault)),
    };
    match id_lines(alloc, &ids) {
        Ok(lines) => Ok(Made { register, lines }),
        Err(_) => Err(CliFault::Memory),
    }
}

fn fault_of(fault: SettleFault) -> CliFault
    ensures { result ≡ settle_fault fault }
{
    match fault {
        SettleFault::UnknownEntry(id) => CliFault::Refused(Refusal::Office(
            OfficeFault::UnknownEntry(id),
        )),
        SettleFault::AlreadyRetired(id) => CliFault::Refused(Refusal::Office(
            OfficeFault::AlreadyRetired(id),
        )),
        SettleFault::KeyTaken(id) => CliFault::Refused(Refusal::KeyTaken(id)),
        SettleFault::Memory => CliFault::Memory,
    }
}
