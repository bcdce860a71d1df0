//! Commands of an office: entries are entered, superseded and retired.

ghost use Rattle.std.specs.Prelude.{◌≡◌, ◌∷◌, [], IfOk, IfErr};
ghost use Rattle.reg_op.specs.declared.operation.OpBody.TheVariants as body;
ghost use Rattle.reg_office.specs.Commands.{retirements, supersessions};
ghost use Rattle.reg_engine.specs.Outputs.{id_lines};
ghost use Rattle.reg_commands.specs.Change.{Makes, CannotMake};

use byte_io::Source;
use reg_engine::{Change, CliFault, Made, id_lines};
use reg_office::Office;
use reg_op::OpId;
use reg_state::Register;
use std::alloc::Global;
use uuid::Uuid;
use wkt_crs::{Definition, define_from};

/// Retires entries as the replica, with the note.
#[derive(Drop)]
pub struct Retire<'a> {
    pub replica: Uuid,
    pub entries: &'a [OpId],
    pub note: &'a str,
}

impl Change for Retire<'_> {
    type Read = ();

    ghost use Rattle.std.specs.Prelude.{◌≡◌};
    ghost use Rattle.std.proofs.Common.{refl, ◌∙◌};
    ghost use Rattle.reg_office.specs.Commands.{retirements};
    ghost use Rattle.reg_commands.specs.Change.{Makes, CannotMake};

    ghost reads = { λ old. λ new. λ next. λ x. λ r. new ≡ old };

    ghost unmet = { λ old. λ new. λ next. λ x. λ f. ⊥ };

    ghost makes = { λ old. λ new. λ next. λ x. λ z. λ y. λ lines. Makes old.replica old.note.now (retirements old.entries.now) z y lines };

    ghost refuses = { λ old. λ new. λ next. λ x. λ z. λ f. CannotMake old.replica old.note.now (retirements old.entries.now) z f };

    ghost same = { λ old. λ new. Unit {0} };

    ghost itself = { λ a. tt };

    ghost unread = { λ old. λ new. Unit {0} };

    ghost rests = { λ a. tt };

    ghost still = { λ a b c e f. tt };

    ghost stops = { λ a b n x z f h. absurd h };

    fn read(&mut self, _alloc: Global, _next: usize, _register: &Register) -> Result<(), CliFault> {
        Ok(())
    }

    fn make(
        &mut self,
        alloc: Global,
        _next: usize,
        _read: (),
        register: Register,
    ) -> Result<Made, CliFault> {
        match retired(alloc, register, self.replica, self.entries, self.note) {
            Ok(made) => Ok(made),
            Err(fault) => Err(fault),
        }
    }
}

/// The register after the replica has retired the entries, with the note, and the lines of the new ids.
pub fn retired(
    alloc: Global,
    register: Register,
    replica: Uuid,
    entries: &[OpId],
    note: &str,
) -> Result<Made, CliFault>
    ensures made { IfOk result (λ made. Makes replica note.now (retirements entries.now) register made.register made.lines.items) }
    ensures fault { IfErr result (λ f. CannotMake replica note.now (retirements entries.now) register f) }
{
    let mut office = Office::new(replica, register);
    let ids = match office.retire(alloc, entries, note) {
        Ok(ids) => ids,
        Err(fault) => return Err(CliFault::of_office(fault)),
    };
    match made_by(alloc, office, &ids) {
        Ok(made) => Ok(made),
        Err(fault) => Err(fault),
    }
}

/// Supersedes an old entry by newer ones as the replica, with the note.
#[derive(Drop)]
pub struct Supersede<'a> {
    pub replica: Uuid,
    pub old: OpId,
    pub newer: &'a [OpId],
    pub note: &'a str,
}

impl Change for Supersede<'_> {
    type Read = ();

    ghost use Rattle.std.specs.Prelude.{◌≡◌};
    ghost use Rattle.reg_office.specs.Commands.{supersessions};
    ghost use Rattle.reg_commands.specs.Change.{Makes, CannotMake};

    ghost reads = { λ old. λ new. λ next. λ x. λ r. new ≡ old };

    ghost unmet = { λ old. λ new. λ next. λ x. λ f. ⊥ };

    ghost makes = { λ old. λ new. λ next. λ x. λ z. λ y. λ lines. Makes old.replica old.note.now (supersessions old.old old.newer.now) z y lines };

    ghost refuses = { λ old. λ new. λ next. λ x. λ z. λ f. CannotMake old.replica old.note.now (supersessions old.old old.newer.now) z f };

    ghost same = { λ old. λ new. Unit {0} };

    ghost itself = { λ a. tt };

    ghost unread = { λ old. λ new. Unit {0} };

    ghost rests = { λ a. tt };

    ghost still = { λ a b c e f. tt };

    ghost stops = { λ a b n x z f h. absurd h };

    fn read(&mut self, _alloc: Global, _next: usize, _register: &Register) -> Result<(), CliFault> {
        Ok(())
    }

    fn make(
        &mut self,
        alloc: Global,
        _next: usize,
        _read: (),
        register: Register,
    ) -> Result<Made, CliFault> {
        match superseded(
            alloc,
            register,
            self.replica,
            self.old,
            self.newer,
            self.note,
        ) {
            Ok(made) => Ok(made),
            Err(fault) => Err(fault),
        }
    }
}

/// The register after the replica has superseded the old entry by the newer ones, with the note, and the lines of the new ids.
pub fn superseded(
    alloc: Global,
    register: Register,
    replica: Uuid,
    old: OpId,
    newer: &[OpId],
    note: &str,
) -> Result<Made, CliFault>
    ensures made { IfOk result (λ made. Makes replica note.now (supersessions old newer.now) register made.register made.lines.items) }
    ensures fault { IfErr result (λ f. CannotMake replica note.now (supersessions old newer.now) register f) }
{
    let mut office = Office::new(replica, register);
    let ids = match office.supersede(alloc, old, newer, note) {
        Ok(ids) => ids,
        Err(fault) => return Err(CliFault::of_office(fault)),
    };
    match made_by(alloc, office, &ids) {
        Ok(made) => Ok(made),
        Err(fault) => Err(fault),
    }
}

/// Reads a text after the register, and enters its value as the replica, with the note.
#[derive(Drop)]
pub struct Enter<'a, X> {
    pub replica: Uuid,
    pub text: &'a mut X,
    pub note: &'a str,
}

impl<X: Source> Change for Enter<'_, X> {
    type Read = Definition;

    ghost use Rattle.std.specs.Prelude.{◌≡◌};
    ghost use Rattle.std.proofs.Common.{refl, ◌∙◌};
    ghost use Rattle.wkt_crs.specs.Source.{FindsDefinition};
    ghost use Rattle.reg_commands.specs.Change.{Enters, CannotDefine, CannotEnter};
    ghost use Rattle.reg_commands.specs.ChangeLaws.{undefined_is_unentered};

    ghost reads = { λ old. λ new. λ next. λ x. λ r. (new.replica ≡ old.replica) × (new.note.now ≡ old.note.now) × FindsDefinition (X.state old.text.now) (X.state new.text.now) r };

    ghost unmet = { λ old. λ new. λ next. λ x. λ f. CannotDefine next (X.state old.text.now) (X.state new.text.now) f };

    ghost makes = { λ old. λ new. λ next. λ x. λ z. λ y. λ lines. Enters old.replica old.note.now (X.state old.text.now) (X.state new.text.now) z y lines };

    ghost refuses = { λ old. λ new. λ next. λ x. λ z. λ f. CannotEnter old.replica old.note.now next (X.state old.text.now) (X.state new.text.now) z f };

    ghost same = { λ old. λ new. new.text.ghost_name ≡ old.text.ghost_name };

    ghost itself = { λ a. refl };

    ghost unread = { λ old. λ new. X.state new.text.now ≡ X.state old.text.now };

    ghost rests = { λ a. refl };

    ghost still = { λ a b c e f. f ∙ e };

    ghost stops = { λ a b n x z f h. undefined_is_unentered a.replica a.note.now n (X.state a.text.now) (X.state b.text.now) z f h };

    fn read(
        &mut self,
        alloc: Global,
        next: usize,
        _register: &Register,
    ) -> Result<Definition, CliFault> {
        match define_from(alloc, self.text) {
            Ok(definition) => Ok(definition),
            Err(fault) => Err(CliFault::of_definition(next, fault)),
        }
    }

    fn make(
        &mut self,
        alloc: Global,
        _next: usize,
        read: Definition,
        register: Register,
    ) -> Result<Made, CliFault> {
        match entered(alloc, register, self.replica, read, self.note) {
            Ok(made) => Ok(made),
            Err(fault) => Err(fault),
        }
    }
}

// The register after the replica has entered the definition, with the note, and the line of the new id.
fn entered(
    alloc: Global,
    register: Register,
    replica: Uuid,
    definition: Definition,
    note: &str,
) -> Result<Made, CliFault>
    ensures made { IfOk result (λ made. Makes replica note.now (body.Enter definition ∷ []) register made.register made.lines.items) }
    ensures fault { IfErr result (λ f. CannotMake replica note.now (body.Enter definition ∷ []) register f) }
{
    let mut office = Office::new(replica, register);
    let id = match office.enter(definition, note) {
        Ok(id) => id,
        Err(fault) => return Err(CliFault::of_office(fault)),
    };
    match made_by(alloc, office, &[id]) {
        Ok(made) => Ok(made),
        Err(fault) => Err(fault),
    }
}

// The office's register, and the lines of the new ids.
fn made_by(alloc: Global, office: Office, ids: &[OpId]) -> Result<Made, CliFault>
    ensures made { IfOk result (λ made. (made.register ≡ office.register) × (made.lines.items ≡ id_lines ids.now)) }
    ensures fault { IfErr result (λ f. f ≡ CliFault.Memory) }
{
    match id_lines(alloc, ids) {
        Ok(lines) => Ok(Made {
            register: office.into_register(),
            lines,
        }),
        Err(_) => Err(CliFault::Memory),
    }
}
