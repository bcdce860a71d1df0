//! A command of an office that has its effects once, also if it is run again after a stop.

ghost use Rattle.std.specs.Prelude.{◌≡◌, ◌-◌, [], IfOk, IfErr, IfSome};
ghost use Rattle.reg_state.specs.Runs.{ids_from};
ghost use Rattle.reg_engine.specs.Outputs.{id_lines};

use crate::again::effects::Effects;
use reg_engine::{Change, CliFault, Made, id_lines};
use reg_journal::OfficeFile;
use reg_op::OpId;
use reg_state::{Register, Seen};
use std::alloc::Global;
use uuid::Uuid;

/// A command of the office with this office file. If the office made its effects before, and the register that was loaded has not
/// got them, or would have a text twice, it makes nothing: the register, joined with all that the office made, has them.
#[derive(Drop)]
pub struct Once<'a, C> {
    pub command: C,
    pub office: &'a OfficeFile,
}

/// What a command has read, and the ids that the loaded register has seen.
#[derive(Drop)]
pub struct Noted<R> {
    pub seen: Seen,
    pub read: R,
}

impl<C: Effects> Change for Once<'_, C> {
    type Read = Noted<C::Read>;

    ghost use Rattle.std.specs.Prelude.{◌≡◌, ◌⊎◌};
    ghost use Rattle.std.proofs.Common.{refl, inl, ◌∙◌};
    ghost use Rattle.reg_engine.specs.declared.fault.CliFault.TheVariants as cli;
    ghost use Rattle.reg_commands.specs.Once.{IsNew, MakesOnce};

    ghost reads = { λ old. λ new. λ next. λ x. λ r. (new.office ≡ old.office) × (r.seen ≡ x.seen) × C.reads old.command new.command next x r.read };

    ghost unmet = { λ old. λ new. λ next. λ x. λ f. (f ≡ cli.Memory) ⊎ C.unmet old.command new.command next x f };

    ghost makes = { λ old. λ new. λ next. λ x. λ z. λ y. λ lines. (c : C) × (r : C.Read) × C.reads old.command c next x r
        × MakesOnce old.office.now (C.note c) (C.effects c r) (C.makes old.command new.command next x) x z y lines };

    ghost refuses = { λ old. λ new. λ next. λ x. λ z. λ f. ((f ≡ cli.Memory) ⊎ C.unmet old.command new.command next x f)
        ⊎ ((c : C) × (r : C.Read) × C.reads old.command c next x r × IsNew old.office.now (C.note c) (C.effects c r) x z
        × C.refuses old.command new.command next x z f) };

    ghost same = { λ old. λ new. C.same old.command new.command × (new.office ≡ old.office) };

    ghost itself = { λ a. (C.itself a.command, refl) };

    ghost unread = { λ old. λ new. C.unread old.command new.command };

    ghost rests = { λ a. C.rests a.command };

    ghost still = { λ a b c e f. (C.still a.command b.command c.command e.0 f.0, f.1 ∙ e.1) };

    ghost stops = { λ a b n x z f h. inl h };

    fn read(
        &mut self,
        alloc: Global,
        next: usize,
        register: &Register,
    ) -> Result<Noted<C::Read>, CliFault> {
        let read = match self.command.read(alloc, next, register) {
            Ok(read) => read,
            Err(fault) => return Err(fault),
        };
        match register.seen().try_clone(alloc) {
            Ok(seen) => Ok(Noted { seen, read }),
            Err(_) => Err(CliFault::Memory),
        }
    }

    fn make(
        &mut self,
        alloc: Global,
        next: usize,
        read: Noted<C::Read>,
        register: Register,
    ) -> Result<Made, CliFault> {
        let Noted { seen, read } = read;
        let Ok(effects) = self.command.effects(alloc, &read) else {
            return Err(CliFault::Memory);
        };
        let before = self
            .office
            .again(&seen, &register, self.command.note(), &effects);
        if let Some(first) = before {
            return made_before(alloc, register, self.office.replica(), first, effects.len());
        }
        match self.command.make(alloc, next, read, register) {
            Ok(made) => Ok(made),
            Err(fault) => Err(fault),
        }
    }
}

/// The register as it is, and the lines of the ids from this number on.
pub(crate) fn made_before(
    alloc: Global,
    register: Register,
    replica: Uuid,
    first: u32,
    count: usize,
) -> Result<Made, CliFault>
    ensures register { IfOk result (λ made. made.register ≡ register) }
    ensures lines { IfOk result (λ made. made.lines.items ≡ id_lines (ids_from replica first count)) }
    ensures memory { IfErr result (λ f. f ≡ CliFault.Memory) }
{
    let Some(ids) = ids_from(alloc, replica, first, count) else {
        return Err(CliFault::Memory);
    };
    match id_lines(alloc, &ids) {
        Ok(lines) => Ok(Made { register, lines }),
        Err(_) => Err(CliFault::Memory),
    }
}

// So many ids of a replica from this number on; none if there is no memory for them.
#[tactic(auto, using(crate::proofs::IdLemmas::one_more))]
fn ids_from(alloc: Global, replica: Uuid, first: u32, count: usize) -> Option<Vec<OpId>>
    ensures { IfSome result (λ ids. ids.items ≡ ids_from replica first count) }
{
    let mut ids = Vec::new(alloc);
    for i in 0..count {
        let Ok(offset) = u32::try_from(i) else {
            return None;
        };
        let id = OpId::new(replica, first.checked_add(offset)?)?;
        if ids.push(id).is_err() {
            return None;
        }
    }
    Some(ids)
}
