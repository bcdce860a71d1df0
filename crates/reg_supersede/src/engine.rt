//! The command `supersede --from`.

ghost use Rattle.std.specs.Prelude.{◌≡◌, true, IfOk, IfErr};
ghost use Rattle.reg_engine.specs.Outputs.{id_lines};
ghost use Rattle.reg_supersede.specs.Lines.{lines};
ghost use Rattle.reg_supersede.specs.Lists.{DoesAll};
ghost use Rattle.reg_supersede.specs.Effects.{after, ids_of, CanMake, IsListFault};
ghost use Rattle.reg_supersede.specs.Engine.{task};

use crate::fault::{LineFault, RefusedLine};
use crate::lines::lines_of;
use crate::list::{Listed, all_lines, leave_out};
use crate::list_options::ListOptions;
use crate::naming::index_for;
use byte_io::Source;
use reg_engine::{Change, CliFault, Made, Refusal, id_lines, read_whole};
use reg_office::{Office, OfficeFault};
use reg_op::{Note, OpBody};
use reg_state::Register;
use std::alloc::Global;
use uuid::Uuid;

/// Reads a list after the register, and supersedes the entries of its lines as the replica, with the note. Pairs that are there already
/// are passed over. Where refused lines are left out, `refused` has them afterwards; otherwise it has the line that refuses the
/// command. A note that is too long refuses the command whatever the lines are. `text` has the bytes of the list afterwards.
#[derive(Drop)]
pub struct SupersedeFrom<'a, S> {
    pub list: &'a mut S,
    pub keys: bool,
    pub replica: Uuid,
    pub note: &'a str,
    pub keep_going: bool,
    pub refused: Vec<RefusedLine>,
    pub text: Vec<u8>,
}

const OUT_OF_MEMORY: RefusedLine = RefusedLine {
    line: 0,
    fault: LineFault::Memory,
};

// The effects of the list of these bytes.
fn planned(
    alloc: Global,
    register: &Register,
    keys: bool,
    replica: Uuid,
    note: &str,
    keep_going: bool,
    bytes: &[u8],
) -> Result<Listed, RefusedLine>
    ensures done { IfOk result (λ l. DoesAll (task replica note.now keys keep_going register.now) 1 register.now (lines bytes.now)
        (after (task replica note.now keys keep_going register.now) register.now l.bodies.items)
        (ids_of (task replica note.now keys keep_going register.now) register.now l.bodies.items) l.left.items) }
    ensures made { IfOk result (λ l. CanMake (task replica note.now keys keep_going register.now) register.now l.bodies.items) }
    ensures fault { IfErr result (IsListFault (task replica note.now keys keep_going register.now) register.now (lines bytes.now)) }
{
    let Ok(index) = index_for(alloc, register, keys) else {
        return Err(OUT_OF_MEMORY);
    };
    let Ok(lines) = lines_of(alloc, bytes) else {
        return Err(OUT_OF_MEMORY);
    };
    let options = ListOptions {
        register,
        index: &index,
        keys,
        replica,
        note,
        keep_going,
    };
    match all_lines(alloc, &options, &lines) {
        Ok(listed) => Ok(listed),
        Err(fault) => Err(fault),
    }
}

// The register after all effects, and the lines of the new ids.
fn made_of(
    alloc: Global,
    register: Register,
    replica: Uuid,
    note: &str,
    bodies: &[OpBody],
) -> Result<Made, CliFault>
    requires { CanMake (task replica note.now true true register) register bodies.now }
    ensures register { IfOk result (λ made. made.register ≡ after (task replica note.now true true register) register bodies.now) }
    ensures lines { IfOk result (λ made. made.lines.items ≡ id_lines (ids_of (task replica note.now true true register) register bodies.now)) }
    ensures fault { IfErr result (λ f. f ≡ CliFault.Memory) }
{
    let _content = register.seen();
    if bodies.is_empty() {
        return Ok(Made {
            register,
            lines: Vec::new(alloc),
        });
    }
    let mut office = Office::new(replica, register);
    let Ok(ids) = office.make(alloc, bodies, note) else {
        return Err(CliFault::Memory);
    };
    match id_lines(alloc, &ids) {
        Ok(lines) => Ok(Made {
            register: office.into_register(),
            lines,
        }),
        Err(_) => Err(CliFault::Memory),
    }
}

impl<S: Source> Change for SupersedeFrom<'_, S> {
    type Read = Vec<u8>;

    ghost use Rattle.std.specs.Prelude.{◌≡◌};
    ghost use Rattle.std.proofs.Common.{refl, ◌∙◌};
    ghost use Rattle.reg_engine.specs.WholeFile.{Gives, IsUnread};
    ghost use Rattle.reg_supersede.specs.Engine.{task, Supersedes, CannotSupersede};
    ghost use Rattle.reg_supersede.specs.Laws.{unread_is_refused};

    ghost reads = { λ old. λ new. λ next. λ x. λ r. (new.replica ≡ old.replica) × (new.note.now ≡ old.note.now) × (new.keys ≡ old.keys) × (new.keep_going ≡ old.keep_going)
        × (new.refused.items ≡ old.refused.items) × Gives (S.state old.list.now) (S.state new.list.now) r.items };

    ghost unmet = { λ old. λ new. λ next. λ x. λ f. IsUnread next (S.state old.list.now) (S.state new.list.now) f };

    ghost makes = { λ old. λ new. λ next. λ x. λ z. λ y. λ text. Supersedes (task old.replica old.note.now old.keys old.keep_going z) (S.state old.list.now) (S.state new.list.now) new.text.items z y text new.refused.items };

    ghost refuses = { λ old. λ new. λ next. λ x. λ z. λ f. CannotSupersede (task old.replica old.note.now old.keys old.keep_going z) next (S.state old.list.now) (S.state new.list.now) new.text.items z old.refused.items new.refused.items f };

    ghost same = { λ old. λ new. new.list.ghost_name ≡ old.list.ghost_name };

    ghost itself = { λ a. refl };

    ghost unread = { λ old. λ new. S.state new.list.now ≡ S.state old.list.now };

    ghost rests = { λ a. refl };

    ghost still = { λ a b c e f. f ∙ e };

    ghost stops = { λ a b n x z f h. unread_is_refused (task a.replica a.note.now a.keys a.keep_going z) n (S.state a.list.now) (S.state b.list.now) b.text.items z a.refused.items b.refused.items f h };

    fn read(
        &mut self,
        alloc: Global,
        next: usize,
        _register: &Register,
    ) -> Result<Vec<u8>, CliFault> {
        match read_whole(alloc, next, self.list) {
            Ok(bytes) => Ok(bytes),
            Err(fault) => Err(fault),
        }
    }

    fn make(
        &mut self,
        alloc: Global,
        _next: usize,
        read: Vec<u8>,
        register: Register,
    ) -> Result<Made, CliFault> {
        match self.done(alloc, &read, register) {
            Ok(made) => {
                self.text = read;
                Ok(made)
            }
            Err(fault) => {
                self.text = read;
                Err(fault)
            }
        }
    }
}

impl<S> SupersedeFrom<'_, S> {
    ghost use Rattle.std.specs.Prelude.{◌≡◌, IfOk, IfErr};
    ghost use Rattle.reg_supersede.specs.Engine.{task, DoesList, CannotDoList};

    // Supersedes the entries of the lines of a list of these bytes.
    fn done(&mut self, alloc: Global, list: &[u8], register: Register) -> Result<Made, CliFault>
        ensures made { IfOk result (λ made. DoesList (task self.old.replica self.old.note.now self.old.keys self.old.keep_going register) list.now register made.register made.lines.items self.new.refused.items) }
        ensures fault { IfErr result (λ f. CannotDoList (task self.old.replica self.old.note.now self.old.keys self.old.keep_going register) list.now register self.old.refused.items self.new.refused.items f) }
        ensures list { (self.new.list.now ≡ self.old.list.now) × (self.new.list.ghost_name ≡ self.old.list.ghost_name) }
    {
        if self.note.len() > Note::MAX {
            return Err(CliFault::Refused(Refusal::Office(OfficeFault::NoteTooLong)));
        }
        let planned = planned(
            alloc,
            &register,
            self.keys,
            self.replica,
            self.note,
            self.keep_going,
            list,
        );
        let Listed { bodies, left } = match planned {
            Ok(listed) => listed,
            Err(refused) => {
                if leave_out(true, &mut self.refused, refused).is_err() {
                    return Err(CliFault::Memory);
                }
                return Err(refused.cause());
            }
        };
        self.refused = left;
        match made_of(alloc, register, self.replica, self.note, &bodies) {
            Ok(made) => Ok(made),
            Err(fault) => Err(fault),
        }
    }
}
