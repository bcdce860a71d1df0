//! A store of a dry run, which notes the register that is loaded and the one that would be kept.
use crate::brought::NotedRegister;
use reg_desk::HasRoom;
use reg_engine::{CliFault, Store};
use reg_state::Register;
use std::alloc::Global;

/// A store that only tells whether it has room, with copies of the register that was loaded from it and of the one for which it had
/// room. A copy for which there was no memory is an `Err`.
#[derive(Drop)]
pub struct Tried<'a, T> {
    pub store: &'a mut T,
    pub loaded: NotedRegister,
    pub fitting: NotedRegister,
}

impl<T: Store> Store for Tried<'_, T> {
    ghost use Rattle.std.specs.Prelude.{◌≡◌};
    ghost use Rattle.std.proofs.Common.{◌∙◌};

    ghost around = { λ old. λ new. T.around old.store.now new.store.now };

    ghost next = { λ s. T.next s.store.now };

    ghost same = { λ old. λ new. (new.store.ghost_name ≡ old.store.ghost_name) × T.same old.store.now new.store.now };

    ghost admission = { λ s. T.admission s.store.now };

    ghost still = { λ a b c e f. (f.0 ∙ e.0, T.still a.store.now b.store.now c.store.now e.1 f.1) };

    fn next(&self) -> usize {
        self.store.next()
    }

    fn load(&mut self, alloc: Global) -> Result<Register, CliFault> {
        match self.store.load(alloc) {
            Ok(register) => {
                self.loaded = Some(register.try_clone(alloc));
                Ok(register)
            }
            Err(fault) => Err(fault),
        }
    }

    fn admit(&self, alloc: Global, register: Register) -> Result<Register, CliFault> {
        match self.store.admit(alloc, register) {
            Ok(register) => Ok(register),
            Err(fault) => Err(fault),
        }
    }
}

impl<T: HasRoom> HasRoom for Tried<'_, T> {
    ghost room = { λ old. λ new. T.room old.store.now new.store.now };

    fn has_room(&mut self, alloc: Global, register: &Register) -> Result<(), CliFault> {
        match self.store.has_room(alloc, register) {
            Ok(()) => {
                self.fitting = Some(register.try_clone(alloc));
                Ok(())
            }
            Err(fault) => Err(fault),
        }
    }
}
