//! A store of one kind or of another.

use crate::fault::CliFault;
use crate::store::{Base, Keep, Store};
use reg_state::Register;
use std::alloc::Global;

/// A store of one kind or of another, as the command line says.
#[derive(Drop)]
pub enum Either<A, B> {
    One(A),
    Other(B),
}

impl<A: Store, B: Store> Store for Either<A, B> {
    ghost use Rattle.reg_engine.specs.Either.{of_either, admission_either, around_either, same_either, still_either};

    ghost around = { λ old. λ new. around_either A.around B.around old new };

    ghost next = { λ s. of_either A.next B.next s };

    ghost same = { λ old. λ new. same_either A.same B.same old new };

    ghost admission = { λ s. admission_either A.admission B.admission s };

    ghost still = { λ a b c. still_either A.same B.same A.still B.still a b c };

    fn next(&self) -> usize {
        match self {
            Either::One(store) => store.next(),
            Either::Other(store) => store.next(),
        }
    }

    fn load(&mut self, alloc: Global) -> Result<Register, CliFault> {
        match self {
            Either::One(store) => store.load(alloc),
            Either::Other(store) => store.load(alloc),
        }
    }

    fn admit(&self, alloc: Global, register: Register) -> Result<Register, CliFault> {
        match self {
            Either::One(store) => store.admit(alloc, register),
            Either::Other(store) => store.admit(alloc, register),
        }
    }
}

impl<A: Keep, B: Keep> Keep for Either<A, B> {
    fn keep(&mut self, alloc: Global, register: &Register) -> Result<(), CliFault> {
        match self {
            Either::One(store) => store.keep(alloc, register),
            Either::Other(store) => store.keep(alloc, register),
        }
    }
}

impl<A: Base, B: Base> Base for Either<A, B> {
    ghost use Rattle.reg_engine.specs.Either.{of_either};

    ghost kept = { λ s. of_either A.kept B.kept s };

    fn kept(&self) -> Result<Option<&[u8]>, CliFault> {
        match self {
            Either::One(store) => store.kept(),
            Either::Other(store) => store.kept(),
        }
    }
}
