//! A store that notes the register which a command loads, and the one which it keeps.

ghost use Rattle.std.specs.Prelude.{◌≡◌, None, Ok};
ghost use Rattle.reg_op.specs.Contents.{Content};
ghost use Rattle.reg_news.specs.Watching.{IsNoted, Tells};

use crate::{News, news_of};
use reg_engine::{CliFault, Keep, Store};
use reg_state::Register;
use std::alloc::{AllocError, Global};

/// Copies of the register that was loaded from a store, and of the one that was kept in it. A copy for which there was no memory
/// is an `Err`: a command never fails for that.
#[derive(Drop)]
pub struct Notes {
    pub loaded: Option<Result<Register, AllocError>>,
    pub kept: Option<Result<Register, AllocError>>,
}

/// A store, and the notes of what was loaded from it and kept in it.
#[derive(Drop)]
pub struct Watched<'a, T> {
    pub store: &'a mut T,
    pub notes: &'a mut Notes,
}

fn note(alloc: Global, register: &Register) -> Option<Result<Register, AllocError>>
    ensures { IsNoted register.now result }
{
    Some(register.try_clone(alloc))
}

// What the later register has and the earlier one has not, unless memory ran out; nothing if none was kept.
fn news_between(
    alloc: Global,
    loaded: &Option<Result<Register, AllocError>>,
    kept: &Option<Result<Register, AllocError>>,
) -> Result<Option<News>, AllocError>
    ensures told { (x y : Content) → IsNoted x loaded.now → IsNoted y kept.now → Tells x y result }
    ensures none { kept.now ≡ None → result ≡ Ok None }
{
    let Some(kept) = kept else {
        return Ok(None);
    };
    let Some(loaded) = loaded else {
        return Ok(None);
    };
    let Ok(later) = kept else {
        return Err(AllocError);
    };
    let Ok(earlier) = loaded else {
        return Err(AllocError);
    };
    match news_of(alloc, earlier, later) {
        Ok(news) => Ok(Some(news)),
        Err(_) => Err(AllocError),
    }
}

impl Notes {
    /// No register was loaded or kept yet.
    pub fn none() -> Notes
        ensures loaded { result.loaded ≡ None }
        ensures kept { result.kept ≡ None }
    {
        Notes {
            loaded: None,
            kept: None,
        }
    }

    /// What the register that was kept has and the one that was loaded has not, unless memory ran out; nothing if none was kept.
    pub fn news(&self, alloc: Global) -> Result<Option<News>, AllocError>
        ensures told { (x y : Content) → IsNoted x self.now.loaded → IsNoted y self.now.kept → Tells x y result }
        ensures none { self.now.kept ≡ None → result ≡ Ok None }
    {
        news_between(alloc, &self.loaded, &self.kept)
    }
}

impl<T: Store> Store for Watched<'_, T> {
    ghost use Rattle.std.specs.Prelude.{◌≡◌};
    ghost use Rattle.std.proofs.Common.{◌∙◌};
    ghost use Rattle.reg_news.specs.Watching.{noting};

    ghost around = { λ old. λ new. noting (T.around old.store.now new.store.now)
        old.notes.now.kept new.notes.now.loaded new.notes.now.kept };

    ghost next = { λ s. T.next s.store.now };

    ghost same = { λ old. λ new. (new.store.ghost_name ≡ old.store.ghost_name) × (new.notes.ghost_name ≡ old.notes.ghost_name)
        × T.same old.store.now new.store.now };

    ghost admission = { λ s. T.admission s.store.now };

    ghost still = { λ a b c e f. (f.0 ∙ e.0, f.1 ∙ e.1, T.still a.store.now b.store.now c.store.now e.2 f.2) };

    fn next(&self) -> usize {
        self.store.next()
    }

    fn load(&mut self, alloc: Global) -> Result<Register, CliFault> {
        match self.store.load(alloc) {
            Ok(register) => {
                self.notes.loaded = note(alloc, &register);
                Ok(register)
            }
            Err(fault) => Err(fault),
        }
    }

    fn admit(&self, alloc: Global, register: Register) -> Result<Register, CliFault> {
        match self.store.admit(alloc, register) {
            Ok(register) => Ok(register),
            Err(fault) => Err(fault),
        }
    }
}

impl<T: Keep> Keep for Watched<'_, T> {
    fn keep(&mut self, alloc: Global, register: &Register) -> Result<(), CliFault> {
        match self.store.keep(alloc, register) {
            Ok(()) => {
                self.notes.kept = note(alloc, register);
                Ok(())
            }
            Err(fault) => Err(fault),
        }
    }
}
