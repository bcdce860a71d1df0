//! Boxed values, which contracts see as the value.

ghost use Rattle.std.specs.Prelude.{◌≡◌, IfOk};

use crate::copies::TryClone;
use crate::same::Same;
use std::alloc::{AllocError, Global};
use std::marker::Model;

/// A boxed value: moving it does not move its bytes.
pub struct Boxed<T> {
    inner: Box<T>,
}

impl<T> Model for Boxed<T> {
    ghost Value = { T };

    ghost view = { λ b. b.inner.value };
}

impl<T: Drop> Drop for Boxed<T> {
    fn drop(self) {
        let Boxed { inner } = self;
        drop(inner);
    }
}

impl<T> Boxed<T> {
    /// The value inside.
    pub fn get(&self) -> &T
        ensures { result.now ≡ self.now }
    {
        &self.inner
    }
}

impl<T: Drop> Boxed<T> {
    /// Boxes a value. If the allocation fails, the value is dropped.
    pub fn new(alloc: Global, value: T) -> Result<Boxed<T>, AllocError>
        ensures { IfOk result (λ boxed. boxed ≡ value) }
    {
        match Box::new(alloc, value) {
            Ok(inner) => Ok(Boxed { inner }),
            Err(_) => Err(AllocError),
        }
    }
}

impl<T: TryClone + Drop> TryClone for Boxed<T> {
    fn try_clone(&self, alloc: Global) -> Result<Boxed<T>, AllocError> {
        let copy = self.get().try_clone(alloc)?;
        Boxed::new(alloc, copy)
    }
}

impl<T: Same> Same for Boxed<T> {
    fn same(&self, other: &Boxed<T>) -> bool {
        self.get().same(other.get())
    }
}
