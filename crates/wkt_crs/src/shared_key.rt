//! Keys that share the memory of their definitions.

ghost use Rattle.std.specs.Prelude.{◌≡◌};

use crate::definition::Body;
use crs_part::TryClone;
use crs_value::Key;
use std::alloc::{AllocError, Global};
use std::marker::Model;
use std::rc::Rc;

/// The key of a definition. It takes one pointer, and keeps the memory of the definition.
#[derive(Drop)]
pub struct SharedKey {
    pub(crate) body: Rc<Body>,
}

impl Model for SharedKey {
    ghost use Rattle.crs_value.specs.declared.key.Key.{Key};

    ghost Value = { Key };

    ghost view = { λ k. k.body.value.key };
}

impl SharedKey {
    /// The key.
    pub fn get(&self) -> &Key
        ensures { result.now ≡ self.now }
    {
        &self.body.key
    }
}

impl TryClone for SharedKey {
    fn try_clone(&self, alloc: Global) -> Result<SharedKey, AllocError> {
        // The key is shared, so the copy allocates nothing.
        let _ = alloc;
        let body = self.body.clone()?;
        Ok(SharedKey { body })
    }
}
