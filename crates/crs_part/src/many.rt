//! Lists, which contracts see as their items.

ghost use Rattle.std.specs.Prelude.{◌≡◌, ◌++◌, ◌∷◌, [], List, IfOk, OnOk, OnErr, IfErr};

use crate::copies::TryClone;
use crate::same::Same;
use std::alloc::{AllocError, AllocFailed, Global};
use std::marker::Model;

/// Items in order.
#[derive(Drop)]
pub struct Many<T> {
    items: Vec<T>,
}

impl<T> Model for Many<T> {
    ghost Value = { List T };

    ghost view = { λ m. m.items.items };
}

impl<T> Many<T> {
    /// No items, without allocating.
    pub fn new(alloc: Global) -> Many<T>
        ensures { result ≡ [] }
    {
        Many {
            items: Vec::new(alloc),
        }
    }

    /// The items of a vector, which are not copied.
    pub fn from_vec(items: Vec<T>) -> Many<T>
        ensures { result ≡ items.items }
    {
        Many { items }
    }

    /// The items, in order.
    pub fn as_slice(&self) -> &[T]
        ensures { result.now ≡ self.now }
    {
        self.items.as_slice()
    }

    /// Reserves room for this many more items.
    pub fn reserve(&mut self, additional: usize) -> Result<(), AllocError>
        ensures { self.new ≡ self.old }
    {
        self.items.reserve(additional)
    }

    /// Appends an item. If the allocation fails, the item is returned.
    pub fn push(&mut self, item: T) -> Result<(), AllocFailed<T>>
        ensures ok { OnOk result (self.new ≡ self.old ++ item ∷ []) }
        ensures err { OnErr result (self.new ≡ self.old) }
        ensures given_back { IfErr result (λ refusal. refusal.value ≡ item) }
    {
        self.items.push(item)
    }
}

impl Many<u8> {
    /// A copy of some bytes.
    pub fn copied(alloc: Global, bytes: &[u8]) -> Result<Many<u8>, AllocError>
        ensures { IfOk result (λ copy. copy ≡ bytes.now) }
    {
        Ok(Many {
            items: Vec::from_slice(alloc, bytes)?,
        })
    }
}

impl<T: TryClone + Drop> TryClone for Many<T> {
    fn try_clone(&self, alloc: Global) -> Result<Many<T>, AllocError> {
        let mut copy = Many {
            items: Vec::with_capacity(alloc, self.items.len())?,
        };
        for item in self.as_slice() {
            copy.push(item.try_clone(alloc)?)?;
        }
        Ok(copy)
    }
}

impl<T: Same> Same for Many<T> {
    fn same(&self, other: &Many<T>) -> bool {
        let a = self.as_slice();
        let b = other.as_slice();
        if a.len() != b.len() {
            return false;
        }
        for i in 0..a.len() {
            if !a[i].same(&b[i]) {
                return false;
            }
        }
        true
    }
}

/// At least one item.
#[derive(Drop)]
pub struct NonEmpty<T> {
    pub first: T,
    pub others: Many<T>,
}

impl<T: TryClone + Drop> TryClone for NonEmpty<T> {
    fn try_clone(&self, alloc: Global) -> Result<NonEmpty<T>, AllocError> {
        Ok(NonEmpty {
            first: self.first.try_clone(alloc)?,
            others: self.others.try_clone(alloc)?,
        })
    }
}

impl<T: Same> Same for NonEmpty<T> {
    fn same(&self, other: &NonEmpty<T>) -> bool {
        self.first.same(&other.first) && self.others.same(&other.others)
    }
}
