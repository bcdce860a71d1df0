//! Copies of values that own memory.

ghost use Rattle.std.specs.Prelude.{◌≡◌, IfOk};

use crs_number::Decimal;
use std::alloc::{AllocError, Global};

/// A value that can be copied, if there is memory.
pub trait TryClone {
    fn try_clone(&self, alloc: Global) -> Result<Self, AllocError>
        ensures { IfOk result (λ copy. copy ≡ self.now) };
}

impl<T: TryClone + Drop> TryClone for Option<T> {
    fn try_clone(&self, alloc: Global) -> Result<Option<T>, AllocError> {
        match self {
            Some(value) => Ok(Some(value.try_clone(alloc)?)),
            None => Ok(None),
        }
    }
}

impl TryClone for Decimal {
    fn try_clone(&self, _alloc: Global) -> Result<Decimal, AllocError> {
        Ok(*self)
    }
}

// Copies several values at once. So no finished copy is held while another may fail, which would make the prover go through
// its variants.

pub(crate) fn two<A: TryClone + Drop, B: TryClone + Drop>(
    alloc: Global,
    first: &A,
    second: &B,
) -> Result<(A, B), AllocError>
    ensures { IfOk result (λ copies. (copies.0 ≡ first.now) × (copies.1 ≡ second.now)) }
{
    Ok((first.try_clone(alloc)?, second.try_clone(alloc)?))
}

pub(crate) fn three<A: TryClone + Drop, B: TryClone + Drop, C: TryClone + Drop>(
    alloc: Global,
    first: &A,
    second: &B,
    third: &C,
) -> Result<(A, B, C), AllocError>
    ensures { IfOk result (λ copies. (copies.0 ≡ first.now) × (copies.1 ≡ second.now) × (copies.2 ≡ third.now)) }
{
    Ok((
        first.try_clone(alloc)?,
        second.try_clone(alloc)?,
        third.try_clone(alloc)?,
    ))
}

pub(crate) fn four<A: TryClone + Drop, B: TryClone + Drop, C: TryClone + Drop, D: TryClone + Drop>(
    alloc: Global,
    first: &A,
    second: &B,
    third: &C,
    fourth: &D,
) -> Result<(A, B, C, D), AllocError>
    ensures { IfOk result (λ copies. (copies.0 ≡ first.now) × (copies.1 ≡ second.now) × (copies.2 ≡ third.now) × (copies.3 ≡ fourth.now)) }
{
    Ok((
        first.try_clone(alloc)?,
        second.try_clone(alloc)?,
        third.try_clone(alloc)?,
        fourth.try_clone(alloc)?,
    ))
}

pub(crate) fn five<
    A: TryClone + Drop,
    B: TryClone + Drop,
    C: TryClone + Drop,
    D: TryClone + Drop,
    E: TryClone + Drop,
>(
    alloc: Global,
    first: &A,
    second: &B,
    third: &C,
    fourth: &D,
    fifth: &E,
) -> Result<(A, B, C, D, E), AllocError>
    ensures { IfOk result (λ copies. (copies.0 ≡ first.now) × (copies.1 ≡ second.now) × (copies.2 ≡ third.now) × (copies.3 ≡ fourth.now) × (copies.4 ≡ fifth.now)) }
{
    Ok((
        first.try_clone(alloc)?,
        second.try_clone(alloc)?,
        third.try_clone(alloc)?,
        fourth.try_clone(alloc)?,
        fifth.try_clone(alloc)?,
    ))
}
