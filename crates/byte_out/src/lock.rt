//! Locks on open files. A lock ends with the program that took it, however that ends.

use std::fs::{File, TryLockError};

/// The result of asking for a lock.
#[derive(Clone, Copy, Debug, PartialEq, Eq)]
pub enum Lock {
    /// It was taken.
    Taken,
    /// Another program has one.
    Held,
    /// The file system has no locks.
    Missing,
}

/// An open file that can be locked. No call waits for another program.
pub trait Lockable {
    /// Takes an exclusive lock.
    fn lock_alone(&self) -> Lock;

    /// Takes a shared lock. Nobody holds it together with an exclusive one.
    fn lock_shared(&self) -> Lock;
}

impl Lockable for File {
    fn lock_alone(&self) -> Lock {
        lock_of(self.try_lock())
    }

    fn lock_shared(&self) -> Lock {
        lock_of(self.try_lock_shared())
    }
}

fn lock_of(locked: Result<(), TryLockError>) -> Lock {
    match locked {
        Ok(()) => Lock::Taken,
        Err(TryLockError::WouldBlock) => Lock::Held,
        Err(TryLockError::Error(_)) => Lock::Missing,
    }
}
