//! Where a place gets its systems.

ghost use Rattle.std.specs.Prelude.{◌≡◌, [], IfOk};
ghost use Rattle.byte_system.specs.System.{calls};

use byte_system::{HostSystem, System};
use std::alloc::{AllocError, Global};

/// Gives systems. Each makes the calls of a process of its own, and has made none yet.
pub trait SystemSource<S: System> {
    fn system(&self) -> Result<S, AllocError>
        ensures { IfOk result (λ s. calls (S.state s) ≡ []) };

    /// One for the last attempt of a command that has waited.
    fn after_waiting(&self) -> Result<S, AllocError>
        ensures { IfOk result (λ s. calls (S.state s) ≡ []) };
}

/// Gives the files of the system.
#[derive(Drop)]
pub struct HostSystems<'a> {
    alloc: Global,
    rt: &'a HostRuntime,
}

impl<'a> HostSystems<'a> {
    pub fn new(alloc: Global, rt: &'a HostRuntime) -> HostSystems<'a>
        ensures rt { result.rt ≡ rt.entry }
    {
        HostSystems { alloc, rt }
    }
}

impl<'a> SystemSource<HostSystem<'a>> for HostSystems<'a> {
    fn system(&self) -> Result<HostSystem<'a>, AllocError> {
        HostSystem::new(self.alloc, self.rt)
    }

    fn after_waiting(&self) -> Result<HostSystem<'a>, AllocError> {
        HostSystem::after_waiting(self.alloc, self.rt)
    }
}
