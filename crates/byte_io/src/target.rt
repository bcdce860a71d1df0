//! Sinks that are opened first, and publishing to them.

ghost use Rattle.std.specs.Prelude.{OnOk, IfErr};
ghost use Rattle.byte_io.specs.Device.{Opens};
ghost use Rattle.byte_io.specs.Publish.{Publishes, IsPublishFault};

use crate::fault::{NotOpened, PublishFault};
use crate::sink::Sink;
use crate::writing::write_all;

/// A sink that has to be opened first.
pub trait Target: Sink {
    fn open(&mut self) -> Result<(), NotOpened>
        ensures { Opens result (Self.state self.old) (Self.state self.new) };
}

/// Opens the target and writes all the bytes.
pub fn publish<T: Target>(target: &mut T, bytes: &[u8]) -> Result<(), PublishFault>
    ensures ok { OnOk result (Publishes bytes.now (T.state target.old) (T.state target.new)) }
    ensures fault { IfErr result
        (IsPublishFault bytes.now (T.state target.old) (T.state target.new)) }
{
    if target.open().is_err() {
        return Err(PublishFault::NotOpened);
    }
    match write_all(target, bytes) {
        Ok(()) => Ok(()),
        Err(fault) => Err(PublishFault::WriteFailed(fault.written)),
    }
}
