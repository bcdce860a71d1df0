//! Sources of bytes.

ghost use Rattle.std.specs.Prelude.{◌≤◌, IfOk, length};
ghost use Rattle.std.specs.Io.KnownBytes.{ReadConsumes};
ghost use Rattle.byte_io.specs.Device.{SourceState, CountsFailure, CountsNone, Moves};

use crate::fault::DeviceFault;

/// Gives bytes, some at a time. `Ok(0)` for a buffer that is not empty means the end.
pub trait Source {
    /// The bytes that it will give, if they are known, those that it gave, and its counts.
    ghost state: { Self → SourceState };

    fn read_some(&mut self, buf: &mut [u8]) -> Result<usize, DeviceFault>
        ensures bound { IfOk result (λ n. n ≤ length buf.new) }
        ensures bytes { ReadConsumes (state self.old).left (state self.new).left result buf.new }
        ensures given { Moves result buf.new (state self.old).given (state self.new).given }
        ensures failure { CountsFailure result (state self.old).failures (state self.new).failures }
        ensures end { CountsNone result (length buf.new) (state self.old).ends (state self.new).ends };
}
