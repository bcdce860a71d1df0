//! Sinks of bytes.

ghost use Rattle.std.specs.Prelude.{◌≡◌, ◌≤◌, Ok, IfOk, length};
ghost use Rattle.std.specs.Io.KnownBytes.{WriteAppends};
ghost use Rattle.byte_io.specs.Device.{SinkState, CountsFailure, CountsNone, Moves};

use crate::fault::DeviceFault;

/// Takes bytes, some at a time. Before it is opened, it takes none.
pub trait Sink {
    /// The bytes that it holds, if they are known, those that it took, and its counts.
    ghost state: { Self → SinkState };

    fn write_some(&mut self, buf: &[u8]) -> Result<usize, DeviceFault>
        ensures bound { IfOk result (λ n. n ≤ length buf.now) }
        ensures bytes { WriteAppends (state self.old).written (state self.new).written result buf.now }
        ensures taken { Moves result buf.now (state self.old).taken (state self.new).taken }
        ensures failure { CountsFailure result (state self.old).failures (state self.new).failures }
        ensures stall { CountsNone result (length buf.now)
            (state self.old).stalls (state self.new).stalls }
        ensures openings { (state self.new).openings ≡ (state self.old).openings }
        ensures closed { (state self.old).openings ≡ 0 → result ≡ Ok 0 };
}
