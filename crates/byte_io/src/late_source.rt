//! Sources that are opened at their first read.

use crate::source::Source;

/// A source that is opened at its first read. If it does not open, that read fails.
pub trait LateSource: Source {
    ghost use Rattle.std.specs.Prelude.{◌≡◌, Bool, false};

    /// Whether the first read failed to open it.
    ghost shut: { Self → Bool };

    /// Whether it is open, and has a descriptor.
    ghost held: { Self → Bool };

    /// Whether the first read failed to open it.
    fn is_shut(&self) -> bool
        ensures { result ≡ shut self.now };

    /// Closes it, and frees its descriptor. The bytes that it gave are unchanged.
    fn close(&mut self)
        ensures gave { Self.state self.new ≡ Self.state self.old }
        ensures shut { shut self.new ≡ shut self.old }
        ensures closed { held self.new ≡ false };
}
