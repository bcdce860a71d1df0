//! A source that records the bytes that it gives.

ghost use Rattle.std.specs.Prelude.{◌≡◌, true};

use byte_io::{DeviceFault, Log, Source};
use std::alloc::Global;

/// A source, with a record of the bytes that it gave as long as there is memory for it.
#[derive(Drop)]
pub struct Recorded<S> {
    source: S,
    bytes: Vec<u8>,
    is_whole: bool,
    given: Log,
    ghost kept: { is_whole ≡ true → bytes.items ≡ given.bytes },
}

impl<S: Source> Recorded<S> {
    ghost use Rattle.std.specs.Prelude.{◌≡◌, [], true, IfSome, IsSome, IsTrue};
    ghost use Rattle.wkt_explain.specs.Kept.{anew};

    /// The source, with an empty record.
    pub fn new(alloc: Global, source: S) -> Recorded<S>
        ensures state { ⟦<Recorded<S> as Source>⟧.state result ≡ anew (S.state source) }
        ensures whole { IsTrue result.is_whole }
    {
        Recorded {
            source,
            bytes: Vec::new(alloc),
            is_whole: true,
            given: Log::empty(),
        }
    }

    /// All bytes that it gave, if there was memory for them.
    pub fn bytes(&self) -> Option<&[u8]>
        ensures whole { IsTrue self.now.is_whole → IsSome result }
        ensures given { IfSome result (λ bytes. bytes.now ≡ (⟦<Recorded<S> as Source>⟧.state self.now).given) }
    {
        if !self.is_whole {
            return None;
        }
        Some(&self.bytes)
    }
}

impl<S: Source> Source for Recorded<S> {
    ghost state = { λ s. record {
      left = (S.state s.source).left;
      given = s.given.bytes;
      failures = (S.state s.source).failures;
      ends = (S.state s.source).ends;
    } };

    fn read_some(&mut self, buf: &mut [u8]) -> Result<usize, DeviceFault> {
        match self.source.read_some(buf) {
            Ok(n) => {
                let front = &buf[..n];
                if self.bytes.extend_from_slice(front).is_err() {
                    self.is_whole = false;
                }
                self.given.note(front);
                Ok(n)
            }
            Err(fault) => Err(fault),
        }
    }
}
