//! Files of texts, of which one that is a file of crsreg gives only its first bytes.

ghost use Rattle.std.specs.Prelude.{◌≡◌, ◌≤◌, false, None, length};
ghost use Rattle.byte_io.specs.Device.{source_of};

use byte_io::{DeviceFault, LateSource, Log, Source, Tally};
use std::alloc::Global;

/// No more bytes than these come before the register in a file of crsreg, with its magic and its version.
const HEAD: usize = 64;

/// A file of texts. Where a file of crsreg begins in its first bytes, as a register, a piece, an office file or a shelf does, it ends
/// there: so it is one text, which is refused, and the texts of its entries are not read as texts to be entered.
#[derive(Drop)]
pub struct TextFile<S> {
    source: S,
    front: Vec<u8>,
    is_own: bool,
    given: Log,
    failures: Tally,
    ends: Tally,
}

impl<S: LateSource> TextFile<S> {
    /// The file. Nothing is opened yet.
    pub fn new(alloc: Global, source: S) -> TextFile<S>
        ensures source { result.source ≡ source }
        ensures fresh { ⟦<TextFile<S> as Source>⟧.state result ≡ source_of None }
        ensures own { result.is_own ≡ false }
    {
        TextFile {
            source,
            front: Vec::new(alloc),
            is_own: false,
            given: Log::empty(),
            failures: Tally::none(),
            ends: Tally::none(),
        }
    }

    /// Whether it is a file of crsreg, as far as it was read.
    pub fn is_own(&self) -> bool
        ensures { result ≡ self.now.is_own }
    {
        self.is_own
    }
}

impl<S: LateSource> Source for TextFile<S> {
    ghost state = { λ s. record {
      left = None;
      given = s.given.bytes;
      failures = s.failures.count;
      ends = s.ends.count;
    } };

    fn read_some(&mut self, buf: &mut [u8]) -> Result<usize, DeviceFault> {
        let read = if self.is_own {
            Ok(0)
        } else {
            self.source.read_some(buf)
        };
        match read {
            Ok(n) => {
                let kept = n - beyond(&mut self.front, &mut self.is_own, &buf[..n]);
                if kept == 0 && !buf.is_empty() {
                    self.ends = Tally::after(&self.ends);
                }
                self.given.note(&buf[..kept]);
                Ok(kept)
            }
            Err(fault) => {
                self.failures = Tally::after(&self.failures);
                Err(fault)
            }
        }
    }
}

impl<S: LateSource> LateSource for TextFile<S> {
    ghost shut = { λ s. S.shut s.source };

    ghost held = { λ s. S.held s.source };

    fn is_shut(&self) -> bool {
        self.source.is_shut()
    }

    fn close(&mut self) {
        self.source.close();
    }
}

// How many of these bytes, the next of a file, stand behind the version of a file of crsreg that begins there. `front` has the first
// bytes of the file.
fn beyond(front: &mut Vec<u8>, is_own: &mut bool, bytes: &[u8]) -> usize
    ensures { result ≤ length bytes.now }
{
    if front.len() >= HEAD {
        return 0;
    }
    let before = front.len();
    let more = bytes.len().min(HEAD - before);
    if front.extend_from_slice(&bytes[..more]).is_err() {
        return 0;
    }
    let Some(end) = version_end(front) else {
        return 0;
    };
    *is_own = true;
    bytes.len().saturating_sub(end.saturating_sub(before))
}

// Where the version of a register's file ends that begins among these bytes.
fn version_end(front: &[u8]) -> Option<usize> {
    for end in 5..front.len() + 1 {
        let (head, _) = front.split_at(end);
        if head.ends_with(b"CRSR\x01") || head.ends_with(b"CRSR\x02") {
            return Some(end);
        }
    }
    None
}
