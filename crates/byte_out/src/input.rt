//! The sources of a command. One of them may be the file that the command replaces.

ghost use Rattle.std.specs.Prelude.{◌≡◌, ◌≤◌, Bool, true, false, IfOk, length, map, option_map};
ghost use Rattle.std.specs.Io.KnownBytes.{ReadConsumes};
ghost use Rattle.byte_io.specs.Device.{Moves, CountsFailure, CountsNone};
ghost use Rattle.byte_out.specs.Input.{kept_of, first_kept, anew};

use byte_io::{DeviceFault, Log, Pieces, Reading, Source};
use std::alloc::{AllocError, Global};
use std::io::Read;

/// A source of a command. It keeps what it gives if it is the file that the command replaces.
pub trait Input: Source {
    /// Whether it keeps the bytes that it gives.
    ghost keeps: { Self → Bool };

    /// The bytes that it gave, if it keeps them. It fails if there was no memory to keep them.
    fn kept(&self) -> Result<Option<&[u8]>, AllocError>
        ensures { IfOk result (λ b. option_map (λ s. s.now) b ≡ kept_of (keeps self.now) (Self.Source.state self.now)) };
}

/// The bytes kept by the first source that keeps any.
pub fn first_kept<S: Input>(sources: &[S]) -> Result<Option<&[u8]>, AllocError>
    ensures { IfOk result (λ b. option_map (λ s. s.now) b ≡ first_kept (map (λ s. kept_of (S.keeps s) (S.state s)) sources.now)) }
{
    for source in sources {
        match source.kept() {
            Ok(None) => {}
            Ok(Some(bytes)) => return Ok(Some(bytes)),
            Err(fault) => return Err(fault),
        }
    }
    Ok(None)
}

/// A source that may keep the bytes that it gives.
#[derive(Drop)]
pub struct InputOf<S> {
    source: S,
    keeps: bool,
    bytes: Vec<u8>,
    is_whole: bool,
    given: Log,
    ghost kept: { is_whole ≡ true → bytes.items ≡ given.bytes },
}

impl<S: Source> InputOf<S> {
    /// The source. If `keeps`, it keeps the bytes that it gives from now on.
    pub fn new(alloc: Global, source: S, keeps: bool) -> InputOf<S>
        ensures state { ⟦<InputOf<S> as Source>⟧.state result ≡ anew (S.state source) }
        ensures keeps { ⟦<InputOf<S> as Input>⟧.keeps result ≡ keeps }
    {
        InputOf {
            source,
            keeps,
            bytes: Vec::new(alloc),
            is_whole: true,
            given: Log::empty(),
        }
    }
}

impl<S: Source> Source for InputOf<S> {
    ghost state = { λ s. record {
      left = (S.state s.source).left;
      given = s.given.bytes;
      failures = (S.state s.source).failures;
      ends = (S.state s.source).ends;
    } };

    // Whether it keeps its bytes stays the same: otherwise a command could skip the comparison with the file that it read.
    fn read_some(&mut self, buf: &mut [u8]) -> Result<usize, DeviceFault>
        ensures bound { IfOk result (λ n. n ≤ length buf.new) }
        ensures bytes { ReadConsumes (⟦<InputOf<S> as Source>⟧.state self.old).left (⟦<InputOf<S> as Source>⟧.state self.new).left result buf.new }
        ensures given { Moves result buf.new (⟦<InputOf<S> as Source>⟧.state self.old).given (⟦<InputOf<S> as Source>⟧.state self.new).given }
        ensures failure { CountsFailure result (⟦<InputOf<S> as Source>⟧.state self.old).failures (⟦<InputOf<S> as Source>⟧.state self.new).failures }
        ensures end { CountsNone result (length buf.new) (⟦<InputOf<S> as Source>⟧.state self.old).ends (⟦<InputOf<S> as Source>⟧.state self.new).ends }
        ensures keeps { self.new.keeps ≡ self.old.keeps }
    {
        match self.source.read_some(buf) {
            Ok(n) => {
                let front = &buf[..n];
                if !self.keeps || self.bytes.extend_from_slice(front).is_err() {
                    self.is_whole = false;
                }
                self.given.note(front);
                Ok(n)
            }
            Err(fault) => Err(fault),
        }
    }
}

impl<S: Source> Input for InputOf<S> {
    ghost keeps = { λ s. s.keeps };

    fn kept(&self) -> Result<Option<&[u8]>, AllocError> {
        if !self.keeps {
            return Ok(None);
        }
        if !self.is_whole {
            return Err(AllocError);
        }
        Ok(Some(&self.bytes))
    }
}

impl<R: Read> Input for Reading<R> {
    ghost keeps = { λ s. false };

    fn kept(&self) -> Result<Option<&[u8]>, AllocError> {
        Ok(None)
    }
}

impl Input for Pieces<'_> {
    ghost keeps = { λ s. false };

    fn kept(&self) -> Result<Option<&[u8]>, AllocError> {
        Ok(None)
    }
}
