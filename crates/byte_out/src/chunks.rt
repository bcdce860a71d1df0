//! The bytes of a file that is written, some at a time.

ghost use Rattle.std.specs.Prelude.{◌≡◌, ◌<◌, ◌++◌, ℕ, List, [], length, true, false};

/// The bytes of a file, one chunk after another. So it can be written while no more of it than a chunk is in memory.
pub trait Chunks {
    /// All the bytes.
    ghost bytes: { Self → List ℕ };

    /// The bytes that are still to come.
    ghost left: { Self → List ℕ };

    /// The chunk that came last.
    ghost last: { Self → List ℕ };

    /// How many bytes there are.
    fn len(&self) -> usize
        ensures { result ≡ length (bytes self.now) };

    /// Begins again: all the bytes are to come.
    fn restart(&mut self)
        ensures bytes { bytes self.new ≡ bytes self.old }
        ensures left { left self.new ≡ bytes self.old };

    /// Makes the next chunk, and says whether there was one. A chunk has at least one byte.
    fn advance(&mut self) -> bool
        ensures bytes { bytes self.new ≡ bytes self.old }
        ensures next { left self.old ≡ last self.new ++ left self.new }
        ensures some { result ≡ true → 0 < length (last self.new) }
        ensures end { result ≡ false → left self.old ≡ [] };

    /// The chunk that came last.
    fn chunk(&self) -> &[u8]
        ensures { result.now ≡ last self.now };
}

/// Bytes that are in memory, in one chunk.
#[derive(Drop)]
pub struct InOne<'a> {
    bytes: &'a [u8],
    left: &'a [u8],
    last: &'a [u8],
}

impl<'a> InOne<'a> {
    /// These bytes. All of them are to come.
    pub fn new(bytes: &'a [u8]) -> InOne<'a>
        ensures bytes { ⟦<InOne<'a> as Chunks>⟧.bytes result ≡ bytes.entry.now }
    {
        InOne {
            bytes,
            left: bytes,
            last: &[],
        }
    }
}

impl Chunks for InOne<'_> {
    ghost bytes = { λ s. s.bytes.now };

    ghost left = { λ s. s.left.now };

    ghost last = { λ s. s.last.now };

    fn len(&self) -> usize {
        self.bytes.len()
    }

    fn restart(&mut self) {
        self.left = self.bytes;
    }

    fn advance(&mut self) -> bool {
        self.last = self.left;
        self.left = &[];
        !self.last.is_empty()
    }

    fn chunk(&self) -> &[u8] {
        self.last
    }
}
