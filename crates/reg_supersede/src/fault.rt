//! Why a line is refused.

ghost use Rattle.std.specs.Prelude.{◌≡◌, true, false};
ghost use Rattle.reg_supersede.specs.Lists.{IsRefusal};

use reg_office::OfficeFault;
use reg_op::OpId;

/// A word of a line: the old entry, or one that supersedes it, by its index among these, from 0.
#[derive(Clone, Copy, Debug, PartialEq, Eq)]
pub enum LineWord {
    Old,
    By(usize),
}

/// Why a line is refused.
#[derive(Clone, Copy, Debug, PartialEq, Eq)]
pub enum LineFault {
    /// This word is not an id, and keys are not accepted; or it is the only one.
    BadId(LineWord),
    /// No entry has this key, or only retired ones.
    NoEntry(LineWord),
    /// Entries of this key that are not retired have several texts. This is the first with another text than the least of them.
    Several(LineWord, OpId),
    Office(OfficeFault),
    Memory,
}

impl LineFault {
    /// Whether memory ran out, which is not a refusal.
    pub fn is_memory(self) -> bool
        ensures memory { result ≡ true → ¬ (IsRefusal self) }
        ensures refusal { result ≡ false → IsRefusal self }
    {
        match self {
            LineFault::BadId(_) => false,
            LineFault::NoEntry(_) => false,
            LineFault::Several(..) => false,
            LineFault::Office(_) => false,
            LineFault::Memory => true,
        }
    }
}

/// A line that makes nothing: its number, from 1, and why.
#[derive(Clone, Copy, Debug, PartialEq, Eq)]
pub struct RefusedLine {
    pub line: usize,
    pub fault: LineFault,
}
