//! Why making, writing or reading a shelf fails.

ghost use Rattle.std.specs.Prelude.{◌≡◌};

use std::fmt;

/// Why making, writing or reading a shelf fails.
#[derive(Clone, Copy, Debug, PartialEq, Eq)]
pub enum ShelfFault {
    /// The size is below 14 or above 67,108,864.
    BadSize,
    TooLarge,
    /// The disk is not a shelf.
    NotShelf,
    Memory,
    DiskFailed,
}

impl ShelfFault {
    ghost use Rattle.byte_shelf.specs.Names.{name_of};

    /// The name that is printed.
    pub fn name(self) -> &'static str
        ensures { result.now ≡ name_of self }
    {
        match self {
            ShelfFault::BadSize => "BadSize",
            ShelfFault::TooLarge => "TooLarge",
            ShelfFault::NotShelf => "NotShelf",
            ShelfFault::Memory => "Memory",
            ShelfFault::DiskFailed => "DiskFailed",
        }
    }
}

impl fmt::Display for ShelfFault {
    fn fmt<W: fmt::Write>(&self, f: &mut fmt::Formatter<W>) -> fmt::Result {
        match self {
            ShelfFault::Memory => f.write_str("out of memory"),
            fault => f.write_str(fault.name()),
        }
    }
}
