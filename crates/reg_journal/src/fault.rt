//! Why an office file is not read, and why a register is refused beside it.

use reg_op::OpId;

/// Why an office file cannot be read.
#[derive(Clone, Copy, Debug, PartialEq, Eq)]
pub enum OpenFault {
    /// Reading failed after this many bytes.
    ReadFailed(usize),
    /// It has more bytes than a file may have.
    TooLarge,
    /// The bytes are not an office file.
    NotOffice,
    Memory,
}

/// Why a register is refused beside an office file.
#[derive(Clone, Copy, Debug, PartialEq, Eq)]
pub enum AdmitFault {
    /// The register knows no number of the office, and one stood in a register: the last number that the office gave.
    Behind(OpId),
    /// Somebody else gave this number in the office's name.
    Forged(OpId),
    Memory,
}
