//! Why an office file is not replaced.

use byte_out::ReplaceFault;
use thiserror::Error;

/// Why an office file was not replaced. It prints as the fault's name and its place.
#[derive(Clone, Copy, Debug, PartialEq, Eq, Error)]
pub enum OfficeFileFault {
    /// The new file could not be renamed.
    #[error("NotOpened")]
    NotOpened,
    /// It would exceed the limit. Nothing was written.
    #[error("TooLarge")]
    TooLarge,
    /// Exactly this many bytes were written. If all were, a sync failed.
    #[error("WriteFailed at {0}")]
    WriteFailed(usize),
}

/// Why a file was not replaced, if an office file is replaced before it.
#[derive(Clone, Copy, Debug, PartialEq, Eq)]
pub enum UnreplacedFault {
    /// The new file was not made ready. Both files are unchanged.
    Unready(ReplaceFault),
    /// The office file was not replaced, or a power cut may undo that. The file is unchanged.
    Unnoted(OfficeFileFault),
    /// The office file has its text. The new file did not get its name, or a power cut may undo that.
    Late(ReplaceFault),
}
