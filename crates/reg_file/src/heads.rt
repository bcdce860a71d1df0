//! The head of every file, and the greatest length.

ghost use Rattle.std.specs.Prelude.{◌≡◌};
ghost use Rattle.reg_file.specs.Reading.{says_first, version_in};

/// The most bytes of a file.
pub const MAX_FILE: usize = 67_108_864;

/// The current version, which is written.
pub const VERSION: u8 = 2;

/// The previous version, which has no notes. It is read, and written on request.
pub const FIRST_VERSION: u8 = 1;

/// The kind of a register's file.
pub const REGISTER: u8 = 1;

/// The kind of a summary's file.
pub const SEEN: u8 = 2;

/// The kind of a piece's file.
pub const PIECE: u8 = 3;

fn says_first(bytes: &[u8]) -> bool
    ensures { result ≡ says_first bytes.now }
{
    match bytes.get(4) {
        Some(version) => *version == FIRST_VERSION,
        None => false,
    }
}

/// The version in which bytes are read: 1 if they say so, otherwise the current one.
pub fn version_in(bytes: &[u8]) -> u8
    ensures { result ≡ version_in bytes.now }
{
    if says_first(bytes) {
        return FIRST_VERSION;
    }
    VERSION
}
