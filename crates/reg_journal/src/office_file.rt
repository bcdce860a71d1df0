//! An office file: what an office made.

ghost use Rattle.std.specs.Prelude.{◌≡◌, ◌<◌, length, All};
ghost use Rattle.reg_journal.specs.Journal.{fresh, IsOffice};

use reg_state::Register;
use std::alloc::Global;
use std::marker::Model;
use uuid::Uuid;

/// What an office file has: the office's UUID, the last number that it gave, the greatest of its numbers that is known to have stood
/// in a register, and the register of all operations that it made.
#[derive(Drop)]
pub struct OfficeFile {
    pub(crate) replica: Uuid,
    pub(crate) last: u32,
    pub(crate) stood: u32,
    pub(crate) made: Register,
}

impl Model for OfficeFile {
    ghost use Rattle.reg_journal.specs.Journal.{Journal, IsOffice, journal_code};

    ghost Value = { Journal };

    ghost coded = { journal_code };

    ghost view = { λ f. record { replica = f.replica; last = f.last; stood = f.stood; made = f.made } };

    ghost invariant = { λ f. IsOffice (record { replica = f.replica; last = f.last; stood = f.stood; made = f.made }) };
}

impl OfficeFile {
    /// The file of an office that made nothing.
    pub fn new(alloc: Global, replica: Uuid) -> OfficeFile
        ensures { result ≡ fresh replica }
    {
        bytes_fit(replica.as_bytes());
        let made = Register::new(alloc);
        let _content = made.seen();
        OfficeFile {
            replica,
            last: 0,
            stood: 0,
            made,
        }
    }

    /// The office.
    pub fn replica(&self) -> Uuid
        ensures { result ≡ self.now.replica }
    {
        self.replica
    }

    /// The last number that it gave, or 0.
    pub fn last(&self) -> u32
        ensures value { result ≡ self.now.last }
        ensures office { IsOffice self.now }
    {
        self.last
    }

    /// The greatest of its numbers that is known to have stood in a register, or 0.
    pub fn stood(&self) -> u32
        ensures { result ≡ self.now.stood }
    {
        self.stood
    }

    /// The register of all operations that it made.
    pub fn made(&self) -> &Register
        ensures { result.now ≡ self.now.made }
    {
        &self.made
    }
}

/// Each byte is below 256, which a clause cannot say of an array. This loop reads them, and is compiled away.
#[inline]
pub(crate) fn bytes_fit(bytes: &[u8; 16])
    ensures { (length bytes.now ≡ 16) × All (λ b. b < 256) bytes.now }
{
    'bytes: for i in 0..16 {
        let _ = bytes[i];
    }
}
