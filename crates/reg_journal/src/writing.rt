//! The text of an office file.

ghost use Rattle.std.specs.Prelude.{◌≡◌, ◌⊎◌, Err, IfOk, IfErr};
ghost use Rattle.reg_journal.specs.Text.{HoldsOffice, IsOfficeTooLarge, head_of, head_text};

use crate::head::{Head, put_head};
use crate::office_file::OfficeFile;
use reg_file::{MAX_FILE, WriteFileFault, write_bytes};
use std::alloc::{AllocError, Global};

impl OfficeFile {
    /// The text of the office file. One that exceeds the limit is reported.
    pub fn to_bytes(&self, alloc: Global) -> Result<Vec<u8>, WriteFileFault>
        ensures held { IfOk result (λ v. HoldsOffice v.items self.now) }
        ensures large { result ≡ Err WriteFileFault.TooLarge → IsOfficeTooLarge self.now }
        ensures memory { IfErr result (λ f. (f ≡ WriteFileFault.TooLarge) ⊎ (f ≡ WriteFileFault.Memory)) }
    {
        let _office = self.last();
        let file = match write_bytes(alloc, self.made()) {
            Ok(file) => file,
            Err(fault) => return Err(fault),
        };
        let Ok(mut text) = self.head(alloc) else {
            return Err(WriteFileFault::Memory);
        };
        if text.len() + file.len() > MAX_FILE {
            return Err(WriteFileFault::TooLarge);
        }
        match text.extend_from_slice(&file) {
            Ok(()) => Ok(text),
            Err(_) => Err(WriteFileFault::Memory),
        }
    }

    // Its two lines.
    fn head(&self, alloc: Global) -> Result<Vec<u8>, AllocError>
        ensures { IfOk result (λ v. v.items ≡ head_text (head_of self.now)) }
    {
        let mut text = Vec::new(alloc);
        let head = Head {
            replica: self.replica(),
            last: self.last(),
            stood: self.stood(),
        };
        put_head(&mut text, head)?;
        Ok(text)
    }
}
