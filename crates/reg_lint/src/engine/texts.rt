//! Reads the texts of files.

ghost use Rattle.std.specs.Prelude.{◌≡◌, IfErr, OnOk};
ghost use Rattle.reg_lint.specs.EngineTexts.{Adds, IsTextsUnread, refused_in};

use crate::kept::KeptSubject;
use crate::texts::{Unread, push_texts};
use byte_io::Source;
use reg_engine::{CliFault, read_whole};
use std::alloc::Global;
use wkt_crs::DefinitionFault;

/// Why the texts of a file are not looked at.
#[derive(Clone, Copy, Debug, PartialEq, Eq)]
pub enum TextsFault {
    Cli(CliFault),
    /// A text of the file with this number spells no reference system, for this reason.
    Refused {
        fault: DefinitionFault,
        /// The offset in the file of the text's first byte.
        place: usize,
        /// The length of the text in bytes.
        len: usize,
        file: usize,
    },
}

/// Reads the file with this number and this name, and appends what is kept of its texts.
pub fn read_texts<S: Source>(
    alloc: Global,
    number: usize,
    name: &[u8],
    file: &mut S,
    kept: &mut Vec<KeptSubject>,
) -> Result<(), TextsFault>
    ensures ok { OnOk result (Adds name.now (S.state file.old) (S.state file.new) kept.old.items kept.new.items) }
    ensures fault { IfErr result (IsTextsUnread number (S.state file.old) (S.state file.new)) }
{
    let bytes = match read_whole(alloc, number, file) {
        Ok(bytes) => bytes,
        Err(fault) => return Err(TextsFault::Cli(fault)),
    };
    match push_texts(alloc, kept, name, &bytes) {
        Ok(()) => Ok(()),
        Err(why) => Err(refused_in(number, why)),
    }
}

fn refused_in(file: usize, why: Unread) -> TextsFault
    ensures { result ≡ refused_in file why }
{
    match why {
        Unread::Refused { fault, place, len } => TextsFault::Refused {
            fault: DefinitionFault::Read(fault),
            place,
            len,
            file,
        },
        Unread::Memory => TextsFault::Cli(CliFault::Memory),
    }
}
