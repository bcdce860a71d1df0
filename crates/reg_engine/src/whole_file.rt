//! Reads a whole file.

ghost use Rattle.std.specs.Prelude.{IfOk, IfErr};
ghost use Rattle.reg_engine.specs.WholeFile.{Gives, IsUnread};

use crate::fault::{CliFault, InputFault};
use byte_io::{InFault, Source, read_up_to};
use reg_file::MAX_FILE;
use std::alloc::Global;

/// The bytes of the file with this number, of which there are at most 67,108,864.
pub fn read_whole<F: Source>(
    alloc: Global,
    number: usize,
    file: &mut F,
) -> Result<Vec<u8>, CliFault>
    ensures gives { IfOk result (λ bytes. Gives (F.state file.old) (F.state file.new) bytes.items) }
    ensures fault { IfErr result (IsUnread number (F.state file.old) (F.state file.new)) }
{
    match read_up_to(alloc, file, MAX_FILE + 1) {
        Ok(bytes) => {
            if bytes.len() > MAX_FILE {
                return Err(CliFault::File {
                    number,
                    fault: InputFault::TooLarge,
                });
            }
            Ok(bytes)
        }
        Err(InFault::ReadFailed(n)) => Err(CliFault::File {
            number,
            fault: InputFault::ReadFailed(n),
        }),
        Err(InFault::Memory) => Err(CliFault::Memory),
    }
}
