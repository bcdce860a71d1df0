//! The bytes of files of texts.

ghost use Rattle.std.specs.Prelude.{map, IfOk, IfErr};
ghost use Rattle.reg_engine.specs.WholeFile.{Gives};
ghost use Rattle.reg_desk.specs.ImportFiles.{bytes_of, GiveAll, IsUnreadFile, AreUnread};

use byte_io::{InFault, Source, read_up_to};
use reg_engine::{CliFault, InputFault};
use reg_file::MAX_FILE;
use std::alloc::Global;

// The bytes of the file with this number, of which there are at most 67,108,864.
fn whole_file<F: Source>(alloc: Global, number: usize, file: &mut F) -> Result<Vec<u8>, CliFault>
    ensures gives { IfOk result (λ bytes. Gives (F.state file.old) (F.state file.new) bytes.items) }
    ensures fault { IfErr result (IsUnreadFile number (F.state file.old) (F.state file.new)) }
{
    match read_up_to(alloc, file, MAX_FILE + 1) {
        Ok(bytes) => {
            if bytes.len() > MAX_FILE {
                return Err(CliFault::File {
                    number,
                    fault: InputFault::TooLarge,
                });
            }
            Ok(bytes)
        }
        Err(InFault::ReadFailed(n)) => Err(CliFault::File {
            number,
            fault: InputFault::ReadFailed(n),
        }),
        Err(InFault::Memory) => Err(CliFault::Memory),
    }
}

/// The bytes of each file, in order; the first file has this number.
pub fn read_files<F: Source>(
    alloc: Global,
    first: usize,
    files: &mut [F],
) -> Result<Vec<Vec<u8>>, CliFault>
    ensures give { IfOk result (λ all. GiveAll (map F.state files.old) (map F.state files.new) (bytes_of all.items)) }
    ensures fault { IfErr result (AreUnread first (map F.state files.old) (map F.state files.new)) }
{
    let mut all = Vec::new(alloc);
    for i in 0..files.len() {
        let Some(number) = first.checked_add(i) else {
            return Err(CliFault::Memory);
        };
        if let Err(_) = all.reserve(1) {
            return Err(CliFault::Memory);
        }
        let bytes = match whole_file(alloc, number, &mut files[i]) {
            Ok(bytes) => bytes,
            Err(fault) => return Err(fault),
        };
        all.push_reserved(bytes);
    }
    Ok(all)
}
