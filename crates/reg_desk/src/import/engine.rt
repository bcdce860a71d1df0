//! The command `import` on a register in a file or on a shelf.

ghost use Rattle.std.specs.Prelude.{◌≡◌, map, None, Some, OnOk, IfErr};
ghost use Rattle.reg_desk.specs.ImportEngines.{kept_in, tried_in, IsImported, IsUnimported};

use super::fault::Unimported;
use super::options::ImportOptions;
use super::ready::{ReadyImport, make_ready};
use super::room::HasRoom;
use super::telling::{keep_and_tell, tell};
use byte_io::{Sink, Source};
use reg_engine::Keep;
use std::alloc::Global;

// The answer of an import that is done: the fault of the texts that were passed over, if any were.
fn answer(passed: Option<Unimported>) -> Result<(), Unimported>
    ensures done { OnOk result (passed ≡ None) }
    ensures passed { IfErr result (λ u. passed ≡ Some u) }
{
    match passed {
        None => Ok(()),
        Some(why) => Err(why),
    }
}

/// Loads the register, and then reads the files of texts; imports the texts; keeps the register, and then writes a line for
/// each text to the sink. If texts were passed over, it then returns the fault of the first.
pub fn run_import<T: Keep, F: Source, K: Sink>(
    alloc: Global,
    store: &mut T,
    files: &mut [F],
    options: &ImportOptions<'_>,
    sink: &mut K,
) -> Result<(), Unimported>
    ensures same { T.same store.old store.new }
    ensures imported { OnOk result (IsImported (kept_in (T.around store.old store.new) (K.state sink.old) (K.state sink.new)) (T.admission store.old)
        options.now (T.next store.old) (map F.state files.old) (map F.state files.new)) }
    ensures fault { IfErr result (IsUnimported (kept_in (T.around store.old store.new) (K.state sink.old) (K.state sink.new)) (T.admission store.old)
        options.now (T.next store.old) (map F.state files.old) (map F.state files.new)) }
{
    let next = store.next();
    let register = match store.load(alloc) {
        Ok(register) => register,
        Err(fault) => return Err(Unimported::plain(alloc, fault)),
    };
    let ReadyImport {
        register,
        lines,
        passed,
    } = match make_ready(alloc, store, register, next, options, files) {
        Ok(ready) => ready,
        Err(why) => return Err(why),
    };
    if let Err(fault) = keep_and_tell(alloc, store, &register, &lines, sink) {
        return Err(Unimported::plain(alloc, fault));
    }
    match answer(passed) {
        Ok(()) => Ok(()),
        Err(why) => Err(why),
    }
}

/// The same without keeping the register: if the store has room for it, the lines are those of the import.
pub fn try_import<T: HasRoom, F: Source, K: Sink>(
    alloc: Global,
    store: &mut T,
    files: &mut [F],
    options: &ImportOptions<'_>,
    sink: &mut K,
) -> Result<(), Unimported>
    ensures same { T.same store.old store.new }
    ensures imported { OnOk result (IsImported (tried_in (T.around store.old store.new) (T.room store.old store.new) (K.state sink.old) (K.state sink.new)) (T.admission store.old)
        options.now (T.next store.old) (map F.state files.old) (map F.state files.new)) }
    ensures fault { IfErr result (IsUnimported (tried_in (T.around store.old store.new) (T.room store.old store.new) (K.state sink.old) (K.state sink.new)) (T.admission store.old)
        options.now (T.next store.old) (map F.state files.old) (map F.state files.new)) }
{
    let next = store.next();
    let register = match store.load(alloc) {
        Ok(register) => register,
        Err(fault) => return Err(Unimported::plain(alloc, fault)),
    };
    let ReadyImport {
        register,
        lines,
        passed,
    } = match make_ready(alloc, store, register, next, options, files) {
        Ok(ready) => ready,
        Err(why) => return Err(why),
    };
    if let Err(fault) = store.has_room(alloc, &register) {
        return Err(Unimported::plain(alloc, fault));
    }
    if let Err(fault) = tell(&lines, sink) {
        return Err(Unimported::plain(alloc, fault));
    }
    match answer(passed) {
        Ok(()) => Ok(()),
        Err(why) => Err(why),
    }
}
