//! Loads the register to which files are joined, and reads the files.

ghost use Rattle.std.specs.Prelude.{map, IfOk, IfErr};
ghost use Rattle.reg_engine.specs.Store.{Admits};
ghost use Rattle.reg_take.specs.Files.{file_state};
ghost use Rattle.reg_take.specs.Take.{IsBarred};
ghost use Rattle.reg_take.specs.Engines.{IsLoaded, IsUnloaded};

use crate::files::{Arrival, FileGifts, arrivals};
use crate::options::TakeOptions;
use byte_io::LateSource;
use reg_engine::{CliFault, Store};
use reg_op::OpId;
use reg_state::Register;
use std::alloc::Global;

/// The register that a store gave, what the files gave, the entries that are retired in them if offices are named, and the register to
/// which the files are joined.
#[derive(Drop)]
pub struct Loaded {
    pub register: Register,
    pub arrivals: Vec<Arrival>,
    pub retired: Vec<OpId>,
    pub base: Register,
}

// The register that the store makes of the loaded one.
fn admitted<T: Store>(alloc: Global, store: &T, register: &Register) -> Result<Register, CliFault>
    ensures admits { (first : T) → T.same first store.now → IfOk result (λ r. Admits (T.admission first) register.now r) }
    ensures bars { (first : T) → T.same first store.now → IfErr result (λ f. IsBarred (T.admission first) register.now f) }
{
    let Ok(copy) = register.try_clone(alloc) else {
        return Err(CliFault::Memory);
    };
    match store.admit(alloc, copy) {
        Ok(base) => Ok(base),
        Err(fault) => Err(fault),
    }
}

/// Loads the register, reads the files, and then asks the store to admit the register.
pub fn load_all<T: Store, S: LateSource>(
    alloc: Global,
    store: &mut T,
    files: &mut [S],
    options: &TakeOptions<'_>,
) -> Result<Loaded, CliFault>
    ensures same { T.same store.old store.new }
    ensures loaded { IfOk result (λ l. IsLoaded (T.around store.old store.new) (T.admission store.old) options.now (T.next store.old)
        (map (λ s. file_state (S.state s) (S.shut s)) files.old) (map (λ s. file_state (S.state s) (S.shut s)) files.new) l) }
    ensures fault { IfErr result (IsUnloaded (T.around store.old store.new) (T.admission store.old) options.now (T.next store.old)
        (map (λ s. file_state (S.state s) (S.shut s)) files.old) (map (λ s. file_state (S.state s) (S.shut s)) files.new)) }
{
    let next = store.next();
    let register = match store.load(alloc) {
        Ok(register) => register,
        Err(fault) => return Err(fault),
    };
    let FileGifts {
        all: arrivals,
        retired,
    } = match arrivals(alloc, &register, next, options, files) {
        Ok(arrivals) => arrivals,
        Err(fault) => return Err(fault),
    };
    match admitted(alloc, store, &register) {
        Ok(base) => Ok(Loaded {
            register,
            arrivals,
            retired,
            base,
        }),
        Err(fault) => Err(fault),
    }
}
