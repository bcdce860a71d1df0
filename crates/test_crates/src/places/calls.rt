//! Places over such a system.

use super::{failing, makes_out};
use byte_out::{InOne, Place, ReplaceFault, replace};
use byte_place::{CallPlace, NewPlace};
use byte_system::MemSystem;
use std::alloc::{AllocError, Global};
use std::test::Fail;

// Whether replacing "old" by "mine" ends so, and leaves these bytes, where the call of this number fails.
fn ends(
    alloc: Global,
    fails: Option<usize>,
    read: Option<&[u8]>,
    want: Result<(), ReplaceFault>,
    left: &[u8],
) -> Result<bool, AllocError> {
    let mut acts = Vec::new(alloc);
    makes_out(alloc, &mut acts)?;
    let system = MemSystem::new(alloc, 1, acts, failing(alloc, fails)?);
    let mut place = CallPlace::new(system, b"out".to_vec(alloc)?, b"new".to_vec(alloc)?);
    let result = replace(&mut place, read, b"mine");
    Ok(result == want && place.system().read(b"out") == Some(left))
}

#[test]
fn replaces(rt: HostRuntime) -> Result<(), Fail> {
    let alloc = rt.alloc();
    assert!(rt; ends(alloc, None, Some(b"old"), Ok(()), b"mine")?);
    assert!(rt; ends(alloc, None, None, Ok(()), b"mine")?);
    let changed = Err(ReplaceFault::Changed);
    assert!(rt; ends(alloc, None, Some(b"new"), changed, b"old")?);
    let not_made = Err(ReplaceFault::NotOpened);
    assert!(rt; ends(alloc, Some(0), Some(b"old"), not_made, b"old")?);
    assert!(rt; ends(alloc, Some(2), Some(b"old"), not_made, b"old")?);
    assert!(rt; ends(alloc, Some(5), Some(b"old"), not_made, b"old")?);
    let cut = Err(ReplaceFault::WriteFailed(2));
    assert!(rt; ends(alloc, Some(7), Some(b"old"), cut, b"old")?);
    let not_synced = Err(ReplaceFault::NotSynced);
    assert!(rt; ends(alloc, Some(13), Some(b"old"), not_synced, b"mine")?);
    Ok(())
}

#[test]
fn what_is_not_in_turn_fails(rt: HostRuntime) -> Result<(), Fail> {
    let alloc = rt.alloc();
    let mut acts = Vec::new(alloc);
    makes_out(alloc, &mut acts)?;
    let system = MemSystem::new(alloc, 1, acts, Vec::new(alloc));
    let mut place = CallPlace::new(system, b"out".to_vec(alloc)?, b"new".to_vec(alloc)?);
    assert!(rt; place.make().is_ok());
    assert!(rt; place.make().is_err());
    assert!(rt; place.put(None, &mut InOne::new(b"mine")).is_err());
    assert!(rt; place.write(b"mine").is_ok());
    assert!(rt; place.write(b"more").is_ok());
    assert!(rt; place.put(None, &mut InOne::new(b"mine")).is_err());
    assert!(rt; place.land().is_err());
    place.remove();
    assert!(rt; place.system().read(b"new").is_none());
    assert!(rt; place.system().read(b"out") == Some(b"old"));
    Ok(())
}

#[test]
fn a_new_file_is_made_once(rt: HostRuntime) -> Result<(), Fail> {
    let alloc = rt.alloc();
    let mut acts = Vec::new(alloc);
    makes_out(alloc, &mut acts)?;
    let system = MemSystem::new(alloc, 1, acts, Vec::new(alloc));
    let mut place = NewPlace::new(system, b"out");
    assert!(rt; replace(&mut place, None, b"mine") == Err(ReplaceFault::NotOpened));
    let system = MemSystem::new(alloc, 1, Vec::new(alloc), Vec::new(alloc));
    let mut place = NewPlace::new(system, b"out");
    assert!(rt; replace(&mut place, None, b"mine") == Ok(()));
    Ok(())
}
