//! `replace` beside a second process, which acts between their calls.

use super::{act, failing, makes_out};
use byte_protocol::{Fault, replace};
use byte_system::{Act, Does, MemSystem, Mode};
use std::alloc::{AllocError, Global};
use std::test::Fail;

/// What the second process does once it has made OUT.
#[derive(Clone, Copy)]
enum Second {
    Nothing,
    WritesToOut(usize),
    HoldsNew,
    LeavesNew,
    TakesNew,
    RemovesNew,
}

// OUT.new of the second process is the file 1.
fn makes_new(alloc: Global, acts: &mut Vec<Act>) -> Result<(), AllocError> {
    act(acts, 0, Does::Make(b"new".to_vec(alloc)?))?;
    act(acts, 0, Does::Lock(1))?;
    act(acts, 0, Does::Write(1, b"par".to_vec(alloc)?))
}

fn acts_of(alloc: Global, acts: &mut Vec<Act>, second: Second) -> Result<(), AllocError> {
    makes_out(alloc, acts)?;
    match second {
        Second::Nothing => Ok(()),
        Second::WritesToOut(before) => act(acts, before, Does::Write(0, b"!".to_vec(alloc)?)),
        Second::HoldsNew => makes_new(alloc, acts),
        Second::LeavesNew => {
            makes_new(alloc, acts)?;
            act(acts, 0, Does::End)
        }
        Second::TakesNew => act(acts, 1, Does::Lock(1)),
        Second::RemovesNew => act(acts, 6, Does::Unlink(b"new".to_vec(alloc)?)),
    }
}

// Replaces "old" by "mine", where the call of this number fails. Whether that ends so, and leaves these bytes.
fn ends(
    alloc: Global,
    second: Second,
    fails: Option<usize>,
    want: Result<(), Fault>,
    left: &[u8],
) -> Result<bool, AllocError> {
    let mut acts = Vec::new(alloc);
    acts_of(alloc, &mut acts, second)?;
    let mut system = MemSystem::new(alloc, 1, acts, failing(alloc, fails)?);
    let result = replace(
        &mut system,
        b"out",
        b"new",
        Mode::Usual,
        Some(b"old"),
        b"mine",
    );
    Ok(result == want && system.read(b"out") == Some(left))
}

#[test]
fn replaces(rt: HostRuntime) -> Result<(), Fail> {
    for second in [Second::Nothing, Second::LeavesNew] {
        assert!(rt; ends(rt.alloc(), second, None, Ok(()), b"mine")?);
    }
    Ok(())
}

#[test]
fn fails_as_told(rt: HostRuntime) -> Result<(), Fail> {
    for (second, fails, fault) in [
        (Second::WritesToOut(5), None, Fault::Changed),
        (Second::HoldsNew, None, Fault::NewExists),
        (Second::LeavesNew, Some(1), Fault::NewExists),
        (Second::LeavesNew, Some(5), Fault::NewExists),
        (Second::LeavesNew, Some(6), Fault::NotMade),
        (Second::TakesNew, None, Fault::NewExists),
        (Second::RemovesNew, None, Fault::Lost),
        (Second::Nothing, Some(0), Fault::NotMade),
        (Second::Nothing, Some(1), Fault::NewExists),
        (Second::Nothing, Some(2), Fault::NewExists),
        (Second::Nothing, Some(3), Fault::NotWritten(2)),
        (Second::Nothing, Some(4), Fault::NotSure),
        (Second::Nothing, Some(5), Fault::NotRead),
        (Second::Nothing, Some(6), Fault::NotLooked),
        (Second::Nothing, Some(7), Fault::NotPut),
        (Second::Nothing, Some(8), Fault::NotSynced),
    ] {
        let left = match fault {
            Fault::Changed => b"old!".as_slice(),
            Fault::NotSynced => b"mine",
            _ => b"old",
        };
        assert!(rt; ends(rt.alloc(), second, fails, Err(fault), left)?);
    }
    Ok(())
}

#[test]
fn replaces_what_was_not_read(rt: HostRuntime) -> Result<(), Fail> {
    let alloc = rt.alloc();
    let mut acts = Vec::new(alloc);
    acts_of(alloc, &mut acts, Second::WritesToOut(5))?;
    let mut system = MemSystem::new(alloc, 1, acts, Vec::new(alloc));
    let result = replace(&mut system, b"out", b"new", Mode::Usual, None, b"mine");
    assert!(rt; result == Ok(()));
    assert!(rt; system.read(b"out") == Some(b"mine"));
    Ok(())
}
