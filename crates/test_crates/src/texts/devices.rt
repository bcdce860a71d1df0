//! Tests of devices: reads, writes, and targets that are opened.

use byte_io::{
    Endless, Full, InFault, MemoryTarget, NotOpened, Pieces, PublishFault, Reading, Room, Sink,
    Source, Target, Then, WriteFault, Writing, publish, read_up_to, write_all,
};
use std::alloc::Global;

static TEXT: [u8; 10] = *b"0123456789";

// Whether a read of up to this many bytes gives these bytes.
fn reads(alloc: Global, source: &mut impl Source, most: usize, bytes: &[u8]) -> bool {
    match read_up_to(alloc, source, most) {
        Ok(read) => read.as_slice() == bytes,
        Err(_) => false,
    }
}

#[test]
fn reads_up_to_the_end_or_to_what_was_asked(rt: HostRuntime) {
    let alloc = rt.alloc();
    for piece in [1, 3, 4096] {
        for most in 0..12 {
            let mut source = Pieces::new(&TEXT, piece, Then::Ends);
            assert!(rt; reads(alloc, &mut source, most, &TEXT[..most.min(10)]));
        }
    }
    assert!(rt; reads(alloc, &mut Reading::new(TEXT.as_slice()), 20, &TEXT));
    let mut endless = Endless::new(b'x');
    assert!(rt; reads(alloc, &mut endless, 5, b"xxxxx"));
    assert_eq!(rt; endless.count(), 5);
}

#[test]
fn tells_where_a_source_failed(rt: HostRuntime) {
    for n in 0..=10 {
        let mut source = Pieces::new(&TEXT[..n], 3, Then::Fails);
        let fault = read_up_to(rt.alloc(), &mut source, 20).err();
        assert_eq!(rt; fault, Some(InFault::ReadFailed(n)));
    }
}

#[test]
fn tells_how_much_went_out(rt: HostRuntime) {
    for written in 0..10 {
        for full in [Full::Fails, Full::TakesNone] {
            let mut sink = Room::new(rt.alloc(), 3, written, full);
            let fault = write_all(&mut sink, &TEXT).err();
            assert_eq!(rt; fault, Some(WriteFault { written }));
            assert_eq!(rt; sink.taken(), &TEXT[..written]);
        }
    }
    let mut sink = Writing::new(Vec::new(rt.alloc()));
    assert_eq!(rt; write_all(&mut sink, &TEXT).err(), None);
    assert_eq!(rt; sink.into_inner().as_slice(), TEXT.as_slice());
}

// Whether publishing the text has this result.
fn publishes(target: &mut impl Target, fault: Option<PublishFault>) -> bool {
    publish(target, &TEXT).err() == fault
}

#[test]
fn publishes_to_a_target_in_memory(rt: HostRuntime) {
    let mut target = MemoryTarget::new(rt.alloc(), true);
    assert_eq!(rt; target.write_some(&TEXT).ok(), Some(0));
    assert!(rt; publishes(&mut target, None));
    assert_eq!(rt; target.taken(), TEXT.as_slice());
    let mut closed = MemoryTarget::new(rt.alloc(), false);
    assert_eq!(rt; closed.open().err(), Some(NotOpened));
    assert!(rt; publishes(&mut closed, Some(PublishFault::NotOpened)));
    assert_eq!(rt; closed.taken().len(), 0);
}
