//! Tests of packed rows.

use byte_io::{Full, Room};
use byte_packed::PackedRows;

/// Rows whose numbers and names differ, and two of other lengths.
static ROWS: [&[u8]; 7] = [
    b"file,place,action,entry,authority,code,name,fault\n",
    b"texts,98,refused,,,,,Unexpected at 98\n",
    b"texts,99,refused,,,,,Unexpected at 99\n",
    b"texts,100,refused,,,,,Unexpected at 100\n",
    b"texts,101,refused,,,,\"a, and\nb\",NotUtf8 at 101\n",
    b"texts,102,refused,,,,,Unexpected at 102\n",
    b"no newline at the end",
];

#[test]
fn rows_are_written_as_they_are_or_cut(rt: HostRuntime) {
    let mut rows = PackedRows::new(rt.alloc());
    let mut whole: Vec<u8> = Vec::new(rt.alloc());
    for row in ROWS {
        rows = rows.with(row).expect(&rt, "memory");
        whole.extend_from_slice(row).expect(&rt, "memory");
    }
    for room in 0..=whole.len() {
        let mut sink = Room::new(rt.alloc(), 7, room, Full::Fails);
        let answer = rows.write(&mut sink);
        assert_eq!(rt; answer.is_ok(), room == whole.len());
        assert_eq!(rt; sink.taken().len(), room);
        assert!(rt; whole.starts_with(sink.taken()));
        if let Err(fault) = answer {
            assert_eq!(rt; fault.written, room);
        }
    }
}

#[test]
fn a_row_like_those_before_takes_few_steps(rt: HostRuntime) {
    let mut rows = PackedRows::new(rt.alloc());
    for row in ROWS.iter().take(6) {
        rows = rows.with(row).expect(&rt, "memory");
    }
    let before = rows.steps();
    let rows = rows
        .with(b"texts,103,refused,,,,,Unexpected at 103\n")
        .expect(&rt, "memory");
    assert!(rt; rows.steps().saturating_sub(before) <= 5);
}
