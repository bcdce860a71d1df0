//! Merges of sources that fail.

use crate::samples::{EMPTY, ENTRY};
use byte_io::{MemoryTarget, Pieces, Then};
use reg_commands::run_merge;
use reg_engine::{CliFault, InputFault};

#[test]
fn tells_which_file_failed_and_where(rt: HostRuntime) {
    let alloc = rt.alloc();
    for n in [0, 1, 7, 160, 161] {
        assert!(rt; n <= ENTRY.len());
        let mut sources = vec![in alloc;
            Pieces::new(EMPTY, 4096, Then::Ends),
            Pieces::new(ENTRY, 4096, Then::Ends),
            Pieces::new(&ENTRY[..n], 3, Then::Fails),
            Pieces::new(b"", 1, Then::Fails),
        ]
        .expect(&rt, "sources");
        let mut target = MemoryTarget::new(alloc, true);
        let fault = run_merge(alloc, &mut sources, &mut target).err();
        let want = CliFault::File {
            number: 3,
            fault: InputFault::ReadFailed(n),
        };
        assert_eq!(rt; fault, Some(want));
        assert_eq!(rt; target.taken().len(), 0);
    }
}
