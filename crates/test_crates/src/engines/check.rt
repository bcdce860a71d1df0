//! Checks of texts.

use byte_io::{Full, Pieces, Reading, Room, Then, Writing};
use reg_commands::run_check;
use reg_engine::{CliFault, InputFault};

const CUTS: [usize; 5] = [1, 2, 3, 7, 4096];

static HEIGHT: [u8; 95] =
    *b"VERTCRS[\"H\",VDATUM[\"D\"],CS[vertical,1],AXIS[\"height (H)\",up],LENGTHUNIT[\"metre\",1.0],ID[\"X\",7]]";

static HEIGHT_LINE: [u8; 94] =
    *b"VERTCRS[\"H\",VDATUM[\"D\"],CS[vertical,1],AXIS[\"height (H)\",up],LENGTHUNIT[\"metre\",1],ID[\"X\",7]]\n";

#[test]
fn prints_the_canonical_text_however_reads_and_writes_are_cut(rt: HostRuntime) {
    for cut in CUTS {
        for text in [
            HEIGHT.as_slice(),
            HEIGHT_LINE.as_slice(),
            &HEIGHT_LINE[..93],
        ] {
            let mut source = Pieces::new(text, cut, Then::Ends);
            let mut sink = Room::new(rt.alloc(), cut, 100, Full::Fails);
            let done = run_check(rt.alloc(), &mut source, &mut sink).is_ok();
            assert!(rt; done);
            assert_eq!(rt; sink.taken(), HEIGHT_LINE.as_slice());
        }
    }
    let mut sink = Writing::new(Vec::new(rt.alloc()));
    let done = run_check(rt.alloc(), &mut Reading::new(HEIGHT.as_slice()), &mut sink).is_ok();
    assert!(rt; done);
    assert_eq!(rt; sink.into_inner().as_slice(), HEIGHT_LINE.as_slice());
}

#[test]
fn tells_where_a_reader_failed(rt: HostRuntime) {
    for n in 0..=HEIGHT.len() {
        for cut in CUTS {
            let mut source = Pieces::new(&HEIGHT[..n], cut, Then::Fails);
            let mut sink = Room::new(rt.alloc(), cut, 100, Full::Fails);
            let fault = run_check(rt.alloc(), &mut source, &mut sink).err();
            let want = CliFault::File {
                number: 1,
                fault: InputFault::ReadFailed(n),
            };
            assert_eq!(rt; fault, Some(want));
            assert_eq!(rt; sink.taken().len(), 0);
        }
    }
}
