//! Public calls that no command makes. No clause says that they succeed while there is memory.

use crate::samples::{EMPTY, ENTRY, FIRST_ENTRY, HEIGHT, OFFICE_A, OTHER_HEIGHT};
use byte_io::{MemoryTarget, Reading, Writing};
use reg_commands::{
    Form, run_enter, run_export, run_ops, run_piece, run_report, run_seen, run_show, run_supersede,
    run_wkt,
};
use reg_file::{Part, read_part, read_register_beside, write_first_register};
use reg_office::ReportKind;
use reg_op::OpId;
use uuid::Uuid;
use wkt_crs::{Definition, canonical_text, read_crs_from};

#[test]
fn texts_are_read_and_become_definitions(rt: HostRuntime) {
    let alloc = rt.alloc();
    let text = canonical_text(alloc, HEIGHT).expect(&rt, "a canonical text");
    assert!(rt; text.as_slice() == HEIGHT);
    let crs = read_crs_from(alloc, &mut Reading::new(HEIGHT)).expect(&rt, "a value");
    let made = Definition::new(alloc, crs).expect(&rt, "a definition");
    assert!(rt; made.as_bytes() == HEIGHT);
}

#[test]
fn files_are_read_and_written(rt: HostRuntime) {
    let alloc = rt.alloc();
    let part = read_part(alloc, &mut Reading::new(ENTRY)).expect(&rt, "a part");
    assert!(rt; matches!(part, Part::Register(_)));
    let read = read_register_beside(alloc, &[], &mut Reading::new(FIRST_ENTRY));
    let register = read.expect(&rt, "a register");
    let mut sink = Writing::new(Vec::new(alloc));
    assert!(rt; write_first_register(alloc, &register, &mut sink).is_ok());
    assert!(rt; sink.into_inner().as_slice() == FIRST_ENTRY);
}

const PRINTED: &[u8] =
    b"VERTCRS[\"H\",VDATUM[\"D\"],CS[vertical,1],AXIS[\"height (H)\",up],LENGTHUNIT[\"metre\",1],ID[\"X\",7]]
VERTCRS[\"H\",VDATUM[\"D\"],CS[vertical,1],AXIS[\"height (H)\",up],LENGTHUNIT[\"metre\",1],ID[\"X\",7]]
entry,authority,code,name,status,replaced_by
00000000-0000-4000-8000-00000000000a:1,X,7,H,valid,
entry,authority,code,name,status,replaced_by
00000000-0000-4000-8000-00000000000a:1,X,7,H,valid,
operation,effect,entry,replaced_by,definition,note
00000000-0000-4000-8000-00000000000a:1,enter,00000000-0000-4000-8000-00000000000a:1,,\"VERTCRS[\"\"H\"\",VDATUM[\"\"D\"\"],CS[vertical,1],AXIS[\"\"height (H)\"\",up],LENGTHUNIT[\"\"metre\"\",1],ID[\"\"X\"\",7]]\",
";

#[test]
fn a_register_is_printed(rt: HostRuntime) {
    let alloc = rt.alloc();
    let id = OpId::new(Uuid::from_u128(OFFICE_A), 1).expect(&rt, "an id");
    let mut sink = Writing::new(Vec::new(alloc));
    assert!(rt; run_export(alloc, &mut Reading::new(ENTRY), &mut sink).is_ok());
    let form = Form::Canonical;
    assert!(rt; run_wkt(alloc, &mut Reading::new(ENTRY), id, form, &mut sink).is_ok());
    let kind = ReportKind::Entries;
    assert!(rt; run_report(alloc, &mut Reading::new(ENTRY), kind, &mut sink).is_ok());
    assert!(rt; run_show(alloc, &mut Reading::new(ENTRY), id, &mut sink).is_ok());
    assert!(rt; run_ops(alloc, &mut Reading::new(ENTRY), &mut sink).is_ok());
    assert!(rt; sink.into_inner().as_slice() == PRINTED);
}

const IDS: &[u8] = b"00000000-0000-4000-8000-00000000000a:1
00000000-0000-4000-8000-00000000000a:2
00000000-0000-4000-8000-00000000000a:3
";

// The text is entered, then another, and the first is superseded by it.
#[test]
fn a_register_is_changed(rt: HostRuntime) {
    let alloc = rt.alloc();
    let office = Uuid::from_u128(OFFICE_A);
    let old = OpId::new(office, 1).expect(&rt, "an id");
    let newer = OpId::new(office, 2).expect(&rt, "an id");
    let mut sink = Writing::new(Vec::new(alloc));
    let mut one = MemoryTarget::new(alloc, true);
    let (mut source, mut text) = (Reading::new(EMPTY), Reading::new(HEIGHT));
    let entered = run_enter(
        alloc,
        &mut source,
        office,
        &mut text,
        "",
        &mut one,
        &mut sink,
    );
    assert!(rt; entered.is_ok());
    assert!(rt; one.taken() == ENTRY);
    let mut two = MemoryTarget::new(alloc, true);
    let (mut source, mut text) = (Reading::new(ENTRY), Reading::new(OTHER_HEIGHT));
    let entered = run_enter(
        alloc,
        &mut source,
        office,
        &mut text,
        "",
        &mut two,
        &mut sink,
    );
    assert!(rt; entered.is_ok());
    let mut last = MemoryTarget::new(alloc, true);
    let mut source = Reading::new(two.taken());
    let done = run_supersede(
        alloc,
        &mut source,
        office,
        old,
        &[newer],
        "",
        &mut last,
        &mut sink,
    );
    assert!(rt; done.is_ok());
    assert!(rt; sink.into_inner().as_slice() == IDS);
}

#[test]
fn a_summary_and_a_piece_are_written(rt: HostRuntime) {
    let alloc = rt.alloc();
    let mut seen = MemoryTarget::new(alloc, true);
    assert!(rt; run_seen(alloc, &mut Reading::new(EMPTY), &mut seen).is_ok());
    assert_eq!(rt; seen.taken().len(), 10);
    let mut piece = MemoryTarget::new(alloc, true);
    let mut summary = Reading::new(seen.taken());
    let done = run_piece(alloc, &mut Reading::new(ENTRY), &mut summary, &mut piece);
    assert!(rt; done.is_ok());
    assert_eq!(rt; piece.taken().len(), 165);
}
