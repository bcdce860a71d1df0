//! How faults of numerals, of tokens, of texts and of devices print.

use super::prints;
use byte_io::{InFault, PublishFault};
use crs_number::NumberFault;
use wkt_crs::{Condition, DefinitionFault, ReadFault, SlotFault, SlotName, TextFault, Unspelled};

#[test]
fn faults_of_numerals_and_tokens_print(rt: HostRuntime) {
    assert!(rt; prints(&rt, rt.alloc(), &NumberFault::BadNumber, b"BadNumber"));
    assert!(rt; prints(&rt, rt.alloc(), &NumberFault::NumberRange, b"NumberRange"));
    assert!(rt; prints(&rt, rt.alloc(), &TextFault::TooLong, b"TooLong"));
    assert!(rt; prints(&rt, rt.alloc(), &TextFault::EndEarly(0), b"EndEarly at 0"));
    assert!(rt; prints(&rt, rt.alloc(), &TextFault::NotUtf8(1), b"NotUtf8 at 1"));
}

#[test]
fn faults_of_devices_print(rt: HostRuntime) {
    assert!(rt; prints(&rt, rt.alloc(), &InFault::ReadFailed(7), b"ReadFailed at 7"));
    assert!(rt; prints(&rt, rt.alloc(), &InFault::Memory, b"out of memory"));
    assert!(rt; prints(&rt, rt.alloc(), &PublishFault::NotOpened, b"NotOpened"));
    assert!(rt;
        prints(
            &rt,
            rt.alloc(),
            &PublishFault::WriteFailed(3),
            b"WriteFailed at 3"
        )
    );
}

#[test]
fn faults_of_texts_print_as_names_with_places(rt: HostRuntime) {
    let rows: [(ReadFault, &str, Option<usize>, &str); 7] = [
        (
            ReadFault::Text(TextFault::TooLong),
            "TooLong",
            None,
            "TooLong",
        ),
        (
            ReadFault::Text(TextFault::Unexpected(32)),
            "Unexpected",
            Some(32),
            "Unexpected at 32",
        ),
        (
            ReadFault::Slot(SlotFault::NotHere(12)),
            "NotHere",
            Some(12),
            "NotHere at 12",
        ),
        (
            ReadFault::Slot(SlotFault::Missing(SlotName::Axis, 38)),
            "Missing",
            Some(38),
            "Missing axis at 38",
        ),
        (
            ReadFault::Slot(SlotFault::WordUnknown(7)),
            "WordUnknown",
            Some(7),
            "WordUnknown at 7",
        ),
        (
            ReadFault::Broken {
                condition: Condition::C3,
                place: 0,
            },
            "Broken",
            Some(0),
            "Broken C3 at 0",
        ),
        (ReadFault::Memory, "Memory", None, "out of memory"),
    ];
    for (fault, name, place, line) in rows {
        assert_eq!(rt; fault.name(), name);
        assert!(rt; fault.place() == place);
        let printed = fault.to_string(rt.alloc()).expect(&rt, "a line");
        assert_eq!(rt; printed.as_bytes(), line.as_bytes());
    }
}

#[test]
fn faults_of_definitions_print_as_names_with_places(rt: HostRuntime) {
    let early = Unspelled::Text(TextFault::EndEarly(9));
    let rows: [(DefinitionFault, &str, Option<usize>, &str); 5] = [
        (
            DefinitionFault::Read(early),
            "EndEarly",
            Some(9),
            "EndEarly at 9",
        ),
        (
            DefinitionFault::NoIdentifier,
            "NoIdentifier",
            None,
            "NoIdentifier",
        ),
        (
            DefinitionFault::CanonicalTooLong,
            "CanonicalTooLong",
            None,
            "CanonicalTooLong",
        ),
        (
            DefinitionFault::NotCanonical,
            "NotCanonical",
            None,
            "NotCanonical",
        ),
        (DefinitionFault::Memory, "Memory", None, "out of memory"),
    ];
    for (fault, name, place, line) in rows {
        assert_eq!(rt; fault.name(), name);
        assert!(rt; fault.place() == place);
        let printed = fault.to_string(rt.alloc()).expect(&rt, "a line");
        assert_eq!(rt; printed.as_bytes(), line.as_bytes());
    }
}
