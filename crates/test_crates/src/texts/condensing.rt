//! Condensed texts.

use std::alloc::Global;
use wkt_canonical::is_canonical;
use wkt_write::condense;

fn is_condensed(alloc: Global, text: &[u8], wanted: &[u8]) -> bool {
    match condense(alloc, text) {
        Some(condensed) => condensed.as_slice() == wanted,
        None => false,
    }
}

fn is_recognized(alloc: Global, text: &[u8]) -> bool {
    match condense(alloc, text) {
        Some(condensed) => is_canonical(&condensed),
        None => false,
    }
}

#[test]
fn blanks_beside_delimiters_are_left_out(rt: HostRuntime) {
    for (text, wanted) in [
        (
            b"A[B[1],\n    C[2]]\n".as_slice(),
            b"A[B[1],C[2]]".as_slice(),
        ),
        (b" \t\r\nA [ NORTH , 2 ] ", b"A[NORTH,2]"),
        (b"A[\"b  [ c\" , \" , \"]", b"A[\"b  [ c\",\" , \"]"),
        (b"A[ \"b \"\" c\" ]", b"A[\"b \"\" c\"]"),
        (b"A[\"\",\r\n \"\"]", b"A[\"\",\"\"]"),
        (b"A[\"\xc3\xb4 \" ]", b"A[\"\xc3\xb4 \"]"),
        (b"   ", b""),
    ] {
        assert!(rt; is_condensed(rt.alloc(), text, wanted));
    }
}

#[test]
fn numbers_get_their_canonical_spelling(rt: HostRuntime) {
    for (text, wanted) in [
        (
            b"A[2.0,+3,4e1,-0.50]".as_slice(),
            b"A[2,3,40,-0.5]".as_slice(),
        ),
        (b"A[06,7.,.5,100E-1]", b"A[6,7,0.5,10]"),
        (b"A[ 1.0 , 2.50 ]", b"A[1,2.5]"),
        (b"A[10,0.05,-7,4326]", b"A[10,0.05,-7,4326]"),
        (b"A[\"1.0\",east,E1]", b"A[\"1.0\",east,E1]"),
    ] {
        assert!(rt; is_condensed(rt.alloc(), text, wanted));
    }
}

#[test]
fn numbers_that_take_much_more_room_end_it(rt: HostRuntime) {
    assert!(rt; is_condensed(rt.alloc(), b"A[1e9,-1E-9]", b"A[1000000000,-0.000000001]"));
    assert!(rt; condense(rt.alloc(), b"A[1e40,1e40,1e40,1e40,1e40]").is_none());
}

#[test]
fn blanks_elsewhere_end_it(rt: HostRuntime) {
    for text in [
        b"A[\"b\" \"c\"]".as_slice(),
        b"A[1 2]",
        b"A[1.0 2]",
        b"A B[1]",
        b"A (1)",
        b"A[\"b]",
    ] {
        assert!(rt; condense(rt.alloc(), text).is_none());
    }
}

#[test]
fn texts_of_many_lines_are_canonical_once_condensed(rt: HostRuntime) {
    for text in [
        b"VERTCRS[\"H\",\n    VDATUM[\"D\"],\n    CS[vertical,1],\n    AXIS[\"height (H)\",up],\n    LENGTHUNIT[\"metre\",1.0],\n    ID[\"X\",7]]\n".as_slice(),
        b"VERTCRS [ \"H\" , VDATUM [ \"D\" ] ,\r\n\tCS [ vertical , 1 ] ,\r\n\tAXIS [ \"height (H)\" , up ] ,\r\n\tLENGTHUNIT [ \"metre\" , 1 ] ]",
    ] {
        assert!(rt; !is_canonical(text));
        assert!(rt; is_recognized(rt.alloc(), text));
    }
}
