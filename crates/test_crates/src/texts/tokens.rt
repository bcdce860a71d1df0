//! Tests of the tokens of a tree.

use wkt_tree::{Delimiter, Token, TokenKind, scan};

// Whether there is a token with this kind, place and bytes.
fn is_token(token: Option<Token<'_>>, kind: TokenKind, place: usize, bytes: &[u8]) -> bool {
    match token {
        Some(token) => token.kind == kind && token.place == place && token.bytes == bytes,
        None => false,
    }
}

#[test]
fn tokens_come_in_order(rt: HostRuntime) {
    let tokens: [(TokenKind, usize, &[u8]); 8] = [
        (TokenKind::Word, 1, b"Ab_1"),
        (TokenKind::Open(Delimiter::Round), 6, b"("),
        (TokenKind::Quoted, 8, b"\"x\"\"\xc2\xb0\""),
        (TokenKind::Comma, 15, b","),
        (TokenKind::Number, 16, b"-1.E5"),
        (TokenKind::Comma, 22, b","),
        (TokenKind::Word, 24, b"up"),
        (TokenKind::Close(Delimiter::Round), 27, b")"),
    ];
    let text = b" Ab_1 ( \"x\"\"\xc2\xb0\",-1.E5 , up ) ";
    let outline = scan(text).expect(&rt, "a tree");
    let mut cursor = outline.cursor();
    for (kind, place, bytes) in tokens {
        assert!(rt; is_token(cursor.peek(), kind, place, bytes));
        cursor.advance();
    }
    assert!(rt; cursor.peek().is_none());
    cursor.advance();
    assert!(rt; cursor.peek().is_none());
}
