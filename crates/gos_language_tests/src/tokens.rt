// Each public call once, at texts of which the tokens were counted by hand.

use gos_lex::{
    Cursor, LexFault, Name, Sign, Span, Token, TokenKind, Word, is_name, is_name_or_word,
    one_place, one_reading, scan,
};
use std::alloc::Global;
use std::test::Fail;

fn token(kind: TokenKind, from: usize, to: usize) -> Token {
    Token {
        kind,
        span: Span { from, to },
    }
}

// Whether a text has these tokens.
fn has_tokens(alloc: Global, text: &[u8], wanted: &[Token]) -> bool {
    match scan(alloc, text) {
        Ok(tokens) => tokens.as_slice() == wanted,
        Err(_) => false,
    }
}

#[test]
fn reads_words_and_signs(rt: HostRuntime) {
    let wanted = [
        token(TokenKind::Word(Word::Export), 0, 6),
        token(TokenKind::Word(Word::Skip), 7, 11),
        token(TokenKind::Sign(Sign::Colon), 12, 13),
        token(TokenKind::Word(Word::Com), 14, 17),
    ];
    assert!(rt; has_tokens(rt.alloc(), b"export skip : com", &wanted));
}

#[test]
fn reads_names_and_numbers_past_a_comment(rt: HostRuntime) {
    let wanted = [
        token(TokenKind::Name, 0, 3),
        token(TokenKind::Sign(Sign::Assign), 3, 5),
        token(TokenKind::Number(7), 5, 8),
        token(TokenKind::Sign(Sign::Arrow), 14, 16),
        token(TokenKind::Name, 16, 19),
    ];
    assert!(rt; has_tokens(rt.alloc(), b"x_1:=007# 9 $\n->in1", &wanted));
}

#[test]
fn reads_a_length_and_the_greatest_numeral(rt: HostRuntime) {
    let wanted = [
        token(TokenKind::Name, 0, 1),
        token(TokenKind::Sign(Sign::OpenSquare), 1, 2),
        token(TokenKind::Number(u64::MAX), 2, 22),
        token(TokenKind::Sign(Sign::CloseSquare), 22, 23),
    ];
    assert!(rt; has_tokens(rt.alloc(), b"a[18446744073709551615]", &wanted));
}

// Whether a text has no tokens, for this fault.
fn has_fault(alloc: Global, text: &[u8], wanted: LexFault) -> bool {
    match scan(alloc, text) {
        Ok(_) => false,
        Err(fault) => fault == wanted,
    }
}

#[test]
fn names_the_place_of_a_fault(rt: HostRuntime) {
    let alloc = rt.alloc();
    assert!(rt; has_fault(alloc, b"skip $", LexFault::Byte { at: 5 }));
    assert!(rt; has_fault(alloc, b"x 18446744073709551616", LexFault::Number { at: 2 }));
    assert!(rt; has_fault(alloc, [b'x'; 256].as_slice(), LexFault::Name { at: 0 }));
}

#[test]
fn makes_a_name(rt: HostRuntime) -> Result<(), Fail> {
    let name = Name::new(rt.alloc(), b"skip")?;
    let again = Name::new(rt.alloc(), b"skip")?;
    assert!(rt; name.bytes() == b"skip".as_slice() && name == again);
    Ok(())
}

#[test]
fn tells_names_from_words(rt: HostRuntime) {
    assert!(rt; is_name_or_word(b"skip") && !is_name(b"skip") && is_name(b"skip1"));
}

#[test]
fn passes_items(rt: HostRuntime) {
    let mut cursor = Cursor::new(b"lit 320 x");
    assert!(rt; cursor.word(b"lit ") == Ok(()) && cursor.number(1, 32) == Ok(32));
    assert!(rt; cursor.at() == 6 && cursor.word(b" ") == Err(6));
    assert!(rt; cursor.word(b"0 ") == Ok(()) && cursor.name() == Ok(Span { from: 8, to: 9 }));
    assert!(rt; cursor.finished() && cursor.number(0, 9) == Err(9));
}

#[test]
fn laws_return() {
    one_reading();
    one_place();
}
