// Lines with their numbers, and numbers at their limit.
use gos_lex::{all_different, count_lines, is_among, next_line, number, place_of};
use std::test::Fail;

const TEXT: &[u8] = b"# a comment\r\n\n \t # another\n at  5\tmain.run \r\nend";

// Whether a line has three words, of which the third is this one.
fn has_third(words: &[&[u8]], third: &[u8]) -> bool {
    match words {
        [_, _, name] => *name == third,
        _ => false,
    }
}

#[test]
fn numbers_every_line(rt: HostRuntime) -> Result<(), Fail> {
    let first = next_line(rt.alloc(), TEXT)?.ok_or("a first line")?;
    assert!(rt; first.skipped == 3 && has_third(first.words.as_slice(), b"main.run"));
    let second = next_line(rt.alloc(), first.rest)?.ok_or("a second line")?;
    assert!(rt; second.skipped == 0);
    assert!(rt; next_line(rt.alloc(), second.rest)?.is_none());
    Ok(())
}

#[test]
fn counts_lines(rt: HostRuntime) {
    assert!(rt; count_lines(TEXT) == 5 && count_lines(b"one\n") == 1 && count_lines(b"") == 0);
}

// Texts, and the number that each is.
const NUMBERS: [(&[u8], Option<u64>); 5] = [
    (b"007", Some(7)),
    (b"18446744073709551615", Some(u64::MAX)),
    (b"18446744073709551616", None),
    (b"", None),
    (b"1x", None),
];

#[test]
fn reads_numbers_of_64_bits(rt: HostRuntime) {
    for (text, wanted) in NUMBERS.iter() {
        assert!(rt; number(text) == *wanted);
    }
}

#[test]
fn finds_words(rt: HostRuntime) {
    let words = [b"net".as_slice(), b"trace".as_slice()];
    assert!(rt; all_different(&words) && is_among(b"trace", &words));
    assert!(rt; place_of(b"trace", &words) == Some(1) && place_of(b"run", &words) == None);
}
