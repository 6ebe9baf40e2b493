// A token: its kind, and where it stands.

use crate::sign::Sign;
use crate::word::Word;

/// Part of a text: the bytes from `from` to just before `to`, counted from 0.
#[derive(Clone, Copy, Debug, PartialEq, Eq)]
pub struct Span {
    pub from: usize,
    pub to: usize,
}

/// What a token is. The bytes of a name are those of its span.
#[derive(Clone, Copy, Debug, PartialEq, Eq)]
pub enum TokenKind {
    Name,
    Number(u64),
    Word(Word),
    Sign(Sign),
}

/// A token of a text.
#[derive(Clone, Copy, Debug, PartialEq, Eq)]
pub struct Token {
    pub kind: TokenKind,
    pub span: Span,
}
