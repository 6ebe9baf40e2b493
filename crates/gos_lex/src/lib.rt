// The bytes of a text as tokens, and a cursor for texts of a fixed form.
//
// The source language is read with `scan`: it gives the tokens with their places, or the first fault with its place.
// `one_reading` says that a text reads in at most one way, so that `Ok` and `Err` exclude one another.
// The machine formats are read with `Cursor`, which takes no memory; `one_place` says that its `Err` is one place alone.
// The files that are written by hand, build files and pulse files, are read with `next_line`: one line after another, as
// its words, with how many lines were passed over before it. What a line says stands in specs/Lines.antt.
// What a token is stands in specs/Tokens.antt, and the classes of bytes, names, numerals and signs in the files that it uses.
#![tactic(auto)]

pub use alternatives::one_of;
pub use cursor::Cursor;
pub use fault::LexFault;
pub use law::{one_place, one_reading};
pub use line_number::number;
pub use line_words::{all_different, is_among, place_of};
pub use lines::{Line, count_lines, next_line};
pub use name::{Name, is_name, is_name_or_word};
pub use numeral::GREATEST_NUMERAL;
pub use scanner::scan;
pub use sign::Sign;
pub use table::NameTable;
pub use token::{Span, Token, TokenKind};
pub use word::Word;

mod alternatives;
mod cursor;
mod decimal;
mod fault;
mod gap;
mod law;
mod lexeme;
mod line_number;
mod line_words;
mod lines;
mod name;
mod numeral;
mod scanner;
mod sign;
mod table;
mod token;
mod word;
