// The longest name, numeral or sign at the front of a text, and what it is read as.

ghost use Rattle.std.specs.Prelude.{◌≡◌, ◌<◌, ◌≤◌, length, take, IsTrue, IfOk, IfErr};
ghost use Rattle.std.specs.Char.{is_ascii_digit};
ghost use Rattle.std.specs.List.{prefix_len};
ghost use Rattle.gos_lex.specs.Names.{spells_name};
ghost use Rattle.gos_lex.specs.Numerals.{is_numeral};
ghost use Rattle.gos_lex.specs.Lexemes.{is_lexeme, IsLongest};
ghost use Rattle.gos_lex.specs.Tokens.{IsOfKind};
ghost use Rattle.gos_lex.specs.inner.LexemeFaults.{IsLexemeFault};

use crate::fault::LexFault;
use crate::name::{MAX_NAME, begins_name, name_bytes, spells_name};
use crate::numeral::number_of;
use crate::sign::{sign_len, sign_of};
use crate::token::TokenKind;
use crate::word::word_of;

// How many bytes the longest lexeme at the front of the text has; 0 where none stands there.
pub(crate) fn lexeme_len(text: &[u8]) -> usize
    ensures within { result ≤ length text.now }
    ensures lexeme { 0 < result → IsTrue (is_lexeme (take result text.now)) }
    ensures longest { IsLongest result text.now }
{
    match text {
        [b, ..] if begins_name(*b) => name_bytes(text),
        [b, ..] if b.is_ascii_digit() => digits(text),
        _ => sign_len(text),
    }
}

// How many digits stand at the front of the text.
fn digits(text: &[u8]) -> usize
    ensures { result ≡ prefix_len is_ascii_digit text.now }
{
    text.iter().take_while(|b| b.is_ascii_digit()).count()
}

// What a lexeme is read as. `from` is where it begins.
pub(crate) fn kind_of(bytes: &[u8], from: usize) -> Result<TokenKind, LexFault>
    requires { IsTrue (is_lexeme bytes.now) }
    ensures kind { IfOk result (IsOfKind bytes.now) }
    ensures fault { IfErr result (IsLexemeFault bytes.now from) }
{
    if spells_name(bytes) {
        return name_kind(bytes, from);
    }
    match sign_of(bytes) {
        Some(sign) => Ok(TokenKind::Sign(sign)),
        None => numeral_kind(bytes, from),
    }
}

// What a name or a word is read as.
fn name_kind(bytes: &[u8], from: usize) -> Result<TokenKind, LexFault>
    requires { IsTrue (spells_name bytes.now) }
    ensures kind { IfOk result (IsOfKind bytes.now) }
    ensures fault { IfErr result (IsLexemeFault bytes.now from) }
{
    match word_of(bytes) {
        Some(word) => Ok(TokenKind::Word(word)),
        None if bytes.len() <= MAX_NAME => Ok(TokenKind::Name),
        None => Err(LexFault::Name { at: from }),
    }
}

// What a numeral is read as.
fn numeral_kind(bytes: &[u8], from: usize) -> Result<TokenKind, LexFault>
    requires { IsTrue (is_numeral bytes.now) }
    ensures kind { IfOk result (IsOfKind bytes.now) }
    ensures fault { IfErr result (IsLexemeFault bytes.now from) }
{
    match number_of(bytes) {
        Some(value) => Ok(TokenKind::Number(value)),
        None => Err(LexFault::Number { at: from }),
    }
}
