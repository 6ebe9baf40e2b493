// The tokens of a text, one after another.

ghost use Rattle.std.specs.Prelude.{◌≤◌, length, IfOk, IfErr, MatchOption, Some, None, All};
ghost use Rattle.gos_lex.specs.Tokens.{EndsWith, IsNext, StandsIn, Reads, HasFault};

use crate::fault::LexFault;
use crate::gap::gap_end;
use crate::lexeme::{kind_of, lexeme_len};
use crate::token::{Span, Token};
use std::alloc::Global;

// How many bytes a text has at most.
const MAX_TEXT: usize = 65_536;

/// The tokens of the text in order, with their places.
///
/// `Err` is `TooLong` where the text has more than 65,536 bytes, and else the fault that comes first in the text, or want
/// of memory.
pub fn scan(alloc: Global, text: &[u8]) -> Result<Vec<Token>, LexFault>
    ensures length { IfOk result (λ _. length text.now ≤ 65536) }
    ensures tokens { IfOk result (λ tokens. Reads text.now 0 tokens.items None) }
    ensures each { IfOk result (λ tokens. All (StandsIn text.now) tokens.items) }
    ensures fault { IfErr result (HasFault text.now) }
{
    if text.len() > MAX_TEXT {
        return Err(LexFault::TooLong { len: text.len() });
    }
    let mut tokens = Vec::new(alloc);
    let mut at = 0;
    loop {
        match next_token(text, at)? {
            Some(token) => {
                at = token.span.to;
                tokens.push(token)?;
            }
            None => return Ok(tokens),
        }
    }
}

// The first token from `at` on, or `None` at the end of the text.
fn next_token(text: &[u8], at: usize) -> Result<Option<Token>, LexFault>
    requires { at ≤ length text.now }
    ensures token { IfOk result (λ next. MatchOption next (EndsWith text.now at None) (IsNext text.now at)) }
    ensures fault { IfErr result (λ fault. EndsWith text.now at (Some fault)) }
{
    let from = gap_end(text, at);
    if from == text.len() {
        return Ok(None);
    }
    let len = lexeme_len(&text[from..]);
    if len == 0 {
        return Err(LexFault::Byte { at: from });
    }
    let to = from + len;
    let kind = kind_of(&text[from..to], from)?;
    Ok(Some(Token {
        kind,
        span: Span { from, to },
    }))
}
