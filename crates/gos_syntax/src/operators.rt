// The signs that stand between operands, and the tokens that operands begin with.

ghost use Rattle.std.specs.Prelude.{◌≡◌, ◌<◌, length, IsTrue, MatchOption, IfSome, IfNone, Some};
ghost use Rattle.gos_lex.specs.Tokens.{AWord, ASign};
ghost use Rattle.gos_syntax.specs.Items.{seen, reading_at};
ghost use Rattle.gos_syntax.specs.Grammar.{HasSign};
ghost use Rattle.gos_syntax.specs.Operators.{sign_of, level_of};
ghost use Rattle.gos_syntax.specs.Symbols.{Fits, SomeOperator};
ghost use Rattle.gos_syntax.specs.Spelling.{begins_operand};
ghost use Rattle.gos_syntax.specs.declared.terms.Op.{Op};

use crate::source::Source;
use crate::terms::Op;
use gos_lex::{Sign, TokenKind, Word};

// The rules that have operators, from the loosest to the tightest.
#[derive(Clone, Copy, PartialEq, Eq)]
pub(crate) enum Level {
    Comparing,
    OnBits,
    Adding,
}

// The rule that an operator belongs to.
fn level_of(op: Op) -> Level
    ensures { result ≡ level_of op }
{
    match op {
        Op::Add | Op::Sub => Level::Adding,
        Op::And | Op::Or | Op::Xor => Level::OnBits,
        Op::Eq | Op::Less => Level::Comparing,
    }
}

// The operator that is written with a sign.
fn operator_of(sign: Sign) -> Option<Op>
    ensures { MatchOption result ((op : Op) → sign_of op ≡ sign → ⊥) (λ op. sign_of op ≡ sign) }
{
    match sign {
        Sign::Plus => Some(Op::Add),
        Sign::Minus => Some(Op::Sub),
        Sign::And => Some(Op::And),
        Sign::Or => Some(Op::Or),
        Sign::Xor => Some(Op::Xor),
        Sign::Equal => Some(Op::Eq),
        Sign::Less => Some(Op::Less),
        _ => None,
    }
}

impl<'a> Source<'a> {
    // The operator at a place, if it belongs to this rule.
    pub(crate) fn operator(&self, at: usize, level: Level) -> Option<Op>
        ensures sign { IfSome result (λ op. HasSign (seen self.now) at (sign_of op)) }
        ensures level { IfSome result (λ op. level_of op ≡ level) }
        ensures none { IfNone result (Fits (reading_at (seen self.now) at) (SomeOperator level) → ⊥) }
        ensures within { IfSome result (λ op. at < length self.now.tokens.now) }
    {
        match self.kind(at) {
            Some(TokenKind::Sign(sign)) => match operator_of(sign) {
                Some(op) if level_of(op) == level => Some(op),
                _ => None,
            },
            _ => None,
        }
    }

    // Whether an operand without operators begins at a place.
    pub(crate) fn begins_operand(&self, at: usize) -> bool
        ensures operand { result ≡ begins_operand (reading_at (seen self.now) at) }
        ensures within { IsTrue result → at < length self.now.tokens.now }
    {
        match self.kind(at) {
            Some(TokenKind::Name) | Some(TokenKind::Number(_)) => true,
            Some(TokenKind::Word(word)) => begins_with_word(word),
            Some(TokenKind::Sign(sign)) => begins_with_sign(sign),
            None => false,
        }
    }
}

// Whether an operand without operators begins with a word.
fn begins_with_word(word: Word) -> bool
    ensures { result ≡ begins_operand (Some (AWord word)) }
{
    match word {
        Word::Skip | Word::Not | Word::Fst | Word::Snd => true,
        _ => false,
    }
}

// Whether an operand without operators begins with a sign.
fn begins_with_sign(sign: Sign) -> bool
    ensures { result ≡ begins_operand (Some (ASign sign)) }
{
    match sign {
        Sign::Open | Sign::Bang => true,
        _ => false,
    }
}
