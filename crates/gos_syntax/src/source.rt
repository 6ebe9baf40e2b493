// The tokens of a text, as the parser asks for them.

ghost use Rattle.std.specs.Prelude.{◌≡◌, ◌+◌, ◌-◌, ◌<◌, ◌≤◌, ◌↔◌, [], ◌∷◌, length, IsTrue, IfOk, IfErr, MatchOption, None};
ghost use Rattle.gos_syntax.specs.Items.{seen, Stands, reading_at, span_of, place_of};
ghost use Rattle.gos_syntax.specs.Grammar.{HasWord, HasSign, HasName, HasSmall};
ghost use Rattle.gos_syntax.specs.Symbols as wanted;
ghost use Rattle.gos_syntax.specs.Spelling.{Stops};
ghost use Rattle.gos_syntax.specs.inner.Stops.{IsKind};
ghost use Rattle.gos_syntax.specs.declared.fault.Stop.TheVariants as stops;

use crate::fault::Stop;
use gos_lex::{Name, Sign, Span, Token, TokenKind, Word};
use std::alloc::Global;

// The greatest value of a width or a length, as it is written.
const GREATEST_SMALL: u64 = 4_294_967_295;

// A text and its tokens. A token is named by its number, counted from 0.
#[derive(Drop)]
pub(crate) struct Source<'a> {
    pub text: &'a [u8],
    pub tokens: &'a [Token],
}

impl<'a> Source<'a> {
    // The kind of a token; `None` past the last one.
    #[tactic(auto, using(crate::proofs::ItemLemmas::kind_there, crate::proofs::ItemLemmas::none_there))]
    pub fn kind(&self, at: usize) -> Option<TokenKind>
        ensures { MatchOption result (reading_at (seen self.now) at ≡ None) (IsKind self.now at) }
    {
        if at < self.tokens.len() {
            Some(self.tokens[at].kind)
        } else {
            None
        }
    }

    // Whether a token is this sign.
    pub fn is_sign(&self, at: usize, sign: Sign) -> bool
        ensures sign { IsTrue result ↔ HasSign (seen self.now) at sign }
        ensures within { IsTrue result → at < length self.now.tokens.now }
    {
        match self.kind(at) {
            Some(TokenKind::Sign(found)) => found == sign,
            _ => false,
        }
    }

    // Whether a token is this word.
    pub fn is_word(&self, at: usize, word: Word) -> bool
        ensures word { IsTrue result ↔ HasWord (seen self.now) at word }
        ensures within { IsTrue result → at < length self.now.tokens.now }
    {
        match self.kind(at) {
            Some(TokenKind::Word(found)) => found == word,
            _ => false,
        }
    }

    // The number of the token after this sign.
    #[tactic(auto, using(crate::proofs::StopLemmas::stops_at_token))]
    pub fn after_sign(&self, at: usize, sign: Sign) -> Result<usize, Stop>
        requires { at ≤ length self.now.tokens.now }
        ensures next { IfOk result (λ next. next ≡ at + 1) }
        ensures within { IfOk result (λ next. next ≤ length self.now.tokens.now) }
        ensures sign { IfOk result (λ next. HasSign (seen self.now) at sign) }
        ensures refused { IfErr result (Stops (seen self.now) (wanted.sign sign ∷ []) at) }
        ensures here { IfErr result (λ stop. stop ≡ stops.At at) }
        ensures absent { IfErr result (λ stop. HasSign (seen self.now) at sign → ⊥) }
    {
        if self.is_sign(at, sign) {
            Ok(at + 1)
        } else {
            Err(Stop::At(at))
        }
    }

    // The number of the token after this word.
    #[tactic(auto, using(crate::proofs::StopLemmas::stops_at_token))]
    pub fn after_word(&self, at: usize, word: Word) -> Result<usize, Stop>
        requires { at ≤ length self.now.tokens.now }
        ensures next { IfOk result (λ next. next ≡ at + 1) }
        ensures within { IfOk result (λ next. next ≤ length self.now.tokens.now) }
        ensures word { IfOk result (λ next. HasWord (seen self.now) at word) }
        ensures refused { IfErr result (Stops (seen self.now) (wanted.word word ∷ []) at) }
    {
        if self.is_word(at, word) {
            Ok(at + 1)
        } else {
            Err(Stop::At(at))
        }
    }

    // The value of the numeral at a place, which has to be small: a number of 32 bits, as widths and lengths are.
    #[tactic(auto, using(crate::proofs::StopLemmas::stops_at_token, crate::proofs::NumberLemmas::no_small))]
    pub fn small(&self, at: usize) -> Result<u32, Stop>
        requires { at ≤ length self.now.tokens.now }
        ensures within { IfOk result (λ value. at < length self.now.tokens.now) }
        ensures small { IfOk result (λ value. HasSmall (seen self.now) at value) }
        ensures refused { IfErr result (Stops (seen self.now) (wanted.small ∷ []) at) }
    {
        match self.kind(at) {
            Some(TokenKind::Number(value)) => {
                if value <= GREATEST_SMALL {
                    Ok(value as u32)
                } else {
                    Err(Stop::At(at))
                }
            }
            _ => Err(Stop::At(at)),
        }
    }

    // The name at a place.
    #[tactic(auto, using(crate::proofs::ItemLemmas::bytes_there, crate::proofs::ItemLemmas::name_there))]
    pub fn name(&self, alloc: Global, at: usize) -> Result<Name, Stop>
        requires stands { Stands self.now }
        requires within { at ≤ length self.now.tokens.now }
        ensures within { IfOk result (λ name. at < length self.now.tokens.now) }
        ensures name { IfOk result (λ name. HasName (seen self.now) at name) }
        ensures refused { IfErr result (Stops (seen self.now) (wanted.name ∷ []) at) }
    {
        if at >= self.tokens.len() {
            return Err(Stop::At(at));
        }
        let span = self.tokens[at].span;
        match self.tokens[at].kind {
            TokenKind::Name => Ok(Name::new(alloc, &self.text[span.from..span.to])?),
            _ => Err(Stop::At(at)),
        }
    }

    // The place of the tokens from one number to just before another.
    #[tactic(auto, using(crate::proofs::ItemLemmas::from_there, crate::proofs::ItemLemmas::to_there))]
    pub fn span(&self, from: usize, to: usize) -> Span
        requires some { from < to }
        requires within { to ≤ length self.now.tokens.now }
        ensures { result ≡ span_of (seen self.now) from to }
    {
        Span {
            from: self.tokens[from].span.from,
            to: self.tokens[to - 1].span.to,
        }
    }

    // Where a token begins; the length of the text past the last one.
    #[tactic(auto, using(crate::proofs::ItemLemmas::place_there, crate::proofs::ItemLemmas::place_past))]
    pub fn place(&self, at: usize) -> usize
        ensures { result ≡ place_of self.now.text.now self.now.tokens.now at }
    {
        if at < self.tokens.len() {
            self.tokens[at].span.from
        } else {
            self.text.len()
        }
    }
}
