// The types of a source text.

ghost use Rattle.std.specs.Prelude.{◌≤◌, length};
ghost use Rattle.gos_syntax.specs.Items.{Stands};
ghost use Rattle.gos_syntax.specs.Grammar.{Whole, Product, Base};
ghost use Rattle.gos_syntax.specs.inner.Phrases.{IsTypeAnswer};

use crate::fault::Stop;
use crate::source::Source;
use gos_lex::{Sign, TokenKind, Word};
use gos_types::Ty;
use std::alloc::Global;

// Each call gives what it read, and the number of the token after it. What it answers is said in
// specs/inner/Phrases.antt: also that nothing else was to be read, and that none goes on past a stop.
impl<'a> Source<'a> {
    // type = prod [ "->" type ]
    #[cycle(ty)]
    pub(crate) fn ty(&self, alloc: Global, at: usize) -> Result<(Ty, usize), Stop>
        requires stands { Stands self.now }
        requires within { at ≤ length self.now.tokens.now }
        ensures { IsTypeAnswer self.now Whole at result }
    {
        let (argument, end) = self.product(alloc, at)?;
        if !self.is_sign(end, Sign::Arrow) {
            return Ok((argument, end));
        }
        let (outcome, end) = self.ty(alloc, end + 1)?;
        Ok((
            Ty::Fun(Box::new(alloc, argument)?, Box::new(alloc, outcome)?),
            end,
        ))
    }

    // prod = base [ "*" prod ]
    #[cycle(ty)]
    fn product(&self, alloc: Global, at: usize) -> Result<(Ty, usize), Stop>
        requires stands { Stands self.now }
        requires within { at ≤ length self.now.tokens.now }
        ensures { IsTypeAnswer self.now Product at result }
    {
        let (first, end) = self.base(alloc, at)?;
        if !self.is_sign(end, Sign::Star) {
            return Ok((first, end));
        }
        let (second, end) = self.product(alloc, end + 1)?;
        Ok((
            Ty::Pair(Box::new(alloc, first)?, Box::new(alloc, second)?),
            end,
        ))
    }

    // base = "com" | "exp" small | "var" small | "(" type ")"
    #[cycle(ty)]
    fn base(&self, alloc: Global, at: usize) -> Result<(Ty, usize), Stop>
        requires stands { Stands self.now }
        requires within { at ≤ length self.now.tokens.now }
        ensures { IsTypeAnswer self.now Base at result }
    {
        match self.kind(at) {
            Some(TokenKind::Word(Word::Com)) => Ok((Ty::Com, at + 1)),
            Some(TokenKind::Word(Word::Exp)) => Ok((Ty::Exp(self.small(at + 1)?), at + 2)),
            Some(TokenKind::Word(Word::Var)) => Ok((Ty::Var(self.small(at + 1)?), at + 2)),
            Some(TokenKind::Sign(Sign::Open)) => {
                let (inner, end) = self.ty(alloc, at + 1)?;
                Ok((inner, self.after_sign(end, Sign::Close)?))
            }
            _ => Err(Stop::At(at)),
        }
    }
}
