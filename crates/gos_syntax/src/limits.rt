// Where the tokens of a text pass a limit.

ghost use Rattle.std.specs.Prelude.{◌<◌, IfOk, MatchOption};
ghost use Rattle.gos_syntax.specs.Firsts.{IsFirstDeep, IsFirstExtra, NoneIsDeep, NoneIsExtra, IsLimit};

use crate::nesting::Nesting;
use crate::source::Source;
use gos_lex::Word;
use std::alloc::{AllocError, Global};

// How many tokens may be open before a token.
const MAX_OPEN: usize = 1_024;

// How many imports a module may have.
const MAX_IMPORTS: usize = 64;

// The first token at which a limit is passed.
#[derive(Clone, Copy)]
pub(crate) enum Limit {
    // There is none.
    Nowhere,
    // Too many tokens are open before this token.
    Nested(usize),
    // This token is an import too many.
    Imports(usize),
}

impl<'a> Source<'a> {
    // The first limit that is passed. Where two are passed at one token, it is that of nesting.
    pub(crate) fn limit(&self, alloc: Global) -> Result<Limit, AllocError>
        ensures { IfOk result (IsLimit self.now.text.now self.now.tokens.now) }
    {
        let extra = self.extra_import();
        match (self.first_deep(alloc)?, extra) {
            (Some(deep), Some(extra)) if extra < deep => Ok(Limit::Imports(extra)),
            (Some(deep), _) => Ok(Limit::Nested(deep)),
            (None, Some(extra)) => Ok(Limit::Imports(extra)),
            (None, None) => Ok(Limit::Nowhere),
        }
    }

    // The first token with too many open tokens before it.
    fn first_deep(&self, alloc: Global) -> Result<Option<usize>, AllocError>
        ensures { IfOk result (λ found. MatchOption found (NoneIsDeep self.now.text.now self.now.tokens.now)
            (IsFirstDeep self.now.text.now self.now.tokens.now)) }
    {
        let mut nesting = Nesting::new(alloc);
        for at in 0..self.tokens.len() {
            if nesting.items + nesting.deepest > MAX_OPEN {
                return Ok(Some(at));
            }
            nesting.pass(self.tokens[at].kind)?;
        }
        Ok(None)
    }

    // The first import that is one too many.
    #[tactic(auto, using(crate::proofs::NestingLemmas::one_import_more, crate::proofs::NestingLemmas::as_many_imports))]
    fn extra_import(&self) -> Option<usize>
        ensures { MatchOption result (NoneIsExtra self.now.text.now self.now.tokens.now) (IsFirstExtra self.now.text.now self.now.tokens.now) }
    {
        let mut imports = 0;
        for at in 0..self.tokens.len() {
            if self.is_word(at, Word::Import) {
                if imports == MAX_IMPORTS {
                    return Some(at);
                }
                imports += 1;
            }
        }
        None
    }
}
