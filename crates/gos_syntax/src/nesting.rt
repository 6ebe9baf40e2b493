// How deeply the tokens of a text are nested.

ghost use Rattle.std.specs.Prelude.{◌≡◌, ℕ, List, ◌+◌, ◌≤◌, ◌<◌, ◌∷◌, [], OnOk};
ghost use Rattle.gos_lex.specs.Tokens.{reading_as};
ghost use Rattle.gos_syntax.specs.inner.Nested.{levels_of, IsCounted};
ghost use Rattle.gos_syntax.specs.OpenTokens.{past, at_first, with_item, with_open, with_close, one_more, nothing};

use crate::levels::Level;
use gos_lex::{Sign, TokenKind, Word};
use std::alloc::{AllocError, Global};

// What stands before a token.
#[derive(Drop)]
pub(crate) struct Nesting {
    // In the innermost bracket that is still open.
    inner: Level,
    // In those around it, the outermost first.
    outer: Vec<Level>,
    // How many items stand in all of these.
    pub items: usize,
    // The greatest depth of a closed pair in all of these.
    pub deepest: usize,
}

impl Nesting {
    // Before the first token.
    pub fn new(alloc: Global) -> Nesting
        ensures levels { levels_of result ≡ at_first }
        ensures counted { IsCounted result }
        ensures open { result.items + result.deepest ≤ 1024 }
    {
        Nesting {
            inner: Level {
                items: 0,
                deepest: 0,
            },
            outer: Vec::new(alloc),
            items: 0,
            deepest: 0,
        }
    }

    // Goes past a token of a kind.
    pub fn pass(&mut self, kind: TokenKind) -> Result<(), AllocError>
        requires counted { IsCounted self.old }
        requires room { self.old.items + self.old.deepest ≤ 1024 }
        ensures levels { OnOk result ((bytes : List ℕ) → levels_of self.new ≡ past (levels_of self.old) (reading_as bytes kind)) }
        ensures counted { OnOk result (IsCounted self.new) }
        ensures grown { OnOk result (self.new.items + self.new.deepest ≤ 1026) }
    {
        match kind {
            TokenKind::Word(Word::Import) | TokenKind::Word(Word::Export) => self.restart(),
            TokenKind::Sign(Sign::Open) => self.open()?,
            TokenKind::Sign(Sign::Close) => self.close(),
            _ => self.item(),
        }
        Ok(())
    }

    // Begins anew with an `import` or `export`.
    fn restart(&mut self)
        ensures levels { levels_of self.new ≡ one_more nothing ∷ [] }
        ensures counted { IsCounted self.new }
        ensures grown { self.new.items + self.new.deepest ≤ 1026 }
    {
        self.outer.clear();
        self.inner = Level {
            items: 1,
            deepest: 0,
        };
        self.items = 1;
        self.deepest = 0;
    }

    // Goes past an item that is no closed pair.
    fn item(&mut self)
        requires counted { IsCounted self.old }
        requires room { self.old.items + self.old.deepest ≤ 1024 }
        ensures levels { levels_of self.new ≡ with_item (levels_of self.old) }
        ensures counted { IsCounted self.new }
        ensures grown { self.new.items + self.new.deepest ≤ 1025 }
    {
        self.inner.items += 1;
        self.items += 1;
    }

    // Goes past an open bracket.
    fn open(&mut self) -> Result<(), AllocError>
        requires counted { IsCounted self.old }
        requires room { self.old.items + self.old.deepest ≤ 1024 }
        ensures levels { OnOk result (levels_of self.new ≡ with_open (levels_of self.old)) }
        ensures counted { OnOk result (IsCounted self.new) }
        ensures grown { OnOk result (self.new.items + self.new.deepest ≤ 1025) }
    {
        self.item();
        self.outer.push(self.inner)?;
        self.inner = Level {
            items: 0,
            deepest: 0,
        };
        Ok(())
    }

    // Goes past a close bracket.
    fn close(&mut self)
        requires counted { IsCounted self.old }
        requires room { self.old.items + self.old.deepest ≤ 1024 }
        ensures levels { levels_of self.new ≡ with_close (levels_of self.old) }
        ensures counted { IsCounted self.new }
        ensures grown { self.new.items + self.new.deepest ≤ 1026 }
    {
        match self.outer.pop() {
            Some(level) => {
                let depth = 2 + self.inner.items + self.inner.deepest;
                self.items -= self.inner.items;
                self.deepest = self.deepest.max(depth);
                self.inner = Level {
                    items: level.items,
                    deepest: level.deepest.max(depth),
                };
            }
            None => self.item(),
        }
    }
}
