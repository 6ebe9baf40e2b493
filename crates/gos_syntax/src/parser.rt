// The parser: from tokens to a module.

ghost use Rattle.std.specs.Prelude.{◌+◌, ◌<◌, ◌≤◌, [], ◌∷◌, map, length, All, IfOk, IfErr};
ghost use Rattle.gos_lex.specs.Tokens.{StandsIn};
ghost use Rattle.gos_syntax.specs.Items.{seen, Stands};
ghost use Rattle.gos_syntax.specs.Grammar.{HasWord};
ghost use Rattle.gos_lex.specs.declared.word.Word.TheVariants as words;
ghost use Rattle.gos_syntax.specs.ModuleTrees.{import_tree, module_tree};
ghost use Rattle.gos_syntax.specs.Symbols.{Part, Module as AModule};
ghost use Rattle.gos_syntax.specs.Spelling.{Leads, Stops};
ghost use Rattle.gos_syntax.specs.ParsedModules.{IsImport, AreImports, IsModule, IsParsed, HasFault};
ghost use Rattle.gos_syntax.specs.inner.Answers.{IsNoModule, IsFaultOf, IsFaultBefore};

use crate::fault::{Stop, SyntaxFault};
use crate::limits::Limit;
use crate::module::{Import, Module};
use crate::source::Source;
use gos_lex::{Sign, Token, Word};
use std::alloc::Global;

/// The module that the tokens of a text are. The tokens are those that `scan` gives for the text.
///
/// `Err` is the fault that comes first in the text, or want of memory. At one place `Depth` comes before `TooManyImports`,
/// and that before `Unexpected`.
pub fn parse(alloc: Global, text: &[u8], tokens: &[Token]) -> Result<Module, SyntaxFault>
    requires { All (StandsIn text.now) tokens.now }
    ensures module { IfOk result (IsParsed text.now tokens.now) }
    ensures fault { IfErr result (HasFault text.now tokens.now) }
{
    let source = Source { text, tokens };
    match source.limit(alloc)? {
        Limit::Nowhere => match source.module(alloc) {
            Ok(module) => Ok(module),
            Err(stop) => Err(source.fault(stop)),
        },
        Limit::Nested(end) => {
            let at = source.place(end);
            Err(source.fault_before(alloc, end, SyntaxFault::Depth { at }))
        }
        Limit::Imports(end) => {
            let at = source.place(end);
            Err(source.fault_before(alloc, end, SyntaxFault::TooManyImports { at }))
        }
    }
}

impl<'a> Source<'a> {
    // The fault of a text in which no phrase was read.
    fn fault(&self, stop: Stop) -> SyntaxFault
        ensures { IsFaultOf self.now.text.now self.now.tokens.now stop result }
    {
        match stop {
            Stop::At(at) => SyntaxFault::Unexpected { at: self.place(at) },
            Stop::NoMemory => SyntaxFault::NoMemory,
        }
    }

    // The fault of a text that passes a limit at this token: the limit's, unless the tokens before it begin no module.
    fn fault_before(&self, alloc: Global, end: usize, limit: SyntaxFault) -> SyntaxFault
        requires stands { Stands self.now }
        requires within { end < length self.now.tokens.now }
        ensures { IsFaultBefore self.now.text.now self.now.tokens.now end limit result }
    {
        let before = Source {
            text: self.text,
            tokens: &self.tokens[..end],
        };
        match before.module(alloc) {
            Err(Stop::At(at)) if at < end => SyntaxFault::Unexpected { at: self.place(at) },
            Err(Stop::NoMemory) => SyntaxFault::NoMemory,
            _ => limit,
        }
    }

    // module = { "import" name ":" type } "export" term ":" type
    fn module(&self, alloc: Global) -> Result<Module, Stop>
        requires { Stands self.now }
        ensures derived { IfOk result (λ made. IsModule (seen self.now) (module_tree made)) }
        ensures refused { IfErr result (IsNoModule (seen self.now)) }
    {
        let (imports, at) = self.imports(alloc)?;
        let body_at = self.after_word(at, Word::Export)?;
        let (body, end) = self.term(alloc, body_at)?;
        let result_at = self.after_sign(end, Sign::Colon)?;
        let (result, end) = self.ty(alloc, result_at)?;
        if end < self.tokens.len() {
            return Err(Stop::At(end));
        }
        Ok(Module {
            imports,
            body: Box::into_inner(body),
            result,
            result_span: self.span(result_at, end),
        })
    }

    // The imports, and the number of the token after them.
    #[tactic(auto, using(crate::proofs::ImportLemmas::imports_more))]
    fn imports(&self, alloc: Global) -> Result<(Vec<Import>, usize), Stop>
        requires { Stands self.now }
        ensures imports { IfOk result (λ read. AreImports (seen self.now) 0 read.1 (map import_tree read.0.items)) }
        ensures within { IfOk result (λ read. read.1 ≤ length self.now.tokens.now) }
        ensures last { IfOk result (λ read. HasWord (seen self.now) read.1 words.Import → ⊥) }
        ensures read { IfOk result (λ read. Leads (seen self.now) (Part AModule ∷ []) 0 (Part AModule ∷ []) read.1) }
        ensures refused { IfErr result (Stops (seen self.now) (Part AModule ∷ []) 0) }
    {
        let mut imports = Vec::new(alloc);
        let mut at = 0;
        while self.is_word(at, Word::Import) {
            let (import, after) = self.import(alloc, at)?;
            imports.push(import)?;
            at = after;
        }
        Ok((imports, at))
    }

    // "import" name ":" type
    fn import(&self, alloc: Global, at: usize) -> Result<(Import, usize), Stop>
        requires stands { Stands self.now }
        requires word { HasWord (seen self.now) at words.Import }
        requires room { at < length self.now.tokens.now }
        ensures after { IfOk result (λ read. at < read.1) }
        ensures within { IfOk result (λ read. read.1 ≤ length self.now.tokens.now) }
        ensures import { IfOk result (λ read. IsImport (seen self.now) at read.1 (import_tree read.0)) }
        ensures read { IfOk result (λ read. Leads (seen self.now) (Part AModule ∷ []) at (Part AModule ∷ []) read.1) }
        ensures refused { IfErr result (Stops (seen self.now) (Part AModule ∷ []) at) }
    {
        let name = self.name(alloc, at + 1)?;
        let name_span = self.span(at + 1, at + 2);
        let ty_at = self.after_sign(at + 2, Sign::Colon)?;
        let (ty, end) = self.ty(alloc, ty_at)?;
        let ty_span = self.span(ty_at, end);
        Ok((
            Import {
                name,
                name_span,
                ty,
                ty_span,
            },
            end,
        ))
    }
}
