// The terms of a source text: one function for each rule of the grammar, and for each way of a rule that takes more
// than a step.
//
// Each gives the term that it read, and the number of the token after it. What it answers is said in
// specs/inner/Phrases.antt: also that nothing else was to be read, and that none goes on past a stop.
//
// The ways of a rule are compiled into the rule's function, so that deep nesting takes no more of the stack for them.

ghost use Rattle.std.specs.Prelude.{◌≡◌, ◌<◌, ◌≤◌, length};
ghost use Rattle.gos_lex.specs.declared.word.Word.TheVariants as words;
ghost use Rattle.gos_lex.specs.declared.sign.Sign.TheVariants as signs;
ghost use Rattle.gos_lex.specs.declared.token.Span.{Span};
ghost use Rattle.gos_syntax.specs.Items.{seen, Stands, reading_at};
ghost use Rattle.gos_syntax.specs.Trees.{tree_of};
ghost use Rattle.gos_syntax.specs.Grammar.{HasWord, HasSign, HasNumber, Term as ATerm, Par, Cmd, Rel, Bits, Sum, App, Pre, Atom};
ghost use Rattle.gos_syntax.specs.inner.Beginnings.{IsNoBinder, IsNoControl};
ghost use Rattle.gos_syntax.specs.inner.Phrases.{IsTermAnswer, IsNodeAnswer};
ghost use Rattle.gos_syntax.specs.inner.Heads.{IsParameterAnswer, IsLengthAnswer, IsLocalAnswer, block_tree};

use crate::fault::Stop;
use crate::operators::Level;
use crate::source::Source;
use crate::terms::{Form, Term};
use gos_lex::{Name, Sign, Span, TokenKind, Word};
use gos_types::Ty;
use std::alloc::Global;

// What stands before the body of a function.
#[derive(Drop)]
pub(crate) struct Parameter {
    name: Name,
    ty: Ty,
    ty_span: Span,
}

// How many numbers an array has, as it is written.
#[derive(Clone, Copy)]
pub(crate) struct ArrayLength {
    value: u32,
    span: Span,
}

// What stands before the body of a block. A variable has no length.
#[derive(Drop)]
pub(crate) struct Local {
    name: Name,
    length: Option<ArrayLength>,
    width: u32,
    width_span: Span,
}

impl Local {
    // The block of this variable or array, around its body.
    fn block(self, body: Box<Term>) -> Form
        ensures { (span : Span) → tree_of result span ≡ block_tree span self (tree_of body.value.form body.value.span) }
    {
        let Local {
            name,
            length,
            width,
            width_span,
        } = self;
        match length {
            None => Form::New {
                name,
                width,
                width_span,
                body,
            },
            Some(length) => Form::Array {
                name,
                length: length.value,
                length_span: length.span,
                width,
                width_span,
                body,
            },
        }
    }
}

impl<'a> Source<'a> {
    // term = function | block | sequence
    #[cycle(term)]
    pub(crate) fn term(&self, alloc: Global, at: usize) -> Result<(Box<Term>, usize), Stop>
        requires stands { Stands self.now }
        requires within { at ≤ length self.now.tokens.now }
        ensures { IsTermAnswer self.now ATerm at result }
    {
        match self.kind(at) {
            Some(TokenKind::Word(Word::Fun)) => self.function(alloc, at),
            Some(TokenKind::Word(Word::New)) => self.block(alloc, at),
            _ => self.sequence(alloc, at),
        }
    }

    // function = "fun" name ":" type "." term
    #[cycle(term)]
    #[inline(always)]
    fn function(&self, alloc: Global, at: usize) -> Result<(Box<Term>, usize), Stop>
        requires stands { Stands self.now }
        requires room { at < length self.now.tokens.now }
        requires word { HasWord (seen self.now) at words.Fun }
        ensures { IsTermAnswer self.now ATerm at result }
    {
        let (Parameter { name, ty, ty_span }, body_at) = self.parameter(alloc, at)?;
        let (body, end) = self.term(alloc, body_at)?;
        let form = Form::Fun {
            name,
            ty,
            ty_span,
            body,
        };
        self.node(alloc, at, end, form)
    }

    // block = "new" name [ "[" small "]" ] ":" small "in" term
    #[cycle(term)]
    #[inline(always)]
    fn block(&self, alloc: Global, at: usize) -> Result<(Box<Term>, usize), Stop>
        requires stands { Stands self.now }
        requires room { at < length self.now.tokens.now }
        requires word { HasWord (seen self.now) at words.New }
        ensures { IsTermAnswer self.now ATerm at result }
    {
        let (local, body_at) = self.local(alloc, at)?;
        let (body, end) = self.term(alloc, body_at)?;
        self.node(alloc, at, end, local.block(body))
    }

    // sequence = par [ ";" term ]
    #[cycle(term)]
    #[inline(always)]
    fn sequence(&self, alloc: Global, at: usize) -> Result<(Box<Term>, usize), Stop>
        requires stands { Stands self.now }
        requires within { at ≤ length self.now.tokens.now }
        requires first { IsNoBinder (reading_at (seen self.now) at) }
        ensures { IsTermAnswer self.now ATerm at result }
    {
        let (first, end) = self.par(alloc, at)?;
        if !self.is_sign(end, Sign::Semicolon) {
            return Ok((first, end));
        }
        let (second, end) = self.term(alloc, end + 1)?;
        self.node(alloc, at, end, Form::Seq(first, second))
    }

    // par = cmd [ "||" par ]
    #[cycle(term)]
    fn par(&self, alloc: Global, at: usize) -> Result<(Box<Term>, usize), Stop>
        requires stands { Stands self.now }
        requires within { at ≤ length self.now.tokens.now }
        ensures { IsTermAnswer self.now Par at result }
    {
        let (left, end) = self.cmd(alloc, at)?;
        if !self.is_sign(end, Sign::Parallel) {
            return Ok((left, end));
        }
        let (right, end) = self.par(alloc, end + 1)?;
        self.node(alloc, at, end, Form::Par(left, right))
    }

    // cmd = choice | repetition | assignment
    #[cycle(term)]
    fn cmd(&self, alloc: Global, at: usize) -> Result<(Box<Term>, usize), Stop>
        requires stands { Stands self.now }
        requires within { at ≤ length self.now.tokens.now }
        ensures { IsTermAnswer self.now Cmd at result }
    {
        match self.kind(at) {
            Some(TokenKind::Word(Word::If)) => self.choice(alloc, at),
            Some(TokenKind::Word(Word::While)) => self.repetition(alloc, at),
            _ => self.assignment(alloc, at),
        }
    }

    // choice = "if" term "then" cmd "else" cmd
    #[cycle(term)]
    #[inline(always)]
    fn choice(&self, alloc: Global, at: usize) -> Result<(Box<Term>, usize), Stop>
        requires stands { Stands self.now }
        requires room { at < length self.now.tokens.now }
        requires word { HasWord (seen self.now) at words.If }
        ensures { IsTermAnswer self.now Cmd at result }
    {
        let (test, end) = self.term(alloc, at + 1)?;
        let (yes, end) = self.cmd(alloc, self.after_word(end, Word::Then)?)?;
        let (no, end) = self.cmd(alloc, self.after_word(end, Word::Else)?)?;
        self.node(alloc, at, end, Form::If(test, yes, no))
    }

    // repetition = "while" term "do" cmd
    #[cycle(term)]
    #[inline(always)]
    fn repetition(&self, alloc: Global, at: usize) -> Result<(Box<Term>, usize), Stop>
        requires stands { Stands self.now }
        requires room { at < length self.now.tokens.now }
        requires word { HasWord (seen self.now) at words.While }
        ensures { IsTermAnswer self.now Cmd at result }
    {
        let (test, end) = self.term(alloc, at + 1)?;
        let (body, end) = self.cmd(alloc, self.after_word(end, Word::Do)?)?;
        self.node(alloc, at, end, Form::While(test, body))
    }

    // assignment = rel [ ":=" rel ]
    #[cycle(term)]
    #[inline(always)]
    fn assignment(&self, alloc: Global, at: usize) -> Result<(Box<Term>, usize), Stop>
        requires stands { Stands self.now }
        requires within { at ≤ length self.now.tokens.now }
        requires first { IsNoControl (reading_at (seen self.now) at) }
        ensures { IsTermAnswer self.now Cmd at result }
    {
        let (left, end) = self.rel(alloc, at)?;
        if !self.is_sign(end, Sign::Assign) {
            return Ok((left, end));
        }
        let (right, end) = self.rel(alloc, end + 1)?;
        self.node(alloc, at, end, Form::Assign(left, right))
    }

    // rel = bits [ ( "=" | "<" ) bits ]
    #[cycle(term)]
    fn rel(&self, alloc: Global, at: usize) -> Result<(Box<Term>, usize), Stop>
        requires stands { Stands self.now }
        requires within { at ≤ length self.now.tokens.now }
        ensures { IsTermAnswer self.now Rel at result }
    {
        let (left, end) = self.bits(alloc, at)?;
        match self.operator(end, Level::Comparing) {
            Some(op) => {
                let (right, end) = self.bits(alloc, end + 1)?;
                self.node(alloc, at, end, Form::Bin(op, left, right))
            }
            None => Ok((left, end)),
        }
    }

    // bits = sum { ( "&" | "|" | "^" ) sum }
    #[cycle(term)]
    fn bits(&self, alloc: Global, at: usize) -> Result<(Box<Term>, usize), Stop>
        requires stands { Stands self.now }
        requires within { at ≤ length self.now.tokens.now }
        ensures { IsTermAnswer self.now Bits at result }
    {
        let (mut left, mut end) = self.sum(alloc, at)?;
        while let Some(op) = self.operator(end, Level::OnBits) {
            let (right, after) = self.sum(alloc, end + 1)?;
            (left, end) = self.node(alloc, at, after, Form::Bin(op, left, right))?;
        }
        Ok((left, end))
    }

    // sum = app { ( "+" | "-" ) app }
    #[cycle(term)]
    fn sum(&self, alloc: Global, at: usize) -> Result<(Box<Term>, usize), Stop>
        requires stands { Stands self.now }
        requires within { at ≤ length self.now.tokens.now }
        ensures { IsTermAnswer self.now Sum at result }
    {
        let (mut left, mut end) = self.app(alloc, at)?;
        while let Some(op) = self.operator(end, Level::Adding) {
            let (right, after) = self.app(alloc, end + 1)?;
            (left, end) = self.node(alloc, at, after, Form::Bin(op, left, right))?;
        }
        Ok((left, end))
    }

    // app = pre { pre }
    #[cycle(term)]
    fn app(&self, alloc: Global, at: usize) -> Result<(Box<Term>, usize), Stop>
        requires stands { Stands self.now }
        requires within { at ≤ length self.now.tokens.now }
        ensures { IsTermAnswer self.now App at result }
    {
        let (mut function, mut end) = self.pre(alloc, at)?;
        while self.begins_operand(end) {
            let (argument, after) = self.pre(alloc, end)?;
            (function, end) = self.node(alloc, at, after, Form::App(function, argument))?;
        }
        Ok((function, end))
    }

    // pre = ( "not" | "!" | "fst" | "snd" ) pre | atom
    #[cycle(term)]
    fn pre(&self, alloc: Global, at: usize) -> Result<(Box<Term>, usize), Stop>
        requires stands { Stands self.now }
        requires within { at ≤ length self.now.tokens.now }
        ensures { IsTermAnswer self.now Pre at result }
    {
        match self.kind(at) {
            Some(TokenKind::Word(Word::Not)) => {
                let (operand, end) = self.pre(alloc, at + 1)?;
                self.node(alloc, at, end, Form::Not(operand))
            }
            Some(TokenKind::Sign(Sign::Bang)) => {
                let (operand, end) = self.pre(alloc, at + 1)?;
                self.node(alloc, at, end, Form::Deref(operand))
            }
            Some(TokenKind::Word(Word::Fst)) => {
                let (operand, end) = self.pre(alloc, at + 1)?;
                self.node(alloc, at, end, Form::Fst(operand))
            }
            Some(TokenKind::Word(Word::Snd)) => {
                let (operand, end) = self.pre(alloc, at + 1)?;
                self.node(alloc, at, end, Form::Snd(operand))
            }
            _ => self.atom(alloc, at),
        }
    }

    // atom = "skip" | literal | name | brackets
    #[cycle(term)]
    fn atom(&self, alloc: Global, at: usize) -> Result<(Box<Term>, usize), Stop>
        requires stands { Stands self.now }
        requires within { at ≤ length self.now.tokens.now }
        ensures { IsTermAnswer self.now Atom at result }
    {
        match self.kind(at) {
            Some(TokenKind::Word(Word::Skip)) => self.node(alloc, at, at + 1, Form::Skip),
            Some(TokenKind::Number(value)) => self.literal(alloc, at, value),
            Some(TokenKind::Name) => {
                let name = self.name(alloc, at)?;
                self.node(alloc, at, at + 1, Form::Name(name))
            }
            Some(TokenKind::Sign(Sign::Open)) => self.brackets(alloc, at),
            _ => Err(Stop::At(at)),
        }
    }

    // literal = numeral ":" small, the first of which has been read
    fn literal(&self, alloc: Global, at: usize, value: u64) -> Result<(Box<Term>, usize), Stop>
        requires stands { Stands self.now }
        requires room { at < length self.now.tokens.now }
        requires number { HasNumber (seen self.now) at value }
        ensures { IsTermAnswer self.now Atom at result }
    {
        let width = self.small(self.after_sign(at + 1, Sign::Colon)?)?;
        self.node(alloc, at, at + 3, Form::Lit { value, width })
    }

    // brackets = "(" term [ "," term ] ")"
    #[cycle(term)]
    #[inline(always)]
    fn brackets(&self, alloc: Global, at: usize) -> Result<(Box<Term>, usize), Stop>
        requires stands { Stands self.now }
        requires room { at < length self.now.tokens.now }
        requires sign { HasSign (seen self.now) at signs.Open }
        ensures { IsTermAnswer self.now Atom at result }
    {
        let (first, end) = self.term(alloc, at + 1)?;
        if !self.is_sign(end, Sign::Comma) {
            return Ok((first, self.after_sign(end, Sign::Close)?));
        }
        let (second, end) = self.term(alloc, end + 1)?;
        let end = self.after_sign(end, Sign::Close)?;
        self.node(alloc, at, end, Form::Pair(first, second))
    }

    // What stands from the word `fun` to just before the body, and the number of the body's first token.
    fn parameter(&self, alloc: Global, at: usize) -> Result<(Parameter, usize), Stop>
        requires stands { Stands self.now }
        requires room { at < length self.now.tokens.now }
        ensures { IsParameterAnswer self.now at result }
    {
        let name = self.name(alloc, at + 1)?;
        let ty_at = self.after_sign(at + 2, Sign::Colon)?;
        let (ty, end) = self.ty(alloc, ty_at)?;
        let ty_span = self.span(ty_at, end);
        let body_at = self.after_sign(end, Sign::Dot)?;
        Ok((Parameter { name, ty, ty_span }, body_at))
    }

    // What stands from the word `new` to just before the body, and the number of the body's first token.
    fn local(&self, alloc: Global, at: usize) -> Result<(Local, usize), Stop>
        requires stands { Stands self.now }
        requires room { at < length self.now.tokens.now }
        ensures { IsLocalAnswer self.now at result }
    {
        let name = self.name(alloc, at + 1)?;
        let (length, colon_at) = self.array_length(at + 2)?;
        let width_at = self.after_sign(colon_at, Sign::Colon)?;
        let width = self.small(width_at)?;
        let width_span = self.span(width_at, width_at + 1);
        let body_at = self.after_word(width_at + 1, Word::In)?;
        Ok((
            Local {
                name,
                length,
                width,
                width_span,
            },
            body_at,
        ))
    }

    // length = [ "[" small "]" ]
    fn array_length(&self, at: usize) -> Result<(Option<ArrayLength>, usize), Stop>
        requires { at ≤ length self.now.tokens.now }
        ensures { IsLengthAnswer self.now at result }
    {
        if !self.is_sign(at, Sign::OpenSquare) {
            return Ok((None, at));
        }
        let value = self.small(at + 1)?;
        let span = self.span(at + 1, at + 2);
        let end = self.after_sign(at + 2, Sign::CloseSquare)?;
        Ok((Some(ArrayLength { value, span }), end))
    }

    // The term of a form that stands from one token to just before another, and the number of this other.
    #[inline(never)]
    fn node(
        &self,
        alloc: Global,
        from: usize,
        to: usize,
        form: Form,
    ) -> Result<(Box<Term>, usize), Stop>
        requires some { from < to }
        requires within { to ≤ length self.now.tokens.now }
        ensures { IsNodeAnswer self.now from to form result }
    {
        let span = self.span(from, to);
        Ok((Box::new(alloc, Term { span, form })?, to))
    }
}
