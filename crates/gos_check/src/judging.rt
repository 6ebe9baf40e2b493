// The walk over the body: the type of each term, its free names and its weight, or the first fault.
//
// The walk takes a step for each term. Beside it, names are compared: each name of a right part with those of both
// parts, a name with the binders around it, and a binder's name with those free in its body. So a term costs at most the
// square of the number of names that can be free at one place. In a source of 65,536 bytes these are 64 imports and some
// 200 binders, since the nesting of binders is bounded by the open tokens.

ghost use Rattle.std.specs.Prelude.{◌+◌, ◌*◌, ◌^◌, ◌<◌, [], ◌∷◌, map, Ok, IfOk};
ghost use Rattle.gos_types.specs.Types.{type_of, Fun, Var};
ghost use Rattle.gos_model.specs.Sources.{import_of};
ghost use Rattle.gos_model.specs.Typing.{array_type};
ghost use Rattle.gos_syntax.specs.Sizes.{size};
ghost use Rattle.gos_check.specs.Sizes.{IsCountable, WritesCountable, AreCountable};
ghost use Rattle.gos_check.specs.Faults.{after};
ghost use Rattle.gos_check.specs.Written.{written, written_width, written_length};
ghost use Rattle.gos_check.specs.Scopes.{type_at, used};
ghost use Rattle.gos_check.specs.Free.{free, joined, without};
ghost use Rattle.gos_check.specs.Demands.{done, choice};
ghost use Rattle.gos_check.specs.Judging.{place_of, of_two, of_three, judged};
ghost use Rattle.gos_check.specs.inner.Seen.{binders_of};
ghost use Rattle.gos_check.specs.inner.Rules.{rule_of_one, ruled};
ghost use Rattle.gos_check.specs.inner.Known.{Finds, IsKnown, IsBounded, IsWhole};
ghost use Rattle.gos_check.specs.inner.Walked.{tree, BindCountable, weight_of, parts_weight, parts_size, parts_judged};

use crate::fault::CheckFault;
use crate::forms::{OnePart, TwoParts};
use crate::judged::{
    Judged, closed, counted, typed_array, typed_block, typed_choice, typed_function, typed_literal,
    typed_name, typed_one, typed_two,
};
use crate::scope::Scope;
use crate::written::{written, written_length, written_width};
use gos_lex::{Name, Span};
use gos_syntax::{Form, Import, Term};
use gos_types::{Ty, array_type};
use std::alloc::Global;

// The type of a term, or its first fault.
#[cycle(judging)]
pub(crate) fn judge(
    alloc: Global,
    imports: &[Import],
    scope: &Scope,
    term: &Term,
) -> Result<Judged, CheckFault>
    requires imports { AreCountable imports.now }
    requires scope { BindCountable (binders_of scope.now) }
    requires size { size (tree term.now) < 2 ^ 32 }
    requires types { WritesCountable (tree term.now) }
    ensures found { Finds (judged (map import_of imports.now) (binders_of scope.now) (tree term.now)) result }
    ensures known { IfOk result (λ part. IsWhole (free (tree term.now))
        (weight_of (map import_of imports.now) (binders_of scope.now) (tree term.now)) (84 * size (tree term.now)) part) }
{
    let part = judge_form(alloc, imports, scope, term)?;
    counted(term.span, part)
}

// The same, before the handshakes of the term's own type are counted.
#[cycle(judging)]
fn judge_form(
    alloc: Global,
    imports: &[Import],
    scope: &Scope,
    term: &Term,
) -> Result<Judged, CheckFault>
    requires imports { AreCountable imports.now }
    requires scope { BindCountable (binders_of scope.now) }
    requires size { size (tree term.now) < 2 ^ 32 }
    requires types { WritesCountable (tree term.now) }
    ensures found { Finds (parts_judged (map import_of imports.now) (binders_of scope.now) (tree term.now)) result }
    ensures known { IfOk result (λ part. IsBounded (free (tree term.now))
        (parts_weight (map import_of imports.now) (binders_of scope.now) (tree term.now)) (84 * parts_size (tree term.now) + 16) part) }
{
    match &term.form {
        Form::Skip => Ok(closed(alloc, Ty::Com)),
        Form::Lit { value, width } => typed_literal(alloc, term.span, *value, *width),
        Form::Name(name) => judge_name(alloc, imports, scope, name, term.span),
        Form::Fun {
            name,
            ty,
            ty_span,
            body,
        } => judge_function(alloc, imports, scope, name, ty, *ty_span, body),
        Form::New {
            name,
            width,
            width_span,
            body,
        } => judge_block(alloc, imports, scope, name, *width, *width_span, body),
        Form::Array {
            name,
            length,
            length_span,
            width,
            width_span,
            body,
        } => {
            let length = (*length, *length_span);
            judge_array(
                alloc,
                imports,
                scope,
                name,
                length,
                (*width, *width_span),
                body,
            )
        }
        Form::App(m, n) => judge_two(alloc, imports, scope, TwoParts::Application, m, n),
        Form::Pair(m, n) => judge_two(alloc, imports, scope, TwoParts::Product, m, n),
        Form::Fst(m) => judge_one(alloc, imports, scope, OnePart::First, m),
        Form::Snd(m) => judge_one(alloc, imports, scope, OnePart::Second, m),
        Form::Seq(m, n) => judge_two(alloc, imports, scope, TwoParts::Sequence, m, n),
        Form::Par(m, n) => judge_two(alloc, imports, scope, TwoParts::Parallel, m, n),
        Form::If(m, n, p) => judge_choice(alloc, imports, scope, m, n, p),
        Form::While(m, n) => judge_two(alloc, imports, scope, TwoParts::Loop, m, n),
        Form::Assign(m, n) => judge_two(alloc, imports, scope, TwoParts::Assignment, m, n),
        Form::Deref(m) => judge_one(alloc, imports, scope, OnePart::Reading, m),
        Form::Not(m) => judge_one(alloc, imports, scope, OnePart::Negation, m),
        Form::Bin(op, m, n) => judge_two(alloc, imports, scope, TwoParts::Operation(*op), m, n),
    }
}

// A name that is used.
fn judge_name(
    alloc: Global,
    imports: &[Import],
    scope: &Scope,
    name: &Name,
    span: Span,
) -> Result<Judged, CheckFault>
    requires imports { AreCountable imports.now }
    requires scope { BindCountable (binders_of scope.now) }
    ensures found { Finds (used span name.now (type_at (map import_of imports.now) (binders_of scope.now) name.now)) result }
    ensures known { IfOk result (λ part. IsKnown (record { name = name.now; span = span } ∷ []) 0 part) }
{
    match scope.find(imports, name) {
        Some(ty) => typed_name(alloc, name, span, ty),
        None => Err(CheckFault::Unbound {
            name: Name::new(alloc, name.bytes())?,
            span,
        }),
    }
}

// A function.
#[cycle(judging)]
fn judge_function(
    alloc: Global,
    imports: &[Import],
    scope: &Scope,
    name: &Name,
    ty: &Ty,
    ty_span: Span,
    body: &Term,
) -> Result<Judged, CheckFault>
    requires imports { AreCountable imports.now }
    requires scope { BindCountable (binders_of scope.now) }
    requires size { size (tree body.now) + 1 < 2 ^ 32 }
    requires ty { IsCountable (type_of ty.now) }
    requires types { WritesCountable (tree body.now) }
    ensures found { Finds (after (written ty_span (type_of ty.now)) (λ _.
        after (judged (map import_of imports.now) (record { name = name.now; ty = type_of ty.now } ∷ binders_of scope.now)
        (tree body.now)) (λ b. Ok (Fun (type_of ty.now) b)))) result }
    ensures known { IfOk result (λ part. IsBounded (without name.now (free (tree body.now)))
        (weight_of (map import_of imports.now) (record { name = name.now; ty = type_of ty.now } ∷ binders_of scope.now)
        (tree body.now)) (84 * size (tree body.now) + 16) part) }
{
    written(ty_span, ty)?;
    let inner = Scope::Binder {
        name: &*name,
        ty: &*ty,
        outer: &*scope,
    };
    let body = judge(alloc, imports, &inner, body)?;
    typed_function(alloc, &*name, &*ty, body)
}

// A block with a variable.
#[cycle(judging)]
fn judge_block(
    alloc: Global,
    imports: &[Import],
    scope: &Scope,
    name: &Name,
    width: u32,
    width_span: Span,
    body: &Term,
) -> Result<Judged, CheckFault>
    requires imports { AreCountable imports.now }
    requires scope { BindCountable (binders_of scope.now) }
    requires size { size (tree body.now) + 1 < 2 ^ 32 }
    requires types { WritesCountable (tree body.now) }
    ensures found { Finds (after (written_width width_span width) (λ _.
        after (judged (map import_of imports.now) (record { name = name.now; ty = Var width } ∷ binders_of scope.now)
        (tree body.now)) (λ b. done (place_of (tree body.now)) b))) result }
    ensures known { IfOk result (λ part. IsBounded (without name.now (free (tree body.now)))
        (weight_of (map import_of imports.now) (record { name = name.now; ty = Var width } ∷ binders_of scope.now)
        (tree body.now)) (84 * size (tree body.now) + 16) part) }
{
    written_width(width_span, width)?;
    let variable = Ty::Var(width);
    let inner = Scope::Binder {
        name: &*name,
        ty: &variable,
        outer: &*scope,
    };
    let judged = judge(alloc, imports, &inner, body)?;
    typed_block(alloc, &*name, body.span, judged)
}

// A block with an array, with its length and its width, each with its place.
#[cycle(judging)]
fn judge_array(
    alloc: Global,
    imports: &[Import],
    scope: &Scope,
    name: &Name,
    length: (u32, Span),
    width: (u32, Span),
    body: &Term,
) -> Result<Judged, CheckFault>
    requires imports { AreCountable imports.now }
    requires scope { BindCountable (binders_of scope.now) }
    requires size { size (tree body.now) + 1 < 2 ^ 32 }
    requires types { WritesCountable (tree body.now) }
    ensures found { Finds (after (written_length length.1 length.0) (λ _. after (written_width width.1 width.0) (λ _.
        after (judged (map import_of imports.now) (record { name = name.now; ty = array_type length.0 width.0 } ∷ binders_of scope.now)
        (tree body.now)) (λ b. done (place_of (tree body.now)) b)))) result }
    ensures known { IfOk result (λ part. IsBounded (without name.now (free (tree body.now)))
        (length.0 + weight_of (map import_of imports.now) (record { name = name.now; ty = array_type length.0 width.0 } ∷ binders_of scope.now)
        (tree body.now)) (84 * size (tree body.now) + 16) part) }
{
    written_length(length.1, length.0)?;
    written_width(width.1, width.0)?;
    let array = array_type(alloc, length.0, width.0)?;
    let inner = Scope::Binder {
        name: &*name,
        ty: &array,
        outer: &*scope,
    };
    let judged = judge(alloc, imports, &inner, body)?;
    typed_array(alloc, &*name, body.span, length.0, judged)
}

// A form of one part.
#[cycle(judging)]
fn judge_one(
    alloc: Global,
    imports: &[Import],
    scope: &Scope,
    rule: OnePart,
    m: &Term,
) -> Result<Judged, CheckFault>
    requires imports { AreCountable imports.now }
    requires scope { BindCountable (binders_of scope.now) }
    requires size { size (tree m.now) + 1 < 2 ^ 32 }
    requires types { WritesCountable (tree m.now) }
    ensures found { Finds (after (judged (map import_of imports.now) (binders_of scope.now) (tree m.now)) (λ a.
        rule_of_one rule (place_of (tree m.now)) a)) result }
    ensures known { IfOk result (λ part. IsBounded (free (tree m.now))
        (weight_of (map import_of imports.now) (binders_of scope.now) (tree m.now)) (84 * size (tree m.now) + 16) part) }
{
    let part = judge(alloc, imports, scope, m)?;
    typed_one(rule, m.span, part)
}

// A form of two parts.
#[cycle(judging)]
fn judge_two(
    alloc: Global,
    imports: &[Import],
    scope: &Scope,
    rule: TwoParts,
    m: &Term,
    n: &Term,
) -> Result<Judged, CheckFault>
    requires imports { AreCountable imports.now }
    requires scope { BindCountable (binders_of scope.now) }
    requires size { size (tree m.now) + size (tree n.now) + 1 < 2 ^ 32 }
    requires left { WritesCountable (tree m.now) }
    requires right { WritesCountable (tree n.now) }
    ensures found { Finds (of_two (judged (map import_of imports.now) (binders_of scope.now) (tree m.now))
        (judged (map import_of imports.now) (binders_of scope.now) (tree n.now)) (λ a b.
        ruled rule (tree m.now) (tree n.now) a b)) result }
    ensures known { IfOk result (λ part. IsBounded (joined (free (tree m.now)) (free (tree n.now)))
        (weight_of (map import_of imports.now) (binders_of scope.now) (tree m.now)
        + weight_of (map import_of imports.now) (binders_of scope.now) (tree n.now))
        (84 * (size (tree m.now) + size (tree n.now)) + 16) part) }
{
    let left = judge(alloc, imports, scope, m)?;
    let right = judge(alloc, imports, scope, n)?;
    typed_two(alloc, rule, m.span, left, n.span, right)
}

// `if M then N else P`
#[cycle(judging)]
fn judge_choice(
    alloc: Global,
    imports: &[Import],
    scope: &Scope,
    m: &Term,
    n: &Term,
    p: &Term,
) -> Result<Judged, CheckFault>
    requires imports { AreCountable imports.now }
    requires scope { BindCountable (binders_of scope.now) }
    requires size { size (tree m.now) + size (tree n.now) + size (tree p.now) + 1 < 2 ^ 32 }
    requires test { WritesCountable (tree m.now) }
    requires yes { WritesCountable (tree n.now) }
    requires no { WritesCountable (tree p.now) }
    ensures found { Finds (of_three (judged (map import_of imports.now) (binders_of scope.now) (tree m.now))
        (judged (map import_of imports.now) (binders_of scope.now) (tree n.now))
        (judged (map import_of imports.now) (binders_of scope.now) (tree p.now)) (λ a b c.
        choice (place_of (tree m.now)) a (place_of (tree n.now)) b (place_of (tree p.now)) c)) result }
    ensures known { IfOk result (λ part. IsBounded (joined (joined (free (tree m.now)) (free (tree n.now))) (free (tree p.now)))
        (weight_of (map import_of imports.now) (binders_of scope.now) (tree m.now)
        + weight_of (map import_of imports.now) (binders_of scope.now) (tree n.now)
        + weight_of (map import_of imports.now) (binders_of scope.now) (tree p.now))
        (84 * (size (tree m.now) + size (tree n.now) + size (tree p.now)) + 16) part) }
{
    let test = judge(alloc, imports, scope, m)?;
    let yes = judge(alloc, imports, scope, n)?;
    let no = judge(alloc, imports, scope, p)?;
    typed_choice(alloc, m.span, test, n.span, yes, p.span, no)
}
