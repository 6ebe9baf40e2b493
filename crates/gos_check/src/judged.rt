// What is known of a term that is typed, from what is known of its parts.

ghost use Rattle.std.specs.Prelude.{◌≡◌, ◌+◌, ◌^◌, ◌<◌, ◌≤◌, [], ◌∷◌, IfOk, IfErr};
ghost use Rattle.gos_types.specs.Types.{type_of};
ghost use Rattle.gos_model.specs.Weight.{count};
ghost use Rattle.gos_check.specs.Sizes.{IsCountable};
ghost use Rattle.gos_check.specs.Written.{small, literal};
ghost use Rattle.gos_check.specs.Free.{joined, without};
ghost use Rattle.gos_check.specs.Demands.{done, choice};
ghost use Rattle.gos_check.specs.inner.Rules.{rule_of_one, two_rule, function_found};
ghost use Rattle.gos_check.specs.inner.Known.{Finds, IsKnown};

use crate::demands;
use crate::fault::CheckFault;
use crate::forms::{OnePart, TwoParts, function_type};
use crate::free::{Occurrence, joined, one_name, without};
use crate::written::{literal, small};
use gos_lex::{Name, Span};
use gos_types::{Ty, copy};
use std::alloc::Global;

// What is known of a term that is typed.
#[derive(Drop)]
pub(crate) struct Judged {
    pub ty: Ty,
    pub free: Vec<Occurrence>,
    pub weight: u64,
}

// With the term's own node, whose type may have no more handshakes than are allowed.
pub(crate) fn counted(span: Span, part: Judged) -> Result<Judged, CheckFault>
    requires countable { IsCountable (type_of part.ty) }
    requires weight { part.weight + 68 < 2 ^ 64 }
    ensures found { Finds (small span (type_of part.ty)) result }
    ensures known { IfOk result (λ whole. (whole.free.items ≡ part.free.items) × (count (type_of whole.ty) ≤ 64)
        × (whole.weight ≡ part.weight + 4 + count (type_of whole.ty))) }
{
    let handshakes = small(span, &part.ty)?;
    Ok(Judged {
        ty: part.ty,
        free: part.free,
        weight: part.weight + 4 + handshakes,
    })
}

// A term without names.
pub(crate) fn closed(alloc: Global, ty: Ty) -> Judged
    requires { IsCountable (type_of ty) }
    ensures ty { type_of result.ty ≡ type_of ty }
    ensures known { IsKnown [] 0 result }
{
    Judged {
        ty,
        free: Vec::new(alloc),
        weight: 0,
    }
}

// A literal.
pub(crate) fn typed_literal(
    alloc: Global,
    span: Span,
    value: u64,
    width: u32,
) -> Result<Judged, CheckFault>
    ensures found { Finds (literal span value width) result }
    ensures known { IfOk result (λ part. IsKnown [] 0 part) }
{
    let ty = literal(span, value, width)?;
    Ok(closed(alloc, ty))
}

// A name of this type.
pub(crate) fn typed_name(
    alloc: Global,
    name: &Name,
    span: Span,
    ty: &Ty,
) -> Result<Judged, CheckFault>
    requires { IsCountable (type_of ty.now) }
    ensures ty { IfOk result (λ part. type_of part.ty ≡ type_of ty.now) }
    ensures known { IfOk result (λ part. IsKnown (record { name = name.now; span = span } ∷ []) 0 part) }
    ensures err { IfErr result (λ e. e ≡ CheckFault.NoMemory) }
{
    let ty = copy(alloc, ty)?;
    Ok(Judged {
        ty,
        free: one_name(alloc, name, span)?,
        weight: 0,
    })
}

// A function, whose body is typed.
pub(crate) fn typed_function(
    alloc: Global,
    name: &Name,
    ty: &Ty,
    body: Judged,
) -> Result<Judged, CheckFault>
    requires argument { count (type_of ty.now) ≤ 64 }
    requires outcome { count (type_of body.ty) ≤ 64 }
    ensures found { Finds (function_found (type_of ty.now) (type_of body.ty)) result }
    ensures known { IfOk result (λ part. IsKnown (without name.now body.free.items) body.weight part) }
{
    let ty = function_type(alloc, ty, body.ty)?;
    Ok(Judged {
        ty,
        free: without(alloc, name, body.free)?,
        weight: body.weight,
    })
}

// A block with a variable, whose body is typed and stands at this place.
pub(crate) fn typed_block(
    alloc: Global,
    name: &Name,
    span: Span,
    body: Judged,
) -> Result<Judged, CheckFault>
    requires { count (type_of body.ty) ≤ 64 }
    ensures found { Finds (done span (type_of body.ty)) result }
    ensures known { IfOk result (λ part. IsKnown (without name.now body.free.items) body.weight part) }
{
    let ty = demands::done(span, body.ty)?;
    Ok(Judged {
        ty,
        free: without(alloc, name, body.free)?,
        weight: body.weight,
    })
}

// A block with an array of so many numbers, whose body is typed and stands at this place.
pub(crate) fn typed_array(
    alloc: Global,
    name: &Name,
    span: Span,
    length: u32,
    body: Judged,
) -> Result<Judged, CheckFault>
    requires outcome { count (type_of body.ty) ≤ 64 }
    requires weight { length + body.weight < 2 ^ 64 }
    ensures found { Finds (done span (type_of body.ty)) result }
    ensures known { IfOk result (λ part. IsKnown (without name.now body.free.items) (length + body.weight) part) }
{
    let block = typed_block(alloc, name, span, body)?;
    Ok(Judged {
        ty: block.ty,
        free: block.free,
        weight: u64::from(length) + block.weight,
    })
}

// A form of one part.
pub(crate) fn typed_one(rule: OnePart, span: Span, part: Judged) -> Result<Judged, CheckFault>
    requires { count (type_of part.ty) ≤ 64 }
    ensures found { Finds (rule_of_one rule span (type_of part.ty)) result }
    ensures known { IfOk result (λ whole. IsKnown part.free.items part.weight whole) }
{
    let ty = rule.outcome(span, part.ty)?;
    Ok(Judged {
        ty,
        free: part.free,
        weight: part.weight,
    })
}

// A form of two parts.
pub(crate) fn typed_two(
    alloc: Global,
    rule: TwoParts,
    s: Span,
    left: Judged,
    t: Span,
    right: Judged,
) -> Result<Judged, CheckFault>
    requires left { count (type_of left.ty) ≤ 64 }
    requires right { count (type_of right.ty) ≤ 64 }
    requires weight { left.weight + right.weight < 2 ^ 64 }
    ensures found { Finds (two_rule rule s (type_of left.ty) left.free.items t (type_of right.ty) right.free.items) result }
    ensures known { IfOk result (λ part. IsKnown (joined left.free.items right.free.items) (left.weight + right.weight) part) }
{
    let ty = rule.outcome(alloc, s, left.ty, t, right.ty)?;
    rule.separate(alloc, left.free.as_slice(), right.free.as_slice())?;
    Ok(Judged {
        ty,
        free: joined(alloc, left.free, right.free)?,
        weight: left.weight + right.weight,
    })
}

// The type of a choice, and the free names of its test and of both branches.
pub(crate) fn typed_choice(
    alloc: Global,
    s: Span,
    test: Judged,
    t: Span,
    yes: Judged,
    u: Span,
    no: Judged,
) -> Result<Judged, CheckFault>
    requires no { count (type_of no.ty) ≤ 64 }
    requires weight { test.weight + yes.weight + no.weight < 2 ^ 64 }
    ensures found { Finds (choice s (type_of test.ty) t (type_of yes.ty) u (type_of no.ty)) result }
    ensures known { IfOk result (λ part. IsKnown (joined (joined test.free.items yes.free.items) no.free.items)
        (test.weight + yes.weight + no.weight) part) }
{
    let ty = demands::choice(s, test.ty, t, yes.ty, u, no.ty)?;
    let free = joined(alloc, test.free, yes.free)?;
    Ok(Judged {
        ty,
        free: joined(alloc, free, no.free)?,
        weight: test.weight + yes.weight + no.weight,
    })
}
