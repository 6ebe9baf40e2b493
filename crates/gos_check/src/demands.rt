// What each form demands of the types of its parts, and the type that it has then.
//
// A part is told by its place and its type. Demands are judged from left to right.

ghost use Rattle.std.specs.Prelude.{◌≡◌, Ok, IfOk, IfErr};
ghost use Rattle.gos_types.specs.Types as types;
ghost use Rattle.gos_types.specs.Types.{type_of};
ghost use Rattle.gos_model.specs.Terms.{result_width};
ghost use Rattle.gos_model.specs.Sources.{op_of};
ghost use Rattle.gos_check.specs.Faults.{Refuses};
ghost use Rattle.gos_check.specs.Demands.{
  demanded,
  done,
  expression,
  variable,
  function,
  product,
  application,
  first_side,
  second_side,
  sequence,
  parallel,
  choice,
  looping,
  assignment,
  reading,
  negation,
  operation,
};

use crate::fault::{CheckFault, Want};
use gos_lex::Span;
use gos_syntax::Op;
use gos_types::{Ty, same};

// This very type.
pub(crate) fn demanded(span: Span, want: Ty, got: Ty) -> Result<Ty, CheckFault>
    ensures ok { IfOk result (λ ty. demanded span (type_of want) (type_of got) ≡ Ok (type_of ty)) }
    ensures err { IfErr result (λ e. Refuses (demanded span (type_of want) (type_of got)) e) }
{
    if same(&want, &got) {
        Ok(got)
    } else {
        Err(CheckFault::Differs {
            span,
            want: Want::Just(want),
            got,
        })
    }
}

// A command or an expression.
pub(crate) fn done(span: Span, got: Ty) -> Result<Ty, CheckFault>
    ensures ok { IfOk result (λ ty. done span (type_of got) ≡ Ok (type_of ty)) }
    ensures err { IfErr result (λ e. Refuses (done span (type_of got)) e) }
{
    match got {
        Ty::Com => Ok(Ty::Com),
        Ty::Exp(width) => Ok(Ty::Exp(width)),
        got => Err(CheckFault::Differs {
            span,
            want: Want::ComOrExp,
            got,
        }),
    }
}

// The width of an expression.
fn expression(span: Span, got: Ty) -> Result<u32, CheckFault>
    ensures ok { IfOk result (λ width. expression span (type_of got) ≡ Ok width) }
    ensures err { IfErr result (λ e. Refuses (expression span (type_of got)) e) }
{
    match got {
        Ty::Exp(width) => Ok(width),
        got => Err(CheckFault::Differs {
            span,
            want: Want::AnyExp,
            got,
        }),
    }
}

// The width of a variable.
fn variable(span: Span, got: Ty) -> Result<u32, CheckFault>
    ensures ok { IfOk result (λ width. variable span (type_of got) ≡ Ok width) }
    ensures err { IfErr result (λ e. Refuses (variable span (type_of got)) e) }
{
    match got {
        Ty::Var(width) => Ok(width),
        got => Err(CheckFault::Differs {
            span,
            want: Want::AnyVar,
            got,
        }),
    }
}

// The argument and the outcome of a function.
fn function(span: Span, got: Ty) -> Result<(Ty, Ty), CheckFault>
    ensures ok { IfOk result (λ sides. function span (type_of got) ≡ Ok (type_of sides.0, type_of sides.1)) }
    ensures err { IfErr result (λ e. Refuses (function span (type_of got)) e) }
{
    match got {
        Ty::Fun(argument, outcome) => Ok((Box::into_inner(argument), Box::into_inner(outcome))),
        got => Err(CheckFault::NotFunction { span, got }),
    }
}

// The sides of a product.
fn product(span: Span, got: Ty) -> Result<(Ty, Ty), CheckFault>
    ensures ok { IfOk result (λ sides. product span (type_of got) ≡ Ok (type_of sides.0, type_of sides.1)) }
    ensures err { IfErr result (λ e. Refuses (product span (type_of got)) e) }
{
    match got {
        Ty::Pair(first, second) => Ok((Box::into_inner(first), Box::into_inner(second))),
        got => Err(CheckFault::NotPair { span, got }),
    }
}

// `M N`
pub(crate) fn application(s: Span, a: Ty, t: Span, b: Ty) -> Result<Ty, CheckFault>
    ensures ok { IfOk result (λ ty. application s (type_of a) t (type_of b) ≡ Ok (type_of ty)) }
    ensures err { IfErr result (λ e. Refuses (application s (type_of a) t (type_of b)) e) }
{
    let (argument, outcome) = function(s, a)?;
    demanded(t, argument, b)?;
    Ok(outcome)
}

// `fst M`
pub(crate) fn first_side(s: Span, a: Ty) -> Result<Ty, CheckFault>
    ensures ok { IfOk result (λ ty. first_side s (type_of a) ≡ Ok (type_of ty)) }
    ensures err { IfErr result (λ e. Refuses (first_side s (type_of a)) e) }
{
    let (first, _) = product(s, a)?;
    Ok(first)
}

// `snd M`
pub(crate) fn second_side(s: Span, a: Ty) -> Result<Ty, CheckFault>
    ensures ok { IfOk result (λ ty. second_side s (type_of a) ≡ Ok (type_of ty)) }
    ensures err { IfErr result (λ e. Refuses (second_side s (type_of a)) e) }
{
    let (_, second) = product(s, a)?;
    Ok(second)
}

// `M ; N`
pub(crate) fn sequence(s: Span, a: Ty, t: Span, b: Ty) -> Result<Ty, CheckFault>
    ensures ok { IfOk result (λ ty. sequence s (type_of a) t (type_of b) ≡ Ok (type_of ty)) }
    ensures err { IfErr result (λ e. Refuses (sequence s (type_of a) t (type_of b)) e) }
{
    demanded(s, Ty::Com, a)?;
    done(t, b)
}

// `M || N`
pub(crate) fn parallel(s: Span, a: Ty, t: Span, b: Ty) -> Result<Ty, CheckFault>
    ensures ok { IfOk result (λ ty. parallel s (type_of a) t (type_of b) ≡ Ok (type_of ty)) }
    ensures err { IfErr result (λ e. Refuses (parallel s (type_of a) t (type_of b)) e) }
{
    demanded(s, Ty::Com, a)?;
    demanded(t, Ty::Com, b)
}

// `if M then N else P`
pub(crate) fn choice(s: Span, a: Ty, t: Span, b: Ty, u: Span, c: Ty) -> Result<Ty, CheckFault>
    ensures ok { IfOk result (λ ty. choice s (type_of a) t (type_of b) u (type_of c) ≡ Ok (type_of ty)) }
    ensures err { IfErr result (λ e. Refuses (choice s (type_of a) t (type_of b) u (type_of c)) e) }
{
    demanded(s, Ty::Exp(1), a)?;
    let yes = done(t, b)?;
    demanded(u, yes, c)
}

// `while M do N`
pub(crate) fn looping(s: Span, a: Ty, t: Span, b: Ty) -> Result<Ty, CheckFault>
    ensures ok { IfOk result (λ ty. looping s (type_of a) t (type_of b) ≡ Ok (type_of ty)) }
    ensures err { IfErr result (λ e. Refuses (looping s (type_of a) t (type_of b)) e) }
{
    demanded(s, Ty::Exp(1), a)?;
    demanded(t, Ty::Com, b)
}

// `M := N`
pub(crate) fn assignment(s: Span, a: Ty, t: Span, b: Ty) -> Result<Ty, CheckFault>
    ensures ok { IfOk result (λ ty. assignment s (type_of a) t (type_of b) ≡ Ok (type_of ty)) }
    ensures err { IfErr result (λ e. Refuses (assignment s (type_of a) t (type_of b)) e) }
{
    let width = variable(s, a)?;
    demanded(t, Ty::Exp(width), b)?;
    Ok(Ty::Com)
}

// `! M`
pub(crate) fn reading(s: Span, a: Ty) -> Result<Ty, CheckFault>
    ensures ok { IfOk result (λ ty. reading s (type_of a) ≡ Ok (type_of ty)) }
    ensures err { IfErr result (λ e. Refuses (reading s (type_of a)) e) }
{
    let width = variable(s, a)?;
    Ok(Ty::Exp(width))
}

// `not M`
pub(crate) fn negation(s: Span, a: Ty) -> Result<Ty, CheckFault>
    ensures ok { IfOk result (λ ty. negation s (type_of a) ≡ Ok (type_of ty)) }
    ensures err { IfErr result (λ e. Refuses (negation s (type_of a)) e) }
{
    let width = expression(s, a)?;
    Ok(Ty::Exp(width))
}

// `M op N`
pub(crate) fn operation(op: Op, s: Span, a: Ty, t: Span, b: Ty) -> Result<Ty, CheckFault>
    ensures ok { IfOk result (λ ty. operation op s (type_of a) t (type_of b) ≡ Ok (type_of ty)) }
    ensures err { IfErr result (λ e. Refuses (operation op s (type_of a) t (type_of b)) e) }
{
    let width = expression(s, a)?;
    demanded(t, Ty::Exp(width), b)?;
    Ok(Ty::Exp(result_width(op, width)))
}

// The width of an operator's result, for operands of a width.
pub(crate) fn result_width(op: Op, width: u32) -> u32
    ensures { result ≡ result_width (op_of op) width }
{
    match op {
        Op::Add | Op::Sub | Op::And | Op::Or | Op::Xor => width,
        Op::Eq | Op::Less => 1,
    }
}
