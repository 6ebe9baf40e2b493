// Numbered terms made of numbered parts.

ghost use Rattle.std.specs.Prelude.{◌≡◌, ◌+◌, ◌^◌, ◌<◌, ◌≤◌, length, IfOk, IfErr};
ghost use Rattle.gos_types.specs.Types.{type_of, Var};
ghost use Rattle.gos_model.specs.Typing.{array_type};
ghost use Rattle.gos_check.specs.Nodes.{OfFun, OfNew, OfArray, If, one_form, two_form, node_seen, type_of_node};
ghost use Rattle.gos_check.specs.Numbering.{binder_result, one_result, two_result, choice_after};
ghost use Rattle.gos_check.specs.inner.NumberedTerms.{seen, Numbers};

use crate::fault::CheckFault;
use crate::forms::{OnePart, TwoParts, function_type};
use crate::linear::{Node, NodeForm, Split};
use crate::numbering::NumberedTerm;
use crate::opens::{Closed, Merged, close, merge};
use gos_lex::Name;
use gos_types::{Ty, copy};
use std::alloc::Global;

// A function, whose body is numbered.
#[tactic(auto, using(crate::proofs::NodeTypeLemmas::type_seen))]
pub(crate) fn below_function(
    alloc: Global,
    name: &Name,
    ty: &Ty,
    body: NumberedTerm,
) -> Result<NumberedTerm, CheckFault>
    requires { body.next + 1 < 2 ^ 32 }
    ensures seen { Numbers (binder_result OfFun name.now (type_of ty.now) (seen body)) result }
    ensures room { IfOk result (λ r. r.next + length r.names.items ≤ body.next + length body.names.items + 1) }
{
    let Closed {
        number,
        names,
        next,
    } = close(alloc, name, body.names, body.next)?;
    let outcome = copy(alloc, &body.node.ty)?;
    let node = Node {
        ty: function_type(alloc, ty, outcome)?,
        splits: Vec::new(alloc),
        form: NodeForm::Fun {
            number,
            body: body.node,
        },
    };
    Ok(NumberedTerm {
        node: Box::new(alloc, node)?,
        names,
        next,
    })
}

// A block with a variable, whose body is numbered.
#[tactic(auto, using(crate::proofs::NodeTypeLemmas::type_seen))]
pub(crate) fn below_block(
    alloc: Global,
    name: &Name,
    width: u32,
    body: NumberedTerm,
) -> Result<NumberedTerm, CheckFault>
    requires { body.next + 1 < 2 ^ 32 }
    ensures seen { Numbers (binder_result (OfNew width) name.now (Var width) (seen body)) result }
    ensures room { IfOk result (λ r. r.next + length r.names.items ≤ body.next + length body.names.items + 1) }
{
    let Closed {
        number,
        names,
        next,
    } = close(alloc, name, body.names, body.next)?;
    let node = Node {
        ty: copy(alloc, &body.node.ty)?,
        splits: Vec::new(alloc),
        form: NodeForm::New {
            number,
            width,
            body: body.node,
        },
    };
    Ok(NumberedTerm {
        node: Box::new(alloc, node)?,
        names,
        next,
    })
}

// A block with an array of so many numbers, whose body is numbered.
#[tactic(auto, using(crate::proofs::NodeTypeLemmas::type_seen))]
pub(crate) fn below_array(
    alloc: Global,
    name: &Name,
    many: (u32, u32),
    body: NumberedTerm,
) -> Result<NumberedTerm, CheckFault>
    requires { body.next + 1 < 2 ^ 32 }
    ensures seen { Numbers (binder_result (OfArray many.0 many.1) name.now (array_type many.0 many.1) (seen body)) result }
    ensures room { IfOk result (λ r. r.next + length r.names.items ≤ body.next + length body.names.items + 1) }
{
    let Closed {
        number,
        names,
        next,
    } = close(alloc, name, body.names, body.next)?;
    let node = Node {
        ty: copy(alloc, &body.node.ty)?,
        splits: Vec::new(alloc),
        form: NodeForm::Array {
            number,
            length: many.0,
            width: many.1,
            body: body.node,
        },
    };
    Ok(NumberedTerm {
        node: Box::new(alloc, node)?,
        names,
        next,
    })
}

// A form of one part.
pub(crate) fn with_one(
    alloc: Global,
    rule: OnePart,
    part: NumberedTerm,
) -> Result<NumberedTerm, CheckFault>
    ensures seen { Numbers (one_result (one_form rule) (seen part)) result }
    ensures room { IfOk result (λ r. r.next + length r.names.items ≤ part.next + length part.names.items) }
{
    Ok(NumberedTerm {
        node: rule.node(alloc, part.node)?,
        names: part.names,
        next: part.next,
    })
}

// A form of two parts, of which the right one was numbered last.
pub(crate) fn with_two(
    alloc: Global,
    rule: TwoParts,
    left: NumberedTerm,
    right: NumberedTerm,
) -> Result<NumberedTerm, CheckFault>
    requires { right.next + length left.names.items + length right.names.items < 2 ^ 32 }
    ensures seen { Numbers (two_result (two_form rule) (seen left) (seen right)) result }
    ensures room { IfOk result (λ r. r.next + length r.names.items ≤ right.next + length left.names.items + length right.names.items) }
{
    let merged = merge(alloc, left.names, right.names, right.next)?;
    Ok(NumberedTerm {
        node: rule.node(alloc, merged.splits, left.node, right.node)?,
        names: merged.names,
        next: merged.next,
    })
}

// A choice, whose first two parts are merged already, and whose last part was numbered after that.
pub(crate) fn with_three(
    alloc: Global,
    test: Box<Node>,
    yes: Box<Node>,
    inner: Merged,
    no: NumberedTerm,
) -> Result<NumberedTerm, CheckFault>
    requires { no.next + length inner.names.items + length no.names.items < 2 ^ 32 }
    ensures seen { Numbers (choice_after inner.splits.items inner.names.items (node_seen test.value) (node_seen yes.value) (seen no)) result }
    ensures room { IfOk result (λ r. r.next + length r.names.items ≤ no.next + length inner.names.items + length no.names.items) }
{
    let outer = merge(alloc, inner.names, no.names, no.next)?;
    let mut splits = outer.splits;
    splits.extend_from_slice(inner.splits.as_slice())?;
    Ok(NumberedTerm {
        node: choice_node(alloc, splits, test, yes, no.node)?,
        names: outer.names,
        next: outer.next,
    })
}

// The node of a choice.
#[tactic(auto, using(crate::proofs::NodeTypeLemmas::type_seen))]
fn choice_node(
    alloc: Global,
    splits: Vec<Split>,
    m: Box<Node>,
    n: Box<Node>,
    p: Box<Node>,
) -> Result<Box<Node>, CheckFault>
    ensures ok { IfOk result (λ node. node_seen node.value ≡ If (type_of_node (node_seen n.value)) splits.items
        (node_seen m.value) (node_seen n.value) (node_seen p.value)) }
    ensures err { IfErr result (λ e. e ≡ CheckFault.NoMemory) }
{
    let ty = copy(alloc, &n.ty)?;
    let form = NodeForm::If(m, n, p);
    Ok(Box::new(alloc, Node { ty, splits, form })?)
}
