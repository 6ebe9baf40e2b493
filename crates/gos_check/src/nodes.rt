// The nodes of forms of one part and of two parts: each form with its type, as the types of its parts give it.
//
// These functions demand nothing of the parts: where a part is of another type than its form demands, the type is a command.

ghost use Rattle.std.specs.Prelude.{◌≡◌, [], IfOk, IfErr};
ghost use Rattle.gos_types.specs.Types.{type_of, Pair};
ghost use Rattle.gos_model.specs.Weight.{after_fun, left_of, right_of, read_of, op_type};
ghost use Rattle.gos_model.specs.Sources.{op_of};
ghost use Rattle.gos_check.specs.Nodes.{One, Two, one_form, two_form, node_seen, type_of_node};
ghost use Rattle.gos_check.specs.Numbering.{one_type, two_type};

use crate::demands::result_width;
use crate::fault::CheckFault;
use crate::forms::{OnePart, TwoParts};
use crate::linear::{Node, NodeForm, Split};
use gos_syntax::Op;
use gos_types::{NoMemory, Ty, copy};
use std::alloc::Global;

impl OnePart {
    // The node of this form.
    #[tactic(auto, using(crate::proofs::NodeTypeLemmas::type_seen))]
    pub(crate) fn node(self, alloc: Global, m: Box<Node>) -> Result<Box<Node>, CheckFault>
        ensures ok { IfOk result (λ node. node_seen node.value ≡ One (one_type (one_form self) (type_of_node (node_seen m.value))) []
            (one_form self) (node_seen m.value)) }
        ensures err { IfErr result (λ e. e ≡ CheckFault.NoMemory) }
    {
        let ty = self.node_type(alloc, &m.ty)?;
        let form = match self {
            OnePart::First => NodeForm::Fst(m),
            OnePart::Second => NodeForm::Snd(m),
            OnePart::Reading => NodeForm::Deref(m),
            OnePart::Negation => NodeForm::Not(m),
        };
        let splits = Vec::new(alloc);
        Ok(Box::new(alloc, Node { ty, splits, form })?)
    }

    // The type of this form, from that of its part.
    fn node_type(self, alloc: Global, m: &Ty) -> Result<Ty, NoMemory>
        ensures { IfOk result (λ ty. type_of ty ≡ one_type (one_form self) (type_of m.now)) }
    {
        match self {
            OnePart::First => left_of(alloc, m),
            OnePart::Second => right_of(alloc, m),
            OnePart::Reading => read_of(alloc, m),
            OnePart::Negation => copy(alloc, m),
        }
    }
}

impl TwoParts {
    // The node of this form, with splits.
    #[tactic(auto, using(crate::proofs::NodeTypeLemmas::type_seen))]
    pub(crate) fn node(
        self,
        alloc: Global,
        splits: Vec<Split>,
        m: Box<Node>,
        n: Box<Node>,
    ) -> Result<Box<Node>, CheckFault>
        ensures ok { IfOk result (λ node. node_seen node.value ≡ Two (two_type (two_form self) (type_of_node (node_seen m.value))
            (type_of_node (node_seen n.value))) splits.items (two_form self) (node_seen m.value) (node_seen n.value)) }
        ensures err { IfErr result (λ e. e ≡ CheckFault.NoMemory) }
    {
        let ty = self.node_type(alloc, &m.ty, &n.ty)?;
        let form = match self {
            TwoParts::Application => NodeForm::App(m, n),
            TwoParts::Product => NodeForm::Pair(m, n),
            TwoParts::Sequence => NodeForm::Seq(m, n),
            TwoParts::Parallel => NodeForm::Par(m, n),
            TwoParts::Loop => NodeForm::While(m, n),
            TwoParts::Assignment => NodeForm::Assign(m, n),
            TwoParts::Operation(op) => NodeForm::Bin(op, m, n),
        };
        Ok(Box::new(alloc, Node { ty, splits, form })?)
    }

    // The type of this form, from those of its parts.
    fn node_type(self, alloc: Global, m: &Ty, n: &Ty) -> Result<Ty, NoMemory>
        ensures { IfOk result (λ ty. type_of ty ≡ two_type (two_form self) (type_of m.now) (type_of n.now)) }
    {
        match self {
            TwoParts::Application => after_fun(alloc, m),
            TwoParts::Product => pair_of(alloc, m, n),
            TwoParts::Sequence => copy(alloc, n),
            TwoParts::Parallel | TwoParts::Loop | TwoParts::Assignment => Ok(Ty::Com),
            TwoParts::Operation(op) => Ok(op_type(op, m)),
        }
    }
}

// The outcome of a function type.
fn after_fun(alloc: Global, ty: &Ty) -> Result<Ty, NoMemory>
    ensures { IfOk result (λ found. type_of found ≡ after_fun (type_of ty.now)) }
{
    match ty {
        Ty::Fun(_, outcome) => copy(alloc, outcome),
        _ => Ok(Ty::Com),
    }
}

// The product of two types.
fn pair_of(alloc: Global, a: &Ty, b: &Ty) -> Result<Ty, NoMemory>
    ensures { IfOk result (λ found. type_of found ≡ Pair (type_of a.now) (type_of b.now)) }
{
    let first = Box::new(alloc, copy(alloc, a)?)?;
    let second = Box::new(alloc, copy(alloc, b)?)?;
    Ok(Ty::Pair(first, second))
}

// The first side of a product type.
fn left_of(alloc: Global, ty: &Ty) -> Result<Ty, NoMemory>
    ensures { IfOk result (λ found. type_of found ≡ left_of (type_of ty.now)) }
{
    match ty {
        Ty::Pair(first, _) => copy(alloc, first),
        _ => Ok(Ty::Com),
    }
}

// The second side of a product type.
fn right_of(alloc: Global, ty: &Ty) -> Result<Ty, NoMemory>
    ensures { IfOk result (λ found. type_of found ≡ right_of (type_of ty.now)) }
{
    match ty {
        Ty::Pair(_, second) => copy(alloc, second),
        _ => Ok(Ty::Com),
    }
}

// The type that reading a variable has.
fn read_of(alloc: Global, ty: &Ty) -> Result<Ty, NoMemory>
    ensures { IfOk result (λ found. type_of found ≡ read_of (type_of ty.now)) }
{
    match ty {
        Ty::Var(width) => Ok(Ty::Exp(*width)),
        ty => copy(alloc, ty),
    }
}

// The type of an operation on operands of this type.
fn op_type(op: Op, ty: &Ty) -> Ty
    ensures { type_of result ≡ op_type (op_of op) (type_of ty.now) }
{
    match ty {
        Ty::Exp(width) => Ty::Exp(result_width(op, *width)),
        _ => Ty::Com,
    }
}
