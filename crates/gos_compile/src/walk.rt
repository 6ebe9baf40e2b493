// The walk over a term: the parts of each node and its ties.
//
// Read points.rt, wires.rt and forms.rt first. `specs/inner/Walked` has the same walk as a function of what was made
// before; that it gives the parts and the ties of `specs/Wiring` say `wired_parts` and `wired_ties`, in
// proofs/WalkLemmas.

ghost use Rattle.std.specs.Prelude.{◌≡◌, ◌≤◌, ◌+◌, length, OnOk};
ghost use Rattle.gos_types.specs.Types.{type_of};
ghost use Rattle.gos_plan.specs.Kinds as kinds;
ghost use Rattle.gos_check.specs.Nodes.{node_seen, OfFun, OfNew, OfArray};
ghost use Rattle.gos_realises.specs.realises.Regular.{count};
ghost use Rattle.gos_compile.specs.inner.Tables.{types_at};
ghost use Rattle.gos_compile.specs.inner.Walked.{seen, wired, with_binder, with_one, with_two, with_choice};
ghost use Rattle.gos_compile.specs.inner.Loads.{loaded, part_loaded, most, spent};

use crate::forms::{choice, front, one_out, one_own, one_point, rest, two_outs, two_own};
use crate::points::{answer_bits, shakes};
use crate::types::argument;
use crate::wires::Wires;
use gos_check::{Node, NodeForm, OnePart, TwoParts};
use gos_plan::Kind;
use gos_ties::{Place, Point};
use gos_types::{NoMemory, Ty};
use std::alloc::Global;

// A term, whose handshakes lead to these points.
#[cycle(walk)]
#[tactic(auto, using(crate::proofs::NodeLemmas::splits_seen))]
pub(crate) fn wire(
    alloc: Global,
    types: &[Ty],
    node: &Node,
    out: &[Point],
    wires: &mut Wires,
) -> Result<(), NoMemory>
    requires { spent wires.old + length out.now + loaded types.now node.now ≤ most }
    ensures wired { OnOk result (seen wires.new ≡ wired (types_at types.now) (node_seen node.now) out.now (seen wires.old)) }
    ensures spent { OnOk result (spent wires.new ≤ spent wires.old + loaded types.now node.now) }
{
    wires.shares(alloc, types, &node.splits)?;
    let ty = &node.ty;
    match &node.form {
        NodeForm::Skip => wires.own(Kind::Skip, out, 0),
        NodeForm::Lit { value, width } => wires.own(
            Kind::Lit {
                w: *width,
                k: *value,
            },
            out,
            0,
        ),
        NodeForm::Use(number) => wires.use_number(*number, out),
        NodeForm::Fun { number, body } => wire_function(
            alloc, types, ty, *number, body, out, wires,
        ),
        NodeForm::New {
            number,
            width,
            body,
        } => wire_block(alloc, types, ty, *number, *width, body, out, wires),
        NodeForm::Array {
            number,
            length,
            width,
            body,
        } => wire_array(
            alloc,
            types,
            ty,
            *number,
            (*length, *width),
            body,
            out,
            wires,
        ),
        NodeForm::App(m, n) => wire_two(alloc, types, TwoParts::Application, ty, m, n, out, wires),
        NodeForm::Pair(m, n) => wire_two(alloc, types, TwoParts::Product, ty, m, n, out, wires),
        NodeForm::Fst(m) => wire_one(alloc, types, OnePart::First, ty, m, out, wires),
        NodeForm::Snd(m) => wire_one(alloc, types, OnePart::Second, ty, m, out, wires),
        NodeForm::Seq(m, n) => wire_two(alloc, types, TwoParts::Sequence, ty, m, n, out, wires),
        NodeForm::Par(m, n) => wire_two(alloc, types, TwoParts::Parallel, ty, m, n, out, wires),
        NodeForm::If(m, n, p) => wire_choice(alloc, types, ty, m, n, p, out, wires),
        NodeForm::While(m, n) => wire_two(alloc, types, TwoParts::Loop, ty, m, n, out, wires),
        NodeForm::Assign(m, n) => {
            wire_two(alloc, types, TwoParts::Assignment, ty, m, n, out, wires)
        }
        NodeForm::Deref(m) => wire_one(alloc, types, OnePart::Reading, ty, m, out, wires),
        NodeForm::Not(m) => wire_one(alloc, types, OnePart::Negation, ty, m, out, wires),
        NodeForm::Bin(op, m, n) => {
            wire_two(alloc, types, TwoParts::Operation(*op), ty, m, n, out, wires)
        }
    }
}

// A function, whose argument has this number.
#[cycle(walk)]
#[tactic(auto, using(crate::proofs::RowLemmas::argument_fewer, crate::proofs::ShakeLemmas::take_shorter, crate::proofs::ShakeLemmas::drop_shorter))]
fn wire_function(
    alloc: Global,
    types: &[Ty],
    ty: &Ty,
    number: u32,
    body: &Node,
    out: &[Point],
    wires: &mut Wires,
) -> Result<(), NoMemory>
    requires { spent wires.old + length out.now + (5 + count (type_of ty.now) + loaded types.now body.now) ≤ most }
    ensures wired { OnOk result (seen wires.new ≡ with_binder types.now OfFun ty.now number body.now out.now (seen wires.old)) }
    ensures spent { OnOk result (spent wires.new ≤ spent wires.old + (5 + loaded types.now body.now)) }
{
    let argument = argument(alloc, ty)?;
    let n = shakes(&argument);
    wires.use_number(number, front(out, n))?;
    wire(alloc, types, body, rest(out, n), wires)
}

// A block, whose variable has this number.
#[cycle(walk)]
fn wire_block(
    alloc: Global,
    types: &[Ty],
    ty: &Ty,
    number: u32,
    width: u32,
    body: &Node,
    out: &[Point],
    wires: &mut Wires,
) -> Result<(), NoMemory>
    requires { spent wires.old + length out.now + (5 + loaded types.now body.now) ≤ most }
    ensures wired { OnOk result (seen wires.new ≡ with_binder types.now (OfNew width) ty.now number body.now out.now (seen wires.old)) }
    ensures spent { OnOk result (spent wires.new ≤ spent wires.old + (5 + loaded types.now body.now)) }
{
    let i = wires.next();
    wires.local(alloc, number, width, answer_bits(ty), out)?;
    let inner = one_point(alloc, Place::Part(i), 0)?;
    wire(alloc, types, body, &inner, wires)
}

// A block, whose array has this number, and this length and width.
#[cycle(walk)]
fn wire_array(
    alloc: Global,
    types: &[Ty],
    ty: &Ty,
    number: u32,
    many: (u32, u32),
    body: &Node,
    out: &[Point],
    wires: &mut Wires,
) -> Result<(), NoMemory>
    requires { spent wires.old + length out.now + (5 + loaded types.now body.now) ≤ most }
    ensures wired { OnOk result (seen wires.new ≡ with_binder types.now (OfArray many.0 many.1) ty.now number body.now out.now (seen wires.old)) }
    ensures spent { OnOk result (spent wires.new ≤ spent wires.old + (5 + loaded types.now body.now)) }
{
    let i = wires.next();
    wires.array(alloc, number, many, answer_bits(ty), out)?;
    let inner = one_point(alloc, Place::Part(i), 0)?;
    wire(alloc, types, body, &inner, wires)
}

// A form of one part.
#[cycle(walk)]
#[tactic(auto, using(gos_check::proofs::NodeTypeLemmas::type_seen, crate::proofs::ShakeLemmas::one_few))]
fn wire_one(
    alloc: Global,
    types: &[Ty],
    form: OnePart,
    ty: &Ty,
    m: &Node,
    out: &[Point],
    wires: &mut Wires,
) -> Result<(), NoMemory>
    requires { spent wires.old + length out.now + (5 + count (type_of ty.now) + part_loaded types.now m.now) ≤ most }
    ensures wired { OnOk result (seen wires.new ≡ with_one types.now form ty.now m.now out.now (seen wires.old)) }
    ensures spent { OnOk result (spent wires.new ≤ spent wires.old + (5 + loaded types.now m.now)) }
{
    let i = wires.next();
    let inner = one_out(form, alloc, ty, &m.ty, i, wires.nodes, out)?;
    one_own(form, ty, out, wires)?;
    wire(alloc, types, m, &inner, wires)
}

// A form of two parts.
#[cycle(walk)]
#[tactic(auto, using(gos_check::proofs::NodeTypeLemmas::type_seen, crate::proofs::ShakeLemmas::first_few, crate::proofs::ShakeLemmas::second_few))]
fn wire_two(
    alloc: Global,
    types: &[Ty],
    form: TwoParts,
    ty: &Ty,
    m: &Node,
    n: &Node,
    out: &[Point],
    wires: &mut Wires,
) -> Result<(), NoMemory>
    requires { spent wires.old + length out.now + (5 + (part_loaded types.now m.now + part_loaded types.now n.now)) ≤ most }
    ensures wired { OnOk result (seen wires.new ≡ with_two types.now form ty.now m.now n.now out.now (seen wires.old)) }
    ensures spent { OnOk result (spent wires.new ≤ spent wires.old + (5 + (loaded types.now m.now + loaded types.now n.now))) }
{
    let i = wires.next();
    let (first, second) = two_outs(form, alloc, &m.ty, &n.ty, i, wires.nodes, out)?;
    two_own(form, ty, &n.ty, out, wires)?;
    wire(alloc, types, m, &first, wires)?;
    wire(alloc, types, n, &second, wires)
}

// A choice.
#[cycle(walk)]
fn wire_choice(
    alloc: Global,
    types: &[Ty],
    ty: &Ty,
    m: &Node,
    n: &Node,
    p: &Node,
    out: &[Point],
    wires: &mut Wires,
) -> Result<(), NoMemory>
    requires { spent wires.old + length out.now + (5 + (loaded types.now m.now + (loaded types.now n.now + loaded types.now p.now))) ≤ most }
    ensures wired { OnOk result (seen wires.new ≡ with_choice types.now ty.now m.now n.now p.now out.now (seen wires.old)) }
    ensures spent { OnOk result (spent wires.new ≤ spent wires.old + (5 + (loaded types.now m.now + (loaded types.now n.now + loaded types.now p.now)))) }
{
    let i = wires.next();
    let test = one_point(alloc, Place::Part(i), 0)?;
    let yes = one_point(alloc, Place::Part(i), 1)?;
    let no = one_point(alloc, Place::Part(i), 2)?;
    wires.own(choice(answer_bits(ty)), out, 3)?;
    wire(alloc, types, m, &test, wires)?;
    wire(alloc, types, n, &yes, wires)?;
    wire(alloc, types, p, &no, wires)
}
