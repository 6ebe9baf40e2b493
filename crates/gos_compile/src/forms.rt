// The forms of one part and of two: the own part of each, and where the handshakes of its parts lead.

ghost use Rattle.std.specs.Prelude.{◌≡◌, ◌≤◌, ◌+◌, ◌∷◌, [], ◌++◌, length, take, drop, IsTrue, IfOk, OnOk};
ghost use Rattle.gos_types.specs.Types.{type_of};
ghost use Rattle.gos_check.specs.Nodes.{one_form, two_form};
ghost use Rattle.gos_plan.specs.Kinds as kinds;
ghost use Rattle.gos_plan.specs.Seen.{part_of, operation_of};
ghost use Rattle.gos_model.specs.Sources.{op_of};
ghost use Rattle.gos_compile.specs.inner.Walked.{seen, is_plain, with_one_own, with_two_own};
ghost use Rattle.gos_ties.specs.Ties.{point};
ghost use Rattle.gos_compile.specs.Wiring.{row, answer_bits, one_out, first_out, second_out};
ghost use Rattle.gos_realises.specs.realises.Regular.{count};
ghost use Rattle.gos_compile.specs.inner.Loads.{most, spent};

use crate::points::{add_row, answer_bits, row, shakes};
use crate::wires::Wires;
use gos_check::{OnePart, TwoParts};
use gos_plan::{Kind, Op2};
use gos_syntax::Op;
use gos_ties::{Place, Point};
use gos_types::{NoMemory, Ty};
use std::alloc::Global;

// A sequence that ends with a command, where bits is 0, or with an expression.
fn sequence(bits: u32) -> Kind
    ensures part { part_of result ≡ kinds.Seq bits }
    ensures plain { IsTrue (is_plain result) }
{
    if bits == 0 {
        Kind::Seq
    } else {
        Kind::SeqExp { w: bits }
    }
}

// A choice of commands, where bits is 0, or of expressions.
pub(crate) fn choice(bits: u32) -> Kind
    ensures part { part_of result ≡ kinds.If bits }
    ensures plain { IsTrue (is_plain result) }
{
    if bits == 0 {
        Kind::If
    } else {
        Kind::IfExp { w: bits }
    }
}

// What an operator computes.
fn operation(op: Op) -> Op2
    ensures { operation_of result ≡ op_of op }
{
    match op {
        Op::Add => Op2::Add,
        Op::Sub => Op2::Sub,
        Op::And => Op2::And,
        Op::Or => Op2::Or,
        Op::Xor => Op2::Xor,
        Op::Eq => Op2::Eq,
        Op::Less => Op2::Less,
    }
}

// A handshake of a place.
fn point(place: Place, shake: u32) -> Point
    ensures { result ≡ point place shake }
{
    Point { place, shake }
}

// One point.
pub(crate) fn one_point(alloc: Global, place: Place, shake: u32) -> Result<Vec<Point>, NoMemory>
    ensures { IfOk result (λ points. points.items ≡ point place shake ∷ []) }
{
    Ok(vec![in alloc; point(place, shake)]?)
}

// Two points.
fn two_points(alloc: Global, one: Point, other: Point) -> Result<Vec<Point>, NoMemory>
    ensures { IfOk result (λ points. points.items ≡ one ∷ other ∷ []) }
{
    Ok(vec![in alloc; one, other]?)
}

// The first n points, or all of them.
pub(crate) fn front(points: &[Point], n: u32) -> &[Point]
    ensures { result.now ≡ take n points.now }
{
    let n = n as usize;
    if n < points.len() {
        &points[..n]
    } else {
        points
    }
}

// The points behind the first n.
pub(crate) fn rest(points: &[Point], n: u32) -> &[Point]
    ensures { result.now ≡ drop n points.now }
{
    let n = n as usize;
    if n < points.len() { &points[n..] } else { &[] }
}

// Points, and behind them so many of a place.
fn before_row(alloc: Global, points: &[Point], place: Place, n: u32) -> Result<Vec<Point>, NoMemory>
    ensures { IfOk result (λ all. all.items ≡ points.now ++ row place 0 n) }
{
    let mut all = points.to_vec(alloc)?;
    add_row(&mut all, place, n)?;
    Ok(all)
}

// So many points of a place, and behind them others.
fn behind_row(alloc: Global, place: Place, n: u32, points: &[Point]) -> Result<Vec<Point>, NoMemory>
    ensures { IfOk result (λ all. all.items ≡ row place 0 n ++ points.now) }
{
    let mut all = row(alloc, place, n)?;
    all.extend_from_slice(points)?;
    Ok(all)
}

// Adds the own part of a form of one part, whose node has this type.
pub(crate) fn one_own(
    form: OnePart,
    ty: &Ty,
    out: &[Point],
    wires: &mut Wires,
) -> Result<(), NoMemory>
    requires { spent wires.old + length out.now + 1 ≤ most }
    ensures own { OnOk result (seen wires.new ≡ with_one_own (one_form form) (type_of ty.now) out.now (seen wires.old)) }
    ensures spent { OnOk result (spent wires.new ≤ spent wires.old + 2) }
{
    let w = answer_bits(ty);
    match form {
        OnePart::First | OnePart::Second => {
            wires.pass();
            Ok(())
        }
        OnePart::Reading => wires.own(Kind::Deref { w }, out, 1),
        OnePart::Negation => wires.own(Kind::Not { w }, out, 1),
    }
}

// Where the handshakes of the part of such a form lead.
pub(crate) fn one_out(
    form: OnePart,
    alloc: Global,
    ty: &Ty,
    inner: &Ty,
    i: u32,
    j: u32,
    out: &[Point],
) -> Result<Vec<Point>, NoMemory>
    requires whole { count (type_of ty.now) ≤ most }
    requires part { count (type_of inner.now) ≤ most }
    ensures { IfOk result (λ points. points.items ≡ one_out (one_form form) (type_of ty.now) (type_of inner.now) i j out.now) }
{
    let n = shakes(inner).saturating_sub(shakes(ty));
    match form {
        OnePart::First => before_row(alloc, out, Place::Node(j), n),
        OnePart::Second => behind_row(alloc, Place::Node(j), n, out),
        OnePart::Reading => two_points(alloc, point(Place::Part(i), 0), point(Place::Node(j), 0)),
        OnePart::Negation => one_point(alloc, Place::Part(i), 0),
    }
}

// Adds the own part of a form of two parts, whose node has this type, and whose second part has the type `second`.
pub(crate) fn two_own(
    form: TwoParts,
    ty: &Ty,
    second: &Ty,
    out: &[Point],
    wires: &mut Wires,
) -> Result<(), NoMemory>
    requires { spent wires.old + length out.now + 2 ≤ most }
    ensures own { OnOk result (seen wires.new ≡ with_two_own (two_form form) (type_of ty.now) (type_of second.now) out.now (seen wires.old)) }
    ensures spent { OnOk result (spent wires.new ≤ spent wires.old + 2) }
{
    let w = answer_bits(second);
    match form {
        TwoParts::Application | TwoParts::Product => {
            wires.pass();
            Ok(())
        }
        TwoParts::Sequence => wires.own(sequence(answer_bits(ty)), out, 2),
        TwoParts::Parallel => wires.own(Kind::Par, out, 2),
        TwoParts::Loop => wires.own(Kind::While, out, 2),
        TwoParts::Assignment => wires.own(Kind::Assign { w }, out, 2),
        TwoParts::Operation(op) => wires.own(
            Kind::Op {
                op: operation(op),
                w,
            },
            out,
            2,
        ),
    }
}

// Where the handshakes of the first part of such a form lead, and those of its second.
pub(crate) fn two_outs(
    form: TwoParts,
    alloc: Global,
    first: &Ty,
    second: &Ty,
    i: u32,
    j: u32,
    out: &[Point],
) -> Result<(Vec<Point>, Vec<Point>), NoMemory>
    requires left { count (type_of first.now) ≤ most }
    requires right { count (type_of second.now) ≤ most }
    ensures first { IfOk result (λ outs. outs.0.items ≡ first_out (two_form form) (type_of first.now) (type_of second.now) i j out.now) }
    ensures second { IfOk result (λ outs. outs.1.items ≡ second_out (two_form form) (type_of first.now) (type_of second.now) i j out.now) }
{
    let part = Place::Part(i);
    let node = Place::Node(j);
    match form {
        TwoParts::Application => {
            let n = shakes(second);
            Ok((behind_row(alloc, node, n, out)?, row(alloc, node, n)?))
        }
        TwoParts::Product => {
            let n = shakes(first);
            Ok((front(out, n).to_vec(alloc)?, rest(out, n).to_vec(alloc)?))
        }
        TwoParts::Assignment => {
            let both = two_points(alloc, point(node, 0), point(part, 1))?;
            Ok((both, one_point(alloc, part, 0)?))
        }
        _ => Ok((one_point(alloc, part, 0)?, one_point(alloc, part, 1)?)),
    }
}
