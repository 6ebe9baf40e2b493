// Points of the wiring, and what is tied to what.

ghost use Rattle.std.specs.Prelude.{◌≡◌, ◌≤◌, ◌+◌, ◌++◌, length, IfOk, OnOk};
ghost use Rattle.gos_types.specs.Types.{type_of};
ghost use Rattle.gos_realises.specs.realises.Regular.{count};
ghost use Rattle.gos_compile.specs.Wiring.{led, row, answer_bits};
ghost use Rattle.gos_compile.specs.inner.Loads.{most};

use gos_ties::{Place, Point, Tie};
use gos_types::{NoMemory, Ty, count};
use std::alloc::Global;

// Adds so many points of a place, from its first on.
#[tactic(auto, using(crate::proofs::RowLemmas::row_more))]
pub(crate) fn add_row(points: &mut Vec<Point>, place: Place, n: u32) -> Result<(), NoMemory>
    ensures { OnOk result (points.new.items ≡ points.old.items ++ row place 0 n) }
{
    for shake in 0..n {
        points.push(Point { place, shake })?;
    }
    Ok(())
}

// So many points of a place, from its first on.
pub(crate) fn row(alloc: Global, place: Place, n: u32) -> Result<Vec<Point>, NoMemory>
    ensures { IfOk result (λ points. points.items ≡ row place 0 n) }
{
    let mut points = Vec::new(alloc);
    add_row(&mut points, place, n)?;
    Ok(points)
}

// Ties points to those of a place, from this handshake on.
pub(crate) fn lead(
    ties: &mut Vec<Tie>,
    points: &[Point],
    place: Place,
    from: u32,
) -> Result<(), NoMemory>
    requires { from + length points.now ≤ most }
    ensures { OnOk result (ties.new.items ≡ ties.old.items ++ led points.now place from) }
{
    let mut shake = from;
    for one in points {
        let other = Point { place, shake };
        ties.push(Tie { one: *one, other })?;
        shake += 1;
    }
    Ok(())
}

// Ties so many points of one place, from its first on, to those of another, from this handshake on.
#[tactic(auto, using(crate::proofs::TallyLemmas::row_length))]
pub(crate) fn lead_row(
    alloc: Global,
    ties: &mut Vec<Tie>,
    one: Place,
    n: u32,
    other: Place,
    from: u32,
) -> Result<(), NoMemory>
    requires { from + n ≤ most }
    ensures { OnOk result (ties.new.items ≡ ties.old.items ++ led (row one 0 n) other from) }
{
    let points = row(alloc, one, n)?;
    lead(ties, &points, other, from)
}

// How many handshakes a type has, which are few.
#[tactic(auto, using(crate::proofs::RowLemmas::few_nodes, crate::proofs::RowLemmas::same_length))]
pub(crate) fn shakes(ty: &Ty) -> u32
    requires { count (type_of ty.now) ≤ most }
    ensures { result ≡ count (type_of ty.now) }
{
    count(ty) as u32
}

// The bits of a command's or an expression's answer.
pub(crate) fn answer_bits(ty: &Ty) -> u32
    ensures { result ≡ answer_bits (type_of ty.now) }
{
    match ty {
        Ty::Exp(width) => *width,
        _ => 0,
    }
}
