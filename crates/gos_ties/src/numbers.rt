// Numbers of points, by which tables are kept: points are numbered in the order in which they first stand in ties.

ghost use Rattle.std.specs.Prelude.{◌≡◌, length, map, IfOk, OnOk};
ghost use Rattle.gos_ties.specs.Ties.{end_at};
ghost use Rattle.gos_ties.specs.inner.Joined.{AreBelow};
ghost use Rattle.gos_ties.specs.inner.Found.{code, bond_of, end_seen, far_point, AreNumbered, IsNumbered};

use crate::joining::{Bond, far_of};
use crate::points::{Place, Point, Tie};
use gos_plan::End;
use gos_types::NoMemory;
use indexmap::IndexSet;
use std::alloc::Global;

// The points that have numbers.
#[derive(Drop)]
pub(crate) struct Numbers {
    points: IndexSet<Point>,
}

// The number of a point; how many there are, where it has none.
fn code(numbers: &Numbers, point: Point) -> usize
    ensures { result ≡ code numbers.now.points.keys point }
{
    match numbers.points.get_index_of(&point) {
        Some(number) => number,
        None => numbers.points.len(),
    }
}

// Gives a point a number, if it has none.
fn add(numbers: &mut Numbers, point: Point) -> Result<(), NoMemory>
    ensures has { OnOk result (IsNumbered numbers.new.points.keys point) }
    ensures kept { OnOk result ((p : Point) → IsNumbered numbers.old.points.keys p → IsNumbered numbers.new.points.keys p) }
{
    match numbers.points.insert(point) {
        Ok(_) => Ok(()),
        Err(_) => Err(NoMemory),
    }
}

// Numbers of the points of ties.
pub(crate) fn numbers_of(alloc: Global, ties: &[Tie]) -> Result<Numbers, NoMemory>
    ensures { IfOk result (λ numbers. AreNumbered numbers.points.keys ties.now) }
{
    let mut numbers = Numbers {
        points: IndexSet::new(alloc),
    };
    for tie in ties {
        add(&mut numbers, tie.one)?;
        add(&mut numbers, tie.other)?;
    }
    Ok(numbers)
}

// How many points have numbers.
pub(crate) fn count(numbers: &Numbers) -> usize
    ensures { result ≡ length numbers.now.points.keys }
{
    numbers.points.len()
}

// The bond of a tie.
fn bond_of(numbers: &Numbers, tie: Tie) -> Bond
    ensures { result ≡ bond_of numbers.now.points.keys tie }
{
    Bond {
        one: code(numbers, tie.one),
        other: code(numbers, tie.other),
    }
}

// The bonds of ties.
pub(crate) fn bonds_of(
    alloc: Global,
    numbers: &Numbers,
    ties: &[Tie],
) -> Result<Vec<Bond>, NoMemory>
    requires { AreNumbered numbers.now.points.keys ties.now }
    ensures bonds { IfOk result (λ bonds. bonds.items ≡ map (bond_of numbers.now.points.keys) ties.now) }
    ensures below { IfOk result (λ bonds. AreBelow (length numbers.now.points.keys) bonds.items) }
{
    let mut bonds = Vec::new(alloc);
    for tie in ties {
        bonds.push(bond_of(numbers, *tie))?;
    }
    Ok(bonds)
}

// The end at a point, if there is one.
pub(crate) fn end_at(point: Point) -> Option<End>
    ensures { end_seen result ≡ end_at point }
{
    let shake = point.shake;
    match point.place {
        Place::Part(part) => Some(End::Part { part, shake }),
        Place::Import(import) => Some(End::Import { import, shake }),
        Place::Result => Some(End::Result { shake }),
        Place::Number(_) | Place::Node(_) => None,
    }
}

// The far point of a point.
pub(crate) fn far_point(far: &[usize], numbers: &Numbers, point: Point) -> Point
    ensures { result ≡ far_point far.now numbers.now.points.keys point }
{
    match numbers.points.get_index(far_of(far, code(numbers, point))) {
        Some(other) => *other,
        None => point,
    }
}
