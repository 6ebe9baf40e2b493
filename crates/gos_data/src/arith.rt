// The gates of each kind that this crate lays out.

ghost use Rattle.std.specs.Prelude.{◌≡◌};
ghost use Rattle.gos_plan.specs.Seen.{part_of};
ghost use Rattle.gos_data.specs.Layout.{layout, outs_of, late_of, pending_of, stands_of, passing_of};
ghost use Rattle.gos_data.specs.Ranges.{IsArith};
ghost use Rattle.gos_data.specs.laws.Kept.{arith_gates};
ghost use Rattle.gos_data.specs.laws.Paths.{arith_paths};

use crate::{array, assign, body_answer, deref, lit, local, not, op};
use gos_macro::{Macro, Wire};
use gos_netlist::NetId;
use gos_plan::Kind;
use gos_pool::{NetPool, Region};
use std::marker::Model;

/// A literal, an operator, a complement, an assignment, a read, a local variable or an array. Its widths are 1 to 64, or 0
/// for the body of a local variable or of an array that is a command. A literal has at most its bits, and an array 2, 4, 8 or
/// 16 numbers.
#[derive(Debug, Drop)]
pub struct Arith(pub Kind);

impl Model for Arith {
    ghost use Rattle.gos_plan.specs.declared.kinds.Kind.{Kind};
    ghost use Rattle.gos_plan.specs.contracts.kinds.Kind as a_kind;

    ghost Value = { Kind };

    ghost coded = { a_kind.the_row.coded };

    ghost use Rattle.gos_data.specs.Ranges.{IsArith};

    ghost view = { λ a. a.0 };

    ghost invariant = { λ a. IsArith a.0 };
}

impl Macro for Arith {
    ghost part = { part_of };

    ghost cells = { λ m. layout (part_of m) };

    ghost outs_at = { λ m. outs_of (part_of m) };

    ghost late = { λ m. late_of (part_of m) };

    ghost pending = { λ m. pending_of (part_of m) };

    ghost stands = { λ m. stands_of (part_of m) };

    ghost passing = { λ m. passing_of (part_of m) };

    ghost is_laid_out = { IsArith };

    ghost suits = { λ _ _. Unit {0} };

    fn size(&self) -> u32 {
        match &self.0 {
            Kind::Lit { .. } | Kind::Deref { .. } => 3,
            Kind::Not { .. } | Kind::Assign { .. } => 4,
            Kind::Op { .. } => 12,
            Kind::Local { v, .. } => local::size(*v),
            Kind::Array { n, v, .. } => array::size(*n, *v),
            _ => unreachable!(),
        }
    }

    fn outs(&self, base: NetId, wires: &mut [Wire]) {
        match &self.0 {
            Kind::Lit { .. } => lit::outs(base.0, wires),
            Kind::Op { .. } => op::outs(base.0, wires),
            Kind::Not { .. } => not::outs(base.0, wires),
            Kind::Assign { .. } => assign::outs(base.0, wires),
            Kind::Deref { .. } => deref::outs(base.0, wires),
            Kind::Local { v, .. } => local::outs(*v, base.0, wires),
            Kind::Array { n, v, .. } => array::outs(*n, *v, base.0, wires),
            _ => unreachable!(),
        }
    }

    fn place(&self, pool: &mut NetPool, region: &mut Region, wires: &[Wire]) {
        let base = region.start();
        match &self.0 {
            Kind::Lit { w, k } => pool.place_all(region, &lit::cells(*w, *k, base, wires)),
            Kind::Op { op, w } => pool.place_all(region, &op::cells(*op, *w, base, wires)),
            Kind::Not { w } => pool.place_all(region, &not::cells(*w, base, wires)),
            Kind::Assign { w } => pool.place_all(region, &assign::cells(*w, wires)),
            Kind::Deref { w } => pool.place_all(region, &deref::cells(*w, wires)),
            Kind::Local { w, v } => {
                pool.place_all(region, &local::variable(*w, base, wires));
                if *v > 0 {
                    pool.place(region, body_answer::number(*v, wires));
                }
            }
            Kind::Array { w, n, v } => array::place(*w, *n, *v, wires, pool, region),
            _ => unreachable!(),
        }
    }

    fn passes(&self, from: u32, to: u32) -> bool {
        leads(&self.0, from, to)
    }

    ghost law = { λ g is rank _. arith_gates g is rank };

    ghost paths = { arith_paths };
}

// Whether a path without registers leads from one handshake to another, by kind.
fn leads(kind: &Kind, from: u32, to: u32) -> bool
    requires { IsArith kind.now }
    ensures { result ≡ passing_of (part_of kind.now) from to }
{
    match kind {
        Kind::Lit { .. } => (from, to) == (0, 0),
        Kind::Op { .. } => matches!((from, to), (0, 1) | (0, 2) | (1, 2) | (2, 0)),
        Kind::Not { .. } | Kind::Deref { .. } => matches!((from, to), (0, 1) | (1, 0)),
        Kind::Assign { .. } => matches!((from, to), (0, 1) | (1, 2) | (2, 0)),
        Kind::Local { .. } => matches!((from, to), (0, 3) | (1, 1)),
        Kind::Array { .. } => (from, to) == (0, 4),
        _ => unreachable!(),
    }
}
