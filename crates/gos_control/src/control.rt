// The parts of the kinds that this crate lays out.

ghost use Rattle.std.specs.Prelude.{◌≡◌};
ghost use Rattle.gos_plan.specs.Seen.{part_of};
ghost use Rattle.gos_control.specs.Layout.{layout, outs_of, late_of, pending_of, stands_of, passing_of};
ghost use Rattle.gos_control.specs.Ranges.{IsControl};
ghost use Rattle.gos_control.specs.laws.Kept.{control_gates};
ghost use Rattle.gos_control.specs.laws.Paths.{control_paths};

use crate::{choice, par, repeat, seq, skip};
use gos_macro::{Macro, Wire};
use gos_netlist::NetId;
use gos_plan::Kind;
use gos_pool::{NetPool, Region};
use std::marker::Model;

/// A part that passes control on: a `Skip`, a sequence, two commands side by side, a choice or a repeated command. A
/// sequence or a choice may end with a number of 1 to 64 bits.
#[derive(Debug, Drop)]
pub struct Control(pub Kind);

impl Model for Control {
    ghost use Rattle.gos_plan.specs.declared.kinds.Kind.{Kind};
    ghost use Rattle.gos_plan.specs.contracts.kinds.Kind as a_kind;

    ghost Value = { Kind };

    ghost coded = { a_kind.the_row.coded };

    ghost use Rattle.gos_control.specs.Ranges.{IsControl};

    ghost view = { λ c. c.0 };

    ghost invariant = { λ c. IsControl c.0 };
}

impl Macro for Control {
    ghost part = { part_of };

    ghost cells = { λ k. layout (part_of k) };

    ghost outs_at = { λ k. outs_of (part_of k) };

    ghost late = { λ k. late_of (part_of k) };

    ghost pending = { λ k. pending_of (part_of k) };

    ghost stands = { λ k. stands_of (part_of k) };

    ghost passing = { λ k. passing_of (part_of k) };

    ghost is_laid_out = { IsControl };

    ghost suits = { λ _ _. Unit {0} };

    fn size(&self) -> u32 {
        match &self.0 {
            Kind::Skip => 1,
            Kind::Seq => 3,
            Kind::SeqExp { .. } => 4,
            Kind::If | Kind::While => 5,
            Kind::IfExp { .. } => 7,
            Kind::Par => 11,
            _ => unreachable!(),
        }
    }

    fn outs(&self, base: NetId, wires: &mut [Wire]) {
        match &self.0 {
            Kind::Skip => skip::outs(base.0, wires),
            Kind::Seq => seq::com_outs(base.0, wires),
            Kind::SeqExp { .. } => seq::exp_outs(base.0, wires),
            Kind::Par => par::outs(base.0, wires),
            Kind::If => choice::com_outs(base.0, wires),
            Kind::IfExp { .. } => choice::exp_outs(base.0, wires),
            Kind::While => repeat::outs(base.0, wires),
            _ => unreachable!(),
        }
    }

    fn place(&self, pool: &mut NetPool, region: &mut Region, wires: &[Wire]) {
        let base = region.start();
        match &self.0 {
            Kind::Skip => pool.place_all(region, &skip::cells(wires)),
            Kind::Seq => pool.place_all(region, &seq::com_cells(wires)),
            Kind::SeqExp { w } => pool.place_all(region, &seq::exp_cells(*w, wires)),
            Kind::Par => pool.place_all(region, &par::cells(base, wires)),
            Kind::If => pool.place_all(region, &choice::com_cells(base, wires)),
            Kind::IfExp { w } => pool.place_all(region, &choice::exp_cells(*w, base, wires)),
            Kind::While => pool.place_all(region, &repeat::cells(base, wires)),
            _ => unreachable!(),
        }
    }

    fn passes(&self, from: u32, to: u32) -> bool {
        leads(&self.0, from, to)
    }

    ghost law = { λ g is rank _. control_gates g is rank };

    ghost paths = { control_paths };
}

// Whether a path without registers leads from one handshake to another, by kind.
fn leads(kind: &Kind, from: u32, to: u32) -> bool
    requires { IsControl kind.now }
    ensures { result ≡ passing_of (part_of kind.now) from to }
{
    match kind {
        Kind::Skip => (from, to) == (0, 0),
        Kind::Seq | Kind::SeqExp { .. } => matches!((from, to), (0, 1) | (1, 2) | (2, 0)),
        Kind::Par => matches!((from, to), (0, 2) | (1, 2) | (2, 0) | (2, 1)),
        Kind::If | Kind::IfExp { .. } => matches!(
            (from, to),
            (0, 1) | (0, 2) | (1, 3) | (2, 3) | (3, 0)
        ),
        Kind::While => matches!((from, to), (0, 1) | (0, 2) | (2, 0)),
        _ => unreachable!(),
    }
}
