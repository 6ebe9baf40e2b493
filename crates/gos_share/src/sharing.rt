// The Share of a type.

ghost use Rattle.gos_types.specs.Types.{type_of};
ghost use Rattle.gos_plan.specs.Kinds.{Share};
ghost use Rattle.gos_plan.specs.Ranges.{IsSmall};
ghost use Rattle.gos_share.specs.Layout.{layout, outs_of, late_of, pending_of, stands_of, passing_of};
ghost use Rattle.gos_share.specs.laws.Kept.{share_gates};
ghost use Rattle.gos_share.specs.laws.Paths.{share_paths};

use crate::shared::{Side, blocks};
use crate::{passing, row, sides};
use gos_macro::{Macro, Wire};
use gos_netlist::NetId;
use gos_pool::{NetPool, Region};
use gos_types::Ty;
use std::marker::Model;

/// A part by which two callers use one source of this type, one after the other. Widths in the type are 1 to 64, and
/// it has at most 64 handshakes.
#[derive(Debug, Drop)]
pub struct Sharing<'a>(pub &'a Ty);

impl<'a> Model for Sharing<'a> {
    ghost use Rattle.gos_types.specs.declared.types.Ty.{Ty};
    ghost use Rattle.gos_types.specs.contracts.types.Ty as a_type;
    ghost use Rattle.gos_plan.specs.Ranges.{IsSmall};

    ghost Value = { Ty };

    ghost coded = { a_type.the_row.coded };

    ghost view = { λ s. s.0.now };

    ghost invariant = { λ s. IsSmall s.0.now };
}

impl<'a> Macro for Sharing<'a> {
    ghost part = { λ t. Share (type_of t) };

    ghost cells = { λ t. layout (Share (type_of t)) };

    ghost outs_at = { λ t. outs_of (Share (type_of t)) };

    ghost late = { λ t. late_of (Share (type_of t)) };

    ghost pending = { λ t. pending_of (Share (type_of t)) };

    ghost stands = { λ t. stands_of (Share (type_of t)) };

    ghost passing = { λ t. passing_of (Share (type_of t)) };

    ghost is_laid_out = { IsSmall };

    ghost suits = { λ _ _. Unit {0} };

    fn size(&self) -> u32 {
        4 + blocks(self.0)
    }

    fn outs(&self, base: NetId, wires: &mut [Wire]) {
        let count = wires.len() / 3;
        let (source, callers) = wires.split_at_mut(count);
        let (first, second) = callers.split_at_mut(count);
        sides::fill_side(self.0, Side::Source, base.0, source);
        sides::fill_side(self.0, Side::First, base.0, first);
        sides::fill_side(self.0, Side::Second, base.0, second);
    }

    fn place(&self, pool: &mut NetPool, region: &mut Region, wires: &[Wire]) {
        row::place(self.0, wires.len() / 3, wires, pool, region);
    }

    fn passes(&self, from: u32, to: u32) -> bool {
        passing::passes(self.0, from, to)
    }

    ghost law = { λ g is rank _. share_gates g is rank };

    ghost paths = { share_paths };
}
