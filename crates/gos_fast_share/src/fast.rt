// The Share of a type, whose gates are made for an order of its handshakes.

ghost use Rattle.std.specs.Prelude.{[]};
ghost use Rattle.gos_types.specs.Types.{type_of};
ghost use Rattle.gos_plan.specs.Kinds.{Share, contacts_of};
ghost use Rattle.gos_macro.specs.Gates.{nothing_pending};
ghost use Rattle.gos_fast_share.specs.Fast.{fast_cells, fast_outs, fast_passing, FastStands};
ghost use Rattle.gos_fast_share.specs.Order.{IsByRank, IsMade};
ghost use Rattle.gos_fast_share.specs.laws.Kept.{fast_gates};
ghost use Rattle.gos_fast_share.specs.laws.Paths.{fast_paths};

use crate::asking::requests_in;
use crate::sides::{Side, fill_side};
use crate::{blocks, passing, row};
use gos_macro::{Macro, Wire};
use gos_netlist::NetId;
use gos_pool::{NetPool, Region};
use gos_types::{Ty, count};
use std::marker::Model;

/// A part by which two callers use one source of this type, one after the other. Widths in the type are 1 to 64, and it
/// has at most 64 handshakes. Its gates are made for this order of the part's handshakes, by their numbers.
#[derive(Debug, Drop)]
pub struct FastSharing<'a> {
    /// The type of the source.
    pub ty: &'a Ty,
    /// The numbers of the part's handshakes, by their ranks: three for each of the type's. That each stands once isn't asked
    /// here, but the law of a cycle is said of such orders alone.
    pub order: &'a [u32],
}

impl<'a> Model for FastSharing<'a> {
    ghost use Rattle.gos_fast_share.specs.Made.{Made};
    ghost use Rattle.gos_fast_share.specs.Order.{IsMade};
    ghost use Rattle.std.specs.Coded.{codes};
    ghost use Rattle.gos_types.specs.contracts.types.Ty as a_type;

    ghost Value = { Made };

    ghost coded = { Prim.hlevel (codes, a_type.the_row.coded) };

    ghost view = { λ s. record { ty = s.ty.now; order = s.order.now } };

    ghost invariant = { λ s. IsMade (record { ty = s.ty.now; order = s.order.now }) };
}

impl<'a> Macro for FastSharing<'a> {
    ghost part = { λ m. Share (type_of m.ty) };

    ghost cells = { λ m. fast_cells (contacts_of (type_of m.ty)) m.order };

    ghost outs_at = { λ m. fast_outs (contacts_of (type_of m.ty)) m.order };

    ghost late = { λ _. [] };

    ghost pending = { λ _. nothing_pending };

    ghost stands = { λ _. FastStands };

    ghost passing = { λ m. fast_passing (contacts_of (type_of m.ty)) m.order };

    ghost is_laid_out = { IsMade };

    ghost suits = { λ m rank. IsByRank (type_of m.ty) m.order rank };

    fn size(&self) -> u32 {
        2 + requests_in(self.ty, count(self.ty) as u32, self.order) + blocks::all(self.ty)
    }

    fn outs(&self, base: NetId, wires: &mut [Wire]) {
        let count = wires.len() / 3;
        let start = 2 + requests_in(self.ty, count as u32, self.order);
        let (source, callers) = wires.split_at_mut(count);
        let (first, second) = callers.split_at_mut(count);
        fill_side(self.ty, Side::Source, base.0, start, source);
        fill_side(self.ty, Side::First, base.0, start, first);
        fill_side(self.ty, Side::Second, base.0, start, second);
    }

    fn place(&self, pool: &mut NetPool, region: &mut Region, wires: &[Wire]) {
        row::place(self.ty, wires.len() / 3, self.order, wires, pool, region);
    }

    fn passes(&self, from: u32, to: u32) -> bool {
        passing::passes(self.ty, self.order, from, to)
    }

    ghost law = { λ m is rank by_rank. fast_gates m.ty m.order rank is.0 by_rank };

    ghost paths = { λ m _. fast_paths m.ty m.order };
}
