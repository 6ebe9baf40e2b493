// The gates of a part, whichever crate lays them out.
ghost use Rattle.std.specs.Prelude.{◌≡◌};
ghost use Rattle.std.specs.Option.{option_copied};
ghost use Rattle.gos_types.specs.Types.{type_of};
ghost use Rattle.gos_plan.specs.Kinds.{Share};
ghost use Rattle.gos_plan.specs.Seen.{part_of};
ghost use Rattle.gos_plan.specs.Ranges.{IsInRange, IsSmall};
ghost use Rattle.gos_expand.specs.inner.Orders.{making_of, IsOrderOf};
ghost use Rattle.gos_expand.specs.inner.Dispatch.{
  sharing_for,
  gates_for,
  part_in,
  cells_in,
  outs_in,
  late_in,
  pending_in,
  stands_in,
  passing_in,
  IsLaidOut,
  Suits,
  gates_keep,
  gates_pass,
};

use gos_control::Control;
use gos_data::Arith;
use gos_fast_share::FastSharing;
use gos_macro::{Macro, Wire};
use gos_netlist::NetId;
use gos_plan::Kind;
use gos_pool::{NetPool, Region};
use gos_share::Sharing;
use gos_types::Ty;

// The gates of a part: it passes control on, it computes, or two callers use one source by it, in each order of its
// handshakes or in one.
#[derive(Debug, Drop)]
pub(crate) enum Gates<'a> {
    Controls(Control),
    Computes(Arith),
    Shares(Sharing<'a>),
    Threads(FastSharing<'a>),
}

impl<'a> Macro for Gates<'a> {
    ghost part = { part_in };

    ghost cells = { cells_in };

    ghost outs_at = { outs_in };

    ghost late = { late_in };

    ghost pending = { pending_in };

    ghost stands = { stands_in };

    ghost passing = { passing_in };

    ghost is_laid_out = { IsLaidOut };

    ghost suits = { Suits };

    fn size(&self) -> u32 {
        match self {
            Gates::Controls(control) => control.size(),
            Gates::Computes(arith) => arith.size(),
            Gates::Shares(sharing) => sharing.size(),
            Gates::Threads(sharing) => sharing.size(),
        }
    }

    fn outs(&self, base: NetId, wires: &mut [Wire]) {
        match self {
            Gates::Controls(control) => control.outs(base, wires),
            Gates::Computes(arith) => arith.outs(base, wires),
            Gates::Shares(sharing) => sharing.outs(base, wires),
            Gates::Threads(sharing) => sharing.outs(base, wires),
        }
    }

    fn place(&self, pool: &mut NetPool, region: &mut Region, wires: &[Wire]) {
        match self {
            Gates::Controls(control) => control.place(pool, region, wires),
            Gates::Computes(arith) => arith.place(pool, region, wires),
            Gates::Shares(sharing) => sharing.place(pool, region, wires),
            Gates::Threads(sharing) => sharing.place(pool, region, wires),
        }
    }

    fn passes(&self, from: u32, to: u32) -> bool {
        match self {
            Gates::Controls(control) => control.passes(from, to),
            Gates::Computes(arith) => arith.passes(from, to),
            Gates::Shares(sharing) => sharing.passes(from, to),
            Gates::Threads(sharing) => sharing.passes(from, to),
        }
    }

    ghost law = { gates_keep };

    ghost paths = { gates_pass };
}

// The gates of a Share, made for this order of its handshakes if there is one.
fn sharing_of<'a>(ty: &'a Ty, order: Option<&'a [u32]>) -> Gates<'a>
    requires small { IsSmall ty.now }
    requires order { IsOrderOf (making_of (option_copied order)) (Share (type_of ty.now)) }
    ensures is { result ≡ sharing_for (making_of (option_copied order.entry)) ty.now }
    ensures laid_out { IsLaidOut result }
{
    match order {
        None => Gates::Shares(Sharing(ty)),
        Some(order) => Gates::Threads(FastSharing { ty, order }),
    }
}

// The gates of a part, made for this order of its handshakes if it is a Share and there is one. They take no memory.
pub(crate) fn gates_of<'a>(kind: &'a Kind, order: Option<&'a [u32]>) -> Gates<'a>
    requires in_range { IsInRange kind.now }
    requires order { IsOrderOf (making_of (option_copied order)) (part_of kind.now) }
    ensures is { result ≡ gates_for (making_of (option_copied order.entry)) kind.now }
    ensures laid_out { IsLaidOut result }
{
    match kind {
        Kind::Skip => Gates::Controls(Control(Kind::Skip)),
        Kind::Lit { w, k } => Gates::Computes(Arith(Kind::Lit { w: *w, k: *k })),
        Kind::Seq => Gates::Controls(Control(Kind::Seq)),
        Kind::SeqExp { w } => Gates::Controls(Control(Kind::SeqExp { w: *w })),
        Kind::Par => Gates::Controls(Control(Kind::Par)),
        Kind::If => Gates::Controls(Control(Kind::If)),
        Kind::IfExp { w } => Gates::Controls(Control(Kind::IfExp { w: *w })),
        Kind::While => Gates::Controls(Control(Kind::While)),
        Kind::Op { op, w } => Gates::Computes(Arith(Kind::Op { op: *op, w: *w })),
        Kind::Not { w } => Gates::Computes(Arith(Kind::Not { w: *w })),
        Kind::Assign { w } => Gates::Computes(Arith(Kind::Assign { w: *w })),
        Kind::Deref { w } => Gates::Computes(Arith(Kind::Deref { w: *w })),
        Kind::Local { w, v } => Gates::Computes(Arith(Kind::Local { w: *w, v: *v })),
        Kind::Array { w, n, v } => Gates::Computes(Arith(Kind::Array {
            w: *w,
            n: *n,
            v: *v,
        })),
        Kind::Share(ty) => sharing_of(ty, order),
    }
}
