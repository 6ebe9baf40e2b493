// The gates of a part: what a crate that lays kinds of parts out as cells has to give, and the law that its gates keep.
ghost use Rattle.std.specs.Prelude.{◌≡◌, ◌+◌, ◌-◌, ◌*◌, ◌<◌, ◌≤◌, ℕ, Bool, List, ◌++◌, Some, length, map};
ghost use Rattle.gos_netlist.specs.Nets.{Cell};
ghost use Rattle.gos_netlist.specs.Settling.{Numbers};
ghost use Rattle.gos_pool.specs.Pools.{KeepsClosed};
ghost use Rattle.gos_plan.specs.Kinds.{Part, part_contacts};
ghost use Rattle.gos_plan.specs.Firing.{State, Token};
ghost use Rattle.gos_macro.specs.Gates.{Incoming, Outgoing};
ghost use Rattle.gos_macro.specs.Wires.{nets_in, incoming_of, HoldNets};
ghost use Rattle.gos_macro.specs.Law.{Order};
ghost use Rattle.gos_macro.specs.Kept.{KeepLaws};
ghost use Rattle.gos_macro.specs.Paths.{KeepPaths, TellsIfItPasses};

use gos_netlist::NetId;
use gos_pool::{NetPool, Region};

/// The nets of a handshake of a part. What comes in is the request where the part serves, and the answer where it asks.
/// A net of a value without bits is ignored.
#[derive(Debug, Clone, Copy)]
pub struct Wire {
    /// The pulse that comes in.
    pub in_pulse: NetId,
    /// The value that comes in with it.
    pub in_value: NetId,
    /// The pulse that goes out.
    pub out_pulse: NetId,
    /// The value that goes out with it.
    pub out_value: NetId,
}

/// A part that can be laid out as cells. There is one wire for each of its handshakes, in order. No call takes memory.
pub trait Macro {
    // What the part is, its cells from a net on, and the nets that go out of them.
    ghost part: { Self → Part };

    ghost cells: { Self → ℕ → Incoming → List Cell };

    ghost outs_at: { Self → ℕ → List Outgoing };

    // At which handshakes what comes in is late, what registers hold to be put out, and which state they stand for.
    ghost late: { Self → List ℕ };

    ghost pending: { Self → ℕ → Numbers → List Token };

    ghost stands: { Self → ℕ → Numbers → State → Type 0 };

    // Whether what comes in at one handshake can go out at another in the same cycle.
    ghost passing: { Self → ℕ → ℕ → Bool };

    // What the laws ask of the part, as that its widths are in range.
    ghost is_laid_out: { Self → Type 0 };

    // In which orders of the part's handshakes its gates keep the law of a cycle: where they know no order, in each.
    ghost suits: { Self → Order → Type 0 };

    /// How many cells the part has.
    fn size(&self) -> u32
        ensures cells { (base : ℕ) (nets : Incoming) → length (cells self.now base nets) ≡ result }
        ensures few { result ≤ 24 * (length (part_contacts (part self.now)) + 1) }
        ensures laid_out { is_laid_out self.now };

    /// Fills in the nets that go out of the part, where its cells begin at `base`.
    fn outs(&self, base: NetId, wires: &mut [Wire])
        requires wires { length wires.old ≡ length (part_contacts (part self.now)) }
        requires numbered { base.0 + length (cells self.now base.0 (incoming_of wires.old)) ≤ 4294967295 }
        ensures outs { HoldNets (outs_at self.now base.0) wires.new }
        ensures rest { map nets_in wires.new ≡ map nets_in wires.old };

    /// Places the cells of the part at the start of a region. The wires hold what `outs` gave for it.
    fn place(&self, pool: &mut NetPool, region: &mut Region, wires: &[Wire])
        requires begun { pool.old.begun ≡ Some region.old }
        requires empty { length pool.old.cells ≡ region.old }
        requires spare { length (cells self.now region.old (incoming_of wires.now)) ≤ pool.old.spare }
        requires outs { HoldNets (outs_at self.now region.old) wires.now }
        requires numbered { region.old + length (cells self.now region.old (incoming_of wires.now)) ≤ 4294967295 }
        ensures cells { pool.new.cells ≡ pool.old.cells ++ cells self.now region.old (incoming_of wires.now) }
        ensures spare { pool.old.spare ≡ pool.new.spare + length (cells self.now region.old (incoming_of wires.now)) }
        ensures begun { pool.new.begun ≡ pool.old.begun }
        ensures closed { pool.new.closed ≡ pool.old.closed }
        ensures region { region.new ≡ region.old }
        ensures kept { KeepsClosed pool.old pool.new };

    /// Whether what comes in at one handshake can go out at another in the same cycle: whether a path without registers leads
    /// from a net that comes in at `from` to one that goes out at `to`, where all nets that come in are different and lie
    /// outside the part's own region. Both are numbers of handshakes of the part, from 0 on.
    fn passes(&self, from: u32, to: u32) -> bool
        requires from { from < length (part_contacts (part self.now)) }
        requires to { to < length (part_contacts (part self.now)) }
        ensures path { TellsIfItPasses (part self.now) (cells self.now) (outs_at self.now) from to result }
        ensures known { result ≡ passing self.now from to };

    // In each cycle the gates do what the part does by its rows, in each order that suits them; registers that are all 0
    // stand for a part at rest; no number goes out without its pulse; and in a netlist the gates keep what is asked of an
    // accepted one.
    ghost law: { (m : Self) → is_laid_out m → (rank : Order) → suits m rank
        → KeepLaws (part m) (cells m) (outs_at m) (late m) (pending m) (stands m) rank };

    // Paths lead where `passing` says, from pulse to pulse too, and from no handshake at which what comes in is late; and the
    // gates depend on their place and wires by name alone.
    ghost paths: { (m : Self) → is_laid_out m → KeepPaths (part m) (cells m) (outs_at m) (late m) (passing m) };
}
