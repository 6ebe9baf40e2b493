// The gates of Skip, placed in a pool.
ghost use Rattle.std.specs.Prelude.{[]};
ghost use Rattle.gos_plan.specs.Kinds.{Skip};
ghost use Rattle.gos_macro.specs.Gates.{nothing_pending};
ghost use Rattle.gos_macro.specs.SmallGates.{skip_cells, skip_outs, skip_stands};
ghost use Rattle.gos_macro.specs.SmallPaths.{skip_passing};
ghost use Rattle.gos_macro.specs.laws.SkipKept.{skip_gates};
ghost use Rattle.gos_macro.specs.laws.SkipPaths.{skip_paths};

use crate::trial::place_alone;
use gos_macro::{Macro, Wire};
use gos_netlist::{Cell, Gate, NetId};
use gos_pool::{NetPool, Region};
use std::test::Fail;

// The gates of Skip: the request is the answer.
#[derive(Drop)]
struct Buffer;

impl Macro for Buffer {
    ghost part = { λ _. Skip };

    ghost cells = { λ _. skip_cells };

    ghost outs_at = { λ _. skip_outs };

    ghost late = { λ _. [] };

    ghost pending = { λ _. nothing_pending };

    ghost stands = { λ _. skip_stands };

    ghost passing = { λ _. skip_passing };

    ghost is_laid_out = { λ _. Unit {0} };

    ghost suits = { λ _ _. Unit {0} };

    fn size(&self) -> u32 {
        1
    }

    fn outs(&self, base: NetId, wires: &mut [Wire]) {
        wires[0].out_pulse = base;
    }

    fn place(&self, pool: &mut NetPool, region: &mut Region, wires: &[Wire]) {
        let request = wires[0].in_pulse;
        pool.place(
            region,
            Cell {
                width: 1,
                gate: Gate::Or(request, request),
            },
        );
    }

    fn passes(&self, _from: u32, _to: u32) -> bool {
        true
    }

    ghost law = { λ _ _ rank _. skip_gates rank };

    ghost paths = { λ _ _. skip_paths };
}

// Net 7 is the request that comes in.
#[test]
fn gates_of_a_skip_are_placed(rt: HostRuntime) -> Result<(), Fail> {
    let skip = place_alone(rt.alloc(), &Buffer, &[(7, 0)])?;
    assert!(rt; skip.cells.len() == 1 && skip.pulse_at(0) == 0);
    assert!(rt;
        matches!(skip.cells[0].gate, Gate::Or(NetId(7), NetId(7))),
        "it is no buffer"
    );
    Ok(())
}
