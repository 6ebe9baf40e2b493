// Lowered netlists beside the simulator, on drawn netlists, and how many bits are lowered.
use crate::bench::Bench;
use crate::drawn::{Draw, drawn, small};
use crate::samples::{bit, main_port};
use gos_gates::{Aig, GateFault, lower, small_lowered};
use gos_netcheck::accept;
use gos_netlist::{Cell, Gate, NetId, Netlist};
use gos_sim::Pulse;
use std::alloc::{AllocError, Global};
use std::test::Fail;

// What a literal shows where variables show this.
fn shows(shown: &[bool], literal: u32) -> bool {
    match shown.get((literal / 2) as usize) {
        Some(value) => *value != (literal % 2 == 1),
        None => false,
    }
}

// The number that literals show, the least bit first.
fn number(shown: &[bool], literals: &[u32]) -> u64 {
    let mut number: u64 = 0;
    for literal in literals.iter().rev() {
        number = number.wrapping_mul(2) | u64::from(shows(shown, *literal));
    }
    number
}

// What all variables show in a cycle with this input, where latches hold this.
fn settle(alloc: Global, aig: &Aig, on: bool, held: &[bool]) -> Result<Vec<bool>, AllocError> {
    let mut shown = vec![in alloc; false, on]?;
    shown.extend_from_slice(held)?;
    for gate in &aig.gates {
        let value = shows(&shown, gate.0) && shows(&shown, gate.1);
        shown.push(value)?;
    }
    Ok(shown)
}

// What literals show.
fn all(alloc: Global, shown: &[bool], literals: &[u32]) -> Result<Vec<bool>, AllocError> {
    let mut values = Vec::new(alloc);
    for literal in literals {
        values.push(shows(shown, *literal))?;
    }
    Ok(values)
}

// Whether the circuit's outputs are those of the simulator: an answer with its number.
fn is_shown(aig: &Aig, shown: &[bool], outputs: &[Pulse]) -> bool {
    match (outputs, aig.outputs.as_slice()) {
        ([pulse], [answer, bits @ ..]) => {
            pulse.on == shows(shown, *answer) && pulse.value == number(shown, bits)
        }
        _ => false,
    }
}

// Whether circuit and simulator agree in each of so many cycles, with requests that are drawn from a seed.
fn agree(alloc: Global, aig: &Aig, bench: &mut Bench, seed: u64) -> Result<bool, AllocError> {
    let mut draw = Draw::new(seed);
    let mut held = vec![in alloc; false; aig.latches.len()]?;
    for _ in 0..40 {
        let on = draw.number() % 3 == 0;
        let shown = settle(alloc, aig, on, &held)?;
        if !(bench.cycle(on) && is_shown(aig, &shown, bench.outputs())) {
            return Ok(false);
        }
        held = all(alloc, &shown, &aig.latches)?;
    }
    Ok(true)
}

// Whether a netlist that is drawn from a seed shows the same as the circuit that it is lowered to.
fn shows_the_same(alloc: Global, seed: u64) -> Result<bool, Fail> {
    let Some(net) = small(drawn(alloc, seed, 40)?) else {
        return Ok(false);
    };
    let net = accept(alloc, net)?;
    let aig = lower(alloc, &net)?;
    let mut bench = Bench::new(alloc, net)?;
    Ok(agree(alloc, &aig, &mut bench, seed)?)
}

#[test]
fn lowered_netlists_show_the_same(rt: HostRuntime) -> Result<(), Fail> {
    for seed in 1..9 {
        assert!(rt; shows_the_same(rt.alloc(), seed)?);
    }
    Ok(())
}

// A cell of so many bits.
fn wide(width: u32, gate: Gate) -> Cell {
    Cell { width, gate }
}

// A netlist of 1,999,971 bits, and those of one constant more.
fn large(alloc: Global, width: u32) -> Result<Netlist, Fail> {
    let mut cells = vec![in alloc;
        bit(Gate::Input),
        bit(Gate::Reg(NetId(0))),
        wide(32, Gate::Const(0)),
        wide(32, Gate::Const(0)),
        wide(32, Gate::Const(0)),
        wide(width, Gate::Const(0)),
    ]?;
    for _ in 0..20832 {
        cells.push(wide(32, Gate::Or(NetId(2), NetId(2))))?;
    }
    let ports = vec![in alloc; main_port(alloc, 0, 1)?]?;
    Ok(Netlist { cells, ports })
}

// How many bits are too many; 0 where the netlist is lowered.
fn excess(alloc: Global, width: u32) -> Result<u64, Fail> {
    let net = large(alloc, width)?;
    if net.cells.len() > 30_000 {
        return Err("too many cells".into());
    }
    match lower(alloc, &accept(alloc, net)?) {
        Err(GateFault::TooLarge { bits }) => Ok(bits),
        lowered => {
            lowered?;
            Ok(0)
        }
    }
}

#[test]
fn two_million_bits_are_lowered(rt: HostRuntime) -> Result<(), Fail> {
    assert!(rt; excess(rt.alloc(), 29)? == 0);
    assert!(rt; excess(rt.alloc(), 30)? == 2_000_001);
    Ok(())
}

#[test]
fn laws_return() {
    small_lowered();
}
