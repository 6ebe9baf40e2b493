// The simulator beside a plain evaluator, which goes through the cells one by one, on drawn netlists.
ghost use Rattle.std.specs.Prelude.{◌≤◌, ◌<◌};

use crate::bench::Bench;
use crate::drawn::{Draw, drawn, small};
use gos_netcheck::{Checked, accept};
use gos_netlist::{Cell, Gate, NetId};
use gos_sim::Pulse;
use std::alloc::Global;
use std::test::Fail;

// A net as the plain evaluator knows it: its cell with the level and what a register holds there, and what the net showed
// in the last cycle and in the one before.
#[derive(Debug, Clone, Copy)]
struct Net {
    cell: Cell,
    level: u32,
    register: u64,
    value: u64,
    before: u64,
}

// What a net shows, 0 where there is none.
fn at(nets: &[Net], net: NetId) -> u64 {
    match nets.get(net.0 as usize) {
        Some(net) => net.value,
        None => 0,
    }
}

// What a cell of one or four bits shows.
fn value_of(cell: Cell, input: u64, register: u64, nets: &[Net]) -> u64 {
    let mask = if cell.width == 1 { 1 } else { 15 };
    let value = match cell.gate {
        Gate::Input => input,
        Gate::Const(k) => k,
        Gate::Not(a) => !at(nets, a),
        Gate::And(a, b) => at(nets, a) & at(nets, b),
        Gate::Or(a, b) => at(nets, a) | at(nets, b),
        Gate::Xor(a, b) => at(nets, a) ^ at(nets, b),
        Gate::Mux(s, a, b) => at(nets, if at(nets, s) == 1 { a } else { b }),
        Gate::Add(a, b) => at(nets, a).wrapping_add(at(nets, b)),
        Gate::Sub(a, b) => at(nets, a).wrapping_sub(at(nets, b)),
        Gate::Eq(a, b) => u64::from(at(nets, a) == at(nets, b)),
        Gate::Less(a, b) => u64::from(at(nets, a) < at(nets, b)),
        Gate::Gate(s, a) if at(nets, s) == 1 => at(nets, a),
        Gate::Gate(_, _) => 0,
        Gate::Reg(_) => register,
    };
    value & mask
}

// Whether a net showed something else in the cycle before.
fn differs(nets: &[Net], net: NetId) -> bool {
    match nets.get(net.0 as usize) {
        Some(net) => net.value != net.before,
        None => false,
    }
}

// Whether a gate that is evaluated reads a number that differs.
fn reads_change(gate: Gate, nets: &[Net]) -> bool {
    match gate {
        Gate::Input | Gate::Const(_) | Gate::Reg(_) => false,
        Gate::Not(a) => differs(nets, a),
        Gate::And(a, b)
        | Gate::Or(a, b)
        | Gate::Xor(a, b)
        | Gate::Add(a, b)
        | Gate::Sub(a, b)
        | Gate::Eq(a, b)
        | Gate::Less(a, b)
        | Gate::Gate(a, b) => differs(nets, a) || differs(nets, b),
        Gate::Mux(s, a, b) => differs(nets, s) || differs(nets, a) || differs(nets, b),
    }
}

// The nets of a netlist whose registers are 0, before any of them showed something.
fn nets_of(alloc: Global, net: &Checked) -> Result<Vec<Net>, Fail> {
    let levels = net.levels(alloc)?;
    let mut nets = Vec::new(alloc);
    for (cell, level) in net.netlist().cells.iter().zip(&levels) {
        nets.push(Net {
            cell: *cell,
            level: *level,
            register: 0,
            value: 0,
            before: 0,
        })?;
    }
    Ok(nets)
}

// The plain evaluator, with room to note levels.
#[derive(Drop)]
struct Plain {
    nets: Vec<Net>,
    seen: Vec<bool>,
}

impl Plain {
    // The evaluator of a netlist, settled with registers and inputs of 0.
    fn new(alloc: Global, net: &Checked) -> Result<Plain, Fail> {
        let nets = nets_of(alloc, net)?;
        let seen = vec![in alloc; false; nets.len()]?;
        let mut plain = Plain { nets, seen };
        plain.settle(0);
        Ok(plain)
    }

    // Settles one net.
    fn settle_at(&mut self, net: usize, input: u64) {
        if net < self.nets.len() {
            let old = self.nets[net];
            let value = value_of(old.cell, input, old.register, &self.nets);
            self.nets[net].before = old.value;
            self.nets[net].value = value;
        }
    }

    // Settles the nets in their order. Each cell stands behind those that it reads.
    fn settle(&mut self, input: u64) {
        for net in 0..self.nets.len() {
            self.settle_at(net, input);
        }
    }

    // Takes the next number of one register over.
    fn latch_at(&mut self, net: usize) {
        if net < self.nets.len() {
            if let Gate::Reg(pin) = self.nets[net].cell.gate {
                self.nets[net].register = at(&self.nets, pin);
            }
        }
    }

    // Takes the next numbers of the registers over.
    fn latch(&mut self) {
        for net in 0..self.nets.len() {
            self.latch_at(net);
        }
    }

    // Runs a cycle with this input.
    fn cycle(&mut self, input: u64) {
        self.settle(input);
        self.latch();
    }

    // Notes the levels in which some gate reads another number than in the cycle before.
    fn note_levels(&mut self) {
        self.seen.fill(false);
        for net in &self.nets {
            if reads_change(net.cell.gate, &self.nets) && (net.level as usize) < self.seen.len() {
                self.seen[net.level as usize] = true;
            }
        }
    }

    // How many levels are noted.
    fn visited(&self) -> u64 {
        self.seen.iter().filter(|level| **level).count() as u64
    }

    // Whether this is the only output: the answer with its value, which are the last two nets.
    fn shows(&self, outputs: &[Pulse]) -> bool {
        match (outputs, self.nets.as_slice()) {
            ([pulse], [.., answer, number]) => {
                pulse.on == (answer.value == 1) && pulse.value == number.value
            }
            _ => false,
        }
    }
}

// How large a netlist is drawn, in pairs, how many cycles it runs, and in one of how many it is asked.
#[derive(Debug, Clone, Copy)]
struct Trial {
    pairs: u32,
    cycles: u32,
    rarely: u32,
}

// Whether both show the same in a cycle with a request or without one, and visit as many levels.
fn agree(bench: &mut Bench, plain: &mut Plain, on: bool) -> bool {
    plain.cycle(u64::from(on));
    plain.note_levels();
    bench.cycle(on) && plain.shows(bench.outputs()) && bench.sim.visited() == plain.visited()
}

// Whether both agree in each cycle, with requests that are drawn from a seed.
fn always_agree(bench: &mut Bench, plain: &mut Plain, seed: u64, trial: Trial) -> bool
    requires { 0 < trial.rarely }
{
    let mut draw = Draw::new(seed);
    for _ in 0..trial.cycles {
        if !agree(bench, plain, draw.number() % trial.rarely == 0) {
            return false;
        }
    }
    true
}

// Whether simulator and plain evaluator agree in each cycle of a netlist that is drawn from a seed.
fn shows_the_same(alloc: Global, seed: u64, trial: Trial) -> Result<bool, Fail>
    requires pairs { trial.pairs ≤ 1000 }
    requires rarely { 0 < trial.rarely }
{
    let Some(net) = small(drawn(alloc, seed, trial.pairs)?) else {
        return Ok(false);
    };
    let net = accept(alloc, net)?;
    let mut plain = Plain::new(alloc, &net)?;
    let mut bench = Bench::new(alloc, net)?;
    Ok(always_agree(&mut bench, &mut plain, seed, trial))
}

#[test]
fn shows_what_a_plain_evaluator_shows(rt: HostRuntime) -> Result<(), Fail> {
    let trial = Trial {
        pairs: 40,
        cycles: 50,
        rarely: 4,
    };
    for seed in 1..9 {
        assert!(rt; shows_the_same(rt.alloc(), seed, trial)?);
    }
    Ok(())
}

// Most cells stand still, so that often few are evaluated; and where it is asked again, many.
#[test]
fn shows_the_same_where_few_cells_change(rt: HostRuntime) -> Result<(), Fail> {
    let trial = Trial {
        pairs: 120,
        cycles: 80,
        rarely: 12,
    };
    for seed in 1..4 {
        assert!(rt; shows_the_same(rt.alloc(), seed, trial)?);
    }
    Ok(())
}
