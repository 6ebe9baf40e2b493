// A simulator with room for what comes in and what goes out.
use gos_netcheck::Checked;
use gos_sim::{Pulse, Sim};
use std::alloc::Global;
use std::test::Fail;

// A pulse without a number, or none.
fn pulse(on: bool) -> Pulse {
    Pulse { on, value: 0 }
}

// Runs a cycle with pulses at all inputs or at none; whether inputs and outputs are as many as the simulator's.
fn run_cycle(sim: &mut Sim, on: bool, inputs: &mut [Pulse], outputs: &mut [Pulse]) -> bool {
    if inputs.len() != sim.inputs() || outputs.len() != sim.outputs() {
        return false;
    }
    inputs.fill(Pulse { on, value: 0 });
    sim.cycle(inputs, outputs);
    true
}

/// The simulator, the inputs of a cycle and its outputs.
#[derive(Drop)]
pub struct Bench {
    pub sim: Sim,
    inputs: Vec<Pulse>,
    outputs: Vec<Pulse>,
}

impl Bench {
    /// A simulator of a netlist, at reset.
    pub fn new(alloc: Global, net: Checked) -> Result<Bench, Fail> {
        let sim = Sim::new(alloc, net)?;
        let inputs = vec![in alloc; pulse(false); sim.inputs()]?;
        let outputs = vec![in alloc; pulse(false); sim.outputs()]?;
        Ok(Bench {
            sim,
            inputs,
            outputs,
        })
    }

    /// The outputs of the last cycle.
    pub fn outputs(&self) -> &[Pulse] {
        self.outputs.as_slice()
    }

    /// Runs a cycle with pulses at all inputs or at none. False where inputs and outputs are not as many as the simulator's.
    pub fn cycle(&mut self, on: bool) -> bool {
        run_cycle(&mut self.sim, on, &mut self.inputs, &mut self.outputs)
    }

    /// Whether there is one output, and it shows a pulse or none.
    pub fn shows(&self, on: bool) -> bool {
        self.outputs.as_slice() == [pulse(on)].as_slice()
    }

    /// Whether the output shows this by a peek before the cycle. Until then it shows something else.
    pub fn peeks(&mut self, on: bool) -> bool {
        if self.outputs.len() != self.sim.outputs() {
            return false;
        }
        self.outputs.fill(pulse(!on));
        self.sim.peek(&mut self.outputs);
        self.shows(on)
    }
}
