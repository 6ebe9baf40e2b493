// The simulator: one in narrow words where all nets are so narrow, and else one in wide ones.
ghost use Rattle.std.specs.Prelude.{◌≡◌, All, IfErr, IfOk, IsTrue, length};
ghost use Rattle.gos_netcheck.specs.Accepted.{IsAccepted};
ghost use Rattle.gos_sim.specs.EventNets.{input_events, output_events};
ghost use Rattle.gos_sim.specs.Cycle.{IsCycle, IsNextOutput, IsWord, at_reset};
ghost use Rattle.gos_sim.specs.Visits.{HasVisited};
ghost use Rattle.gos_sim.specs.Repeats.{Repeats};
ghost use Rattle.gos_sim.specs.inner.Program.{are_narrow};

use crate::pulse::Pulse;
use crate::word_sim::WordSim;
use gos_netcheck::Checked;
use gos_netlist::{Cell, Netlist};
use std::alloc::Global;
use std::marker::Model;

/// A netlist that runs. Clauses see it as the netlist, what its registers hold, and its last two settlings.
pub struct Sim {
    words: Sizes,
}

// By hand, so that it is one call for whoever lets a simulator go, and not an arm for each size.
impl Drop for Sim {
    fn drop(self) {
        let Sim { words: _ } = self;
    }
}

/// A simulator, by the size of its words.
#[derive(Drop)]
pub enum Sizes {
    /// Words of 32 bits.
    Narrow(WordSim<u32>),
    /// Words of 64 bits.
    Wide(WordSim<u64>),
}

impl Model for Sim {
    ghost use Rattle.std.specs.Coded.{codes};
    ghost use Rattle.gos_types.specs.inner.TypeCode.{type_code};
    ghost use Rattle.gos_sim.specs.Cycle.{Simulator};

    ghost Value = { Simulator };

    ghost coded = { Prim.hlevel (codes, type_code) };

    ghost use Rattle.gos_sim.specs.inner.Sizes.{seen_in};

    ghost view = { λ s. seen_in s.words };
}

impl Sim {
    /// A simulator with all registers 0. `Err` is want of memory alone, and hands the netlist back.
    #[tactic(auto, using(crate::proofs::AcceptedLemmas::widths_below, crate::proofs::AcceptedLemmas::narrow_widths))]
    pub fn new(alloc: Global, net: Checked) -> Result<Sim, Checked>
        ensures made { IfOk result (λ sim. sim ≡ at_reset net) }
        ensures refused { IfErr result (λ back. back ≡ net) }
    {
        if has_narrow_nets(&net.netlist().cells) {
            match WordSim::new(alloc, net) {
                Ok(sim) => Ok(Sim {
                    words: Sizes::Narrow(sim),
                }),
                Err(net) => Err(net),
            }
        } else {
            match WordSim::new(alloc, net) {
                Ok(sim) => Ok(Sim {
                    words: Sizes::Wide(sim),
                }),
                Err(net) => Err(net),
            }
        }
    }

    /// How many input events there are.
    pub fn inputs(&self) -> usize
        ensures { result ≡ length (input_events self.now.net) }
    {
        match &self.words {
            Sizes::Narrow(sim) => sim.inputs(),
            Sizes::Wide(sim) => sim.inputs(),
        }
    }

    /// How many output events there are.
    pub fn outputs(&self) -> usize
        ensures { result ≡ length (output_events self.now.net) }
    {
        match &self.words {
            Sizes::Narrow(sim) => sim.outputs(),
            Sizes::Wide(sim) => sim.outputs(),
        }
    }

    /// The netlist that runs.
    pub fn netlist(&self) -> &Netlist
        ensures value { result.now ≡ self.now.net }
        ensures accepted { IsAccepted self.now.net }
    {
        match &self.words {
            Sizes::Narrow(sim) => sim.netlist(),
            Sizes::Wide(sim) => sim.netlist(),
        }
    }

    /// Writes the outputs of the coming cycle, in event order. They come from registers, and so don't depend on its inputs.
    pub fn peek(&self, outputs: &mut [Pulse])
        requires { length outputs.old ≡ length (output_events self.now.net) }
        ensures { IsNextOutput self.now outputs.new }
    {
        match &self.words {
            Sizes::Narrow(sim) => sim.peek(outputs),
            Sizes::Wide(sim) => sim.peek(outputs),
        }
    }

    /// Runs a cycle with these inputs and writes its outputs, both in event order. Each value that comes with a pulse has at most 32
    /// bits, or as many as some net has; where the event has no number, it is not read.
    pub fn cycle(&mut self, inputs: &[Pulse], outputs: &mut [Pulse])
        requires inputs { length inputs.now ≡ length (input_events self.old.net) }
        requires outputs { length outputs.old ≡ length (output_events self.old.net) }
        requires numbers { All (λ p. IsWord self.old.net.cells p.value) inputs.now }
        ensures cycle { IsCycle self.old inputs.now outputs.new self.new }
        ensures net { self.new.net ≡ self.old.net }
    {
        match &mut self.words {
            Sizes::Narrow(sim) => sim.cycle(inputs, outputs),
            Sizes::Wide(sim) => sim.cycle(inputs, outputs),
        }
    }

    /// The number of levels above 0 in which, in the last cycle, some cell had a pin whose value differed from the settling
    /// before; 0 before the first cycle. Before the first one all registers and inputs are 0.
    pub fn visited(&self) -> u64
        ensures { HasVisited self.now.net.cells self.now.settlings result }
    {
        match &self.words {
            Sizes::Narrow(sim) => sim.visited(),
            Sizes::Wide(sim) => sim.visited(),
        }
    }

    /// Where it is true, another cycle with the same inputs leaves the simulator as it is: its registers, and its last two settlings.
    /// Where it is false that may be so too.
    pub fn repeats(&self) -> bool
        ensures { IsTrue result → Repeats self.now }
    {
        match &self.words {
            Sizes::Narrow(sim) => sim.repeats(),
            Sizes::Wide(sim) => sim.repeats(),
        }
    }

    /// Sets all registers to 0.
    pub fn reset(&mut self)
        ensures { self.new ≡ at_reset self.old.net }
    {
        match &mut self.words {
            Sizes::Narrow(sim) => sim.reset(),
            Sizes::Wide(sim) => sim.reset(),
        }
    }
}

// Whether all nets have numbers of narrow words.
fn has_narrow_nets(cells: &[Cell]) -> bool
    ensures { result ≡ are_narrow cells.now }
{
    cells.iter().all(|cell| cell.width <= u32::BITS)
}
