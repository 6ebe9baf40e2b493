// A simulator in words of one size.
ghost use Rattle.std.specs.Prelude.{◌≡◌, ◌+◌, ◌<◌, ◌≤◌, ◌^◌, All, IfErr, IfOk, IsFalse, IsTrue, length, replicate};
ghost use Rattle.gos_netcheck.specs.Accepted.{IsAccepted};
ghost use Rattle.gos_sim.specs.EventNets.{input_events, output_events};
ghost use Rattle.gos_sim.specs.Cycle.{IsCycle, IsNextOutput, IsWord, at_reset};
ghost use Rattle.gos_sim.specs.Visits.{HasVisited};
ghost use Rattle.gos_sim.specs.Repeats.{Repeats};
ghost use Rattle.gos_sim.specs.inner.Active.{IsAwake};
ghost use Rattle.gos_sim.specs.inner.Machine.{IsMachine, SettlesAtReset, plan_of};

use crate::active::Active;
use crate::machine::{Machine, machine_of};
use crate::past::{Past, turn};
use crate::pulse::Pulse;
use crate::running::show;
use crate::visits::levels_visited;
use crate::word::Word;
use crate::words::Words;
use gos_netcheck::Checked;
use gos_netlist::Netlist;
use gos_types::NoMemory;
use std::alloc::Global;
use std::marker::Model;

/// A netlist that runs, in words of one size. Clauses see it as the netlist, what its registers hold, and its last two settlings.
pub struct WordSim<W: Word> {
    net: Checked,
    machine: Machine,
    active: Active,
    registers: Words<W>,
    values: Words<W>,
    before: Words<W>,
    still: bool,
    past: Past,
}

// By hand, so that it is one call for whoever lets a simulator go, and not one for each list that it has.
impl<W: Word> Drop for WordSim<W> {
    fn drop(self) {
        let WordSim {
            net: _,
            machine: _,
            active: _,
            registers: _,
            values: _,
            before: _,
            still: _,
            past: _,
        } = self;
    }
}

impl<W: Word> Model for WordSim<W> {
    ghost use Rattle.std.specs.Coded.{codes};
    ghost use Rattle.gos_types.specs.inner.TypeCode.{type_code};
    ghost use Rattle.gos_sim.specs.Cycle.{Simulator};

    ghost Value = { Simulator };

    ghost coded = { Prim.hlevel (codes, type_code) };

    ghost use Rattle.gos_sim.specs.inner.Machine.{IsBuilt, seen};

    ghost view = { λ s. seen s.net s.machine s.registers s.values s.before s.past };

    ghost invariant = { λ s. IsBuilt W.bits s.net s.machine s.active s.registers s.values s.before s.still s.past };
}

impl<W: Word> WordSim<W> {
    /// A simulator with all registers 0. `Err` is want of memory alone, and hands the netlist back.
    pub fn new(alloc: Global, net: Checked) -> Result<WordSim<W>, Checked>
        requires widths { All (λ c. c.width ≤ W.bits) net.cells }
        ensures made { IfOk result (λ sim. sim ≡ at_reset net) }
        ensures refused { IfErr result (λ back. back ≡ net) }
    {
        match parts_of(alloc, &net) {
            Ok((machine, active, registers, values, before)) => Ok(WordSim {
                net,
                machine,
                active,
                registers,
                values,
                before,
                still: false,
                past: Past::Reset,
            }),
            Err(NoMemory) => Err(net),
        }
    }

    /// How many input events there are.
    pub fn inputs(&self) -> usize
        ensures { result ≡ length (input_events self.now.net) }
    {
        self.machine.inputs.len()
    }

    /// How many output events there are.
    pub fn outputs(&self) -> usize
        ensures { result ≡ length (output_events self.now.net) }
    {
        self.machine.outputs.len()
    }

    /// The netlist that runs.
    pub fn netlist(&self) -> &Netlist
        ensures value { result.now ≡ self.now.net }
        ensures accepted { IsAccepted self.now.net }
    {
        self.net.netlist()
    }

    /// Writes the outputs of the coming cycle, in event order. They come from registers, and so don't depend on its inputs.
    pub fn peek(&self, outputs: &mut [Pulse])
        requires { length outputs.old ≡ length (output_events self.now.net) }
        ensures { IsNextOutput self.now outputs.new }
    {
        show(&self.machine.outputs, &self.registers, outputs);
    }

    /// Runs a cycle with these inputs and writes its outputs, both in event order. Each value that comes with a pulse has at most 32
    /// bits, or as many as some net has; where the event has no number, it is not read.
    pub fn cycle(&mut self, inputs: &[Pulse], outputs: &mut [Pulse])
        requires inputs { length inputs.now ≡ length (input_events self.old.net) }
        requires outputs { length outputs.old ≡ length (output_events self.old.net) }
        requires numbers { All (λ p. IsWord self.old.net.cells p.value) inputs.now }
        ensures cycle { IsCycle self.old inputs.now outputs.new self.new }
        ensures net { self.new.net ≡ self.old.net }
    {
        let rests = self.machine.rests(inputs, &self.values, self.still);
        let course = self.active.course(rests);
        turn(
            &mut self.values,
            &mut self.before,
            &self.active.wake.touched,
            course,
        );
        let stands = self.active.cycle(
            &self.machine,
            course,
            inputs,
            outputs,
            &mut self.registers,
            &mut self.values,
        );
        self.still = stands;
        self.past = self.past.after(course);
    }

    /// The number of levels above 0 in which, in the last cycle, some cell had a pin whose value differed from the settling
    /// before; 0 before the first cycle. Before the first one all registers and inputs are 0.
    pub fn visited(&self) -> u64
        ensures { HasVisited self.now.net.cells self.now.settlings result }
    {
        match self.past {
            Past::Reset | Past::Still => 0,
            Past::First | Past::Later => {
                let machine = &self.machine;
                let cells = &self.net.netlist().cells;
                levels_visited(
                    &machine.levels,
                    cells,
                    &machine.places,
                    &self.before,
                    &self.values,
                )
            }
        }
    }

    /// Where it is true, another cycle with the same inputs leaves the simulator as it is: its registers, and its last two settlings.
    /// Where it is false that may be so too.
    pub fn repeats(&self) -> bool
        ensures { IsTrue result → Repeats self.now }
    {
        match self.past {
            Past::Still => self.still,
            Past::Reset | Past::First | Past::Later => false,
        }
    }

    /// Sets all registers to 0.
    pub fn reset(&mut self)
        ensures { self.new ≡ at_reset self.old.net }
    {
        self.registers.clear();
        self.machine.settle_at_reset(&mut self.values);
        self.active.reset();
        self.still = false;
        self.past = Past::Reset;
    }
}

// The machine of a netlist, with what it has to know of changes, the registers, the values where all registers and inputs are 0,
// and room for those before them, all by place.
fn parts_of<W: Word>(
    alloc: Global,
    net: &Checked,
) -> Result<(Machine, Active, Words<W>, Words<W>, Words<W>), NoMemory>
    requires widths { All (λ c. c.width ≤ W.bits) net.now.cells }
    ensures machine { IfOk result (λ parts. IsMachine net.now parts.0) }
    ensures fresh { IfOk result (λ parts. IsFalse parts.1.settled) }
    ensures awake { IfOk result (λ parts. IsAwake parts.0.count parts.0.program parts.0.latches.items parts.1) }
    ensures registers { IfOk result (λ parts. parts.2 ≡ replicate parts.0.count 0) }
    ensures each { IfOk result (λ parts. length parts.3 ≡ parts.0.count) }
    ensures values { IfOk result (λ parts. SettlesAtReset (plan_of parts.0) parts.3) }
    ensures before { IfOk result (λ parts. parts.4 ≡ replicate parts.0.count 0) }
{
    let machine = machine_for(alloc, net)?;
    let count = machine.count;
    let registers = Words::zeros(alloc, count)?;
    let before = Words::zeros(alloc, count)?;
    let values = machine.values_at_reset(alloc, count)?;
    let active = Active::new(alloc, &machine, count)?;
    Ok((machine, active, registers, values, before))
}

// The machine of an accepted netlist.
#[tactic(auto, using(crate::proofs::AcceptedLemmas::ready_of_accepted))]
fn machine_for(alloc: Global, net: &Checked) -> Result<Machine, NoMemory>
    ensures machine { IfOk result (IsMachine net.now) }
    ensures few { IfOk result (λ machine. length machine.program + length machine.latches.items < 2 ^ 32) }
{
    let levels = net.levels(alloc)?;
    machine_of(alloc, net.netlist(), net.schedule(), &levels)
}
