// A netlist as it runs: its events, its steps and its latches.
ghost use Rattle.std.specs.Prelude.{◌≡◌, ◌+◌, ◌<◌, ◌≤◌, ◌^◌, All, IfOk, IsTrue, filter, length, map};
ghost use Rattle.gos_netlist.specs.Events.{net_count};
ghost use Rattle.gos_netlist.specs.Seen.{number_of};
ghost use Rattle.gos_netlist.specs.Settling.{at};
ghost use Rattle.gos_sim.specs.Cycle.{GivesAll};
ghost use Rattle.gos_sim.specs.EventNets.{OnNets, all_events, comes_in};
ghost use Rattle.gos_sim.specs.inner.Machine.{IsMachine, IsMachineAt, IsRunnable, IsStill, RunsThrough, Settles, SettlesAtReset, plan_of};
ghost use Rattle.gos_netcheck.specs.Schedule.{IsSchedule};
ghost use Rattle.gos_netcheck.specs.Levels.{AreLevels};
ghost use Rattle.gos_sim.specs.inner.Places.{event_moved};
ghost use Rattle.gos_sim.specs.inner.Program.{HaveBits, IsLatchWithin};
ghost use Rattle.gos_sim.specs.inner.Ready.{IsReady};

use crate::chains::Chains;
use crate::evaluation::{Program, steps_moved};
use crate::event_nets::{EventNets, events_of};
use crate::levels::chained_levels;
use crate::order::by_keys;
use crate::places::{Places, events_moved, latches_moved, numbered};
use crate::program::{Latch, latches};
use crate::pulse::Pulse;
use crate::running::{give, is_given, latch, load, show};
use crate::word::Word;
use crate::words::Words;
use gos_netlist::{NetId, Netlist};
use gos_types::NoMemory;
use std::alloc::Global;

/// What runs in each cycle, in flat lists. All but `levels` and `places` speaks of places, and not of nets.
pub struct Machine {
    /// The input events, in order.
    pub inputs: Vec<EventNets>,
    /// The output events, in order.
    pub outputs: Vec<EventNets>,
    /// The cells to evaluate, in order.
    pub program: Program,
    /// The registers.
    pub latches: Vec<Latch>,
    /// The nets of each level, chained.
    pub levels: Chains,
    /// The place of each net.
    pub places: Vec<u32>,
    /// How many places there are.
    pub count: usize,
}

// By hand, so that it is one call for whoever lets a machine go, and not one for each list that it has.
impl Drop for Machine {
    fn drop(self) {
        let Machine {
            inputs: _,
            outputs: _,
            program: _,
            latches: _,
            levels: _,
            places: _,
            count: _,
        } = self;
    }
}

// The machine of a netlist, from an order in which its cells can be evaluated and from their levels.
pub fn machine_of(
    alloc: Global,
    net: &Netlist,
    order: &[NetId],
    levels: &[u32],
) -> Result<Machine, NoMemory>
    requires ready { IsReady net.now }
    requires order { IsSchedule net.now.cells (map number_of order.now) }
    requires leveled { AreLevels net.now.cells levels.now }
    requires few { length net.now.cells < 2 ^ 32 }
    requires once { length order.now ≤ length net.now.cells }
    ensures machine { IfOk result (IsMachine net.now) }
    ensures few { IfOk result (λ machine. length machine.program + length machine.latches.items < 2 ^ 32) }
{
    let sorted = by_keys(alloc, &net.cells, order)?;
    let latches = latches(alloc, &net.cells, &sorted)?;
    let places = numbered(alloc, net.cells.len(), &latches, &sorted)?;
    let program = steps_moved(alloc, &net.cells, &sorted, &places.of)?;
    machine_at(alloc, net, levels, &latches, places, program)
}

// The machine of a netlist, from its levels, its latches, the places of its nets and its steps there.
fn machine_at(
    alloc: Global,
    net: &Netlist,
    levels: &[u32],
    latches: &[Latch],
    places: Places,
    program: Program,
) -> Result<Machine, NoMemory>
    requires ready { IsReady net.now }
    requires each { length places.of.items ≡ length net.now.cells }
    requires latches { All (IsLatchWithin (length net.now.cells)) latches.now }
    requires few { length levels.now < 2 ^ 32 }
    ensures { IfOk result (IsMachineAt net.now levels.now latches.now places program) }
{
    let Places { of, count } = places;
    Ok(Machine {
        inputs: events_at(alloc, net, true, &of)?,
        outputs: events_at(alloc, net, false, &of)?,
        program,
        latches: latches_moved(alloc, latches, &of)?,
        levels: chained_levels(alloc, levels)?,
        places: of,
        count: count as usize,
    })
}

// The events of a netlist that come in, or those that go out, at the places of their nets.
fn events_at(
    alloc: Global,
    net: &Netlist,
    input: bool,
    places: &[u32],
) -> Result<Vec<EventNets>, NoMemory>
    requires ports { All (λ p. net_count p.ty ≤ length p.nets) net.now.ports }
    requires nets { All (OnNets (λ a. a < length places.now)) (filter (comes_in input) (all_events net.now)) }
    ensures { IfOk result (λ there. there.items ≡ map (event_moved (at places.now)) (filter (comes_in input) (all_events net.now))) }
{
    let events = events_of(alloc, net, input)?;
    events_moved(alloc, &events, places)
}

impl Machine {
    // Whether the values of the nets are already those of a cycle with these inputs: `still` says whether they stand still.
    pub fn rests<W: Word>(&self, inputs: &[Pulse], values: &Words<W>, still: bool) -> bool
        requires ready { IsRunnable (length values.now) (plan_of self.now) }
        requires inputs { length inputs.now ≡ length self.now.inputs.items }
        ensures still { IsTrue result → IsTrue still }
        ensures given { IsTrue result → GivesAll self.now.inputs.items inputs.now values.now }
    {
        still && is_given(&self.inputs, inputs, values)
    }

    // Runs a cycle: from the registers and the inputs to the values of the nets, the outputs and the next registers. `rests`
    // says whether the values are those of the cycle as they are, and the answer whether they stand still after it: then
    // another cycle with the same inputs has nothing to evaluate.
    pub fn run<W: Word>(
        &self,
        inputs: &[Pulse],
        outputs: &mut [Pulse],
        registers: &mut Words<W>,
        values: &mut Words<W>,
        rests: bool,
    ) -> bool
        requires ready { IsRunnable (length values.old) (plan_of self.now) }
        requires same { length registers.old ≡ length values.old }
        requires inputs { length inputs.now ≡ length self.now.inputs.items }
        requires outputs { length outputs.old ≡ length self.now.outputs.items }
        requires numbers { All (λ p. p.value < 2 ^ W.bits) inputs.now }
        requires sized { HaveBits W.bits self.now.program }
        requires still { IsTrue rests → IsStill (plan_of self.now) registers.old values.old }
        requires given { IsTrue rests → GivesAll self.now.inputs.items inputs.now values.old }
        ensures run { RunsThrough (plan_of self.now) inputs.now registers.old values.new outputs.new registers.new }
        ensures still { IsTrue result → IsStill (plan_of self.now) registers.new values.new }
        ensures rests { IsTrue rests → values.new ≡ values.old }
        ensures long { length values.new ≡ length values.old }
        ensures held { length registers.new ≡ length registers.old }
    {
        if rests {
            show(&self.outputs, values, outputs);
            return true;
        }
        self.settle(inputs, registers, values);
        show(&self.outputs, values, outputs);
        latch(&self.latches, values, registers)
    }

    // Settles the values of the nets for the registers and the inputs.
    fn settle<W: Word>(&self, inputs: &[Pulse], registers: &Words<W>, values: &mut Words<W>)
        requires ready { IsRunnable (length values.old) (plan_of self.now) }
        requires same { length registers.now ≡ length values.old }
        requires inputs { length inputs.now ≡ length self.now.inputs.items }
        requires numbers { All (λ p. p.value < 2 ^ W.bits) inputs.now }
        requires sized { HaveBits W.bits self.now.program }
        ensures settles { Settles (plan_of self.now) inputs.now registers.now values.new }
        ensures long { length values.new ≡ length values.old }
    {
        give(&self.inputs, inputs, values);
        load(&self.latches, registers, values);
        self.program.evaluate(values);
    }

    // Settles the values of the nets where all registers and inputs are 0.
    pub fn settle_at_reset<W: Word>(&self, values: &mut Words<W>)
        requires ready { IsRunnable (length values.old) (plan_of self.now) }
        requires sized { HaveBits W.bits self.now.program }
        ensures settles { SettlesAtReset (plan_of self.now) values.new }
        ensures long { length values.new ≡ length values.old }
    {
        values.clear();
        self.program.evaluate(values);
    }

    // The values of so many nets where all registers and inputs are 0.
    pub fn values_at_reset<W: Word>(
        &self,
        alloc: Global,
        count: usize,
    ) -> Result<Words<W>, NoMemory>
        requires ready { IsRunnable count (plan_of self.now) }
        requires sized { HaveBits W.bits self.now.program }
        ensures each { IfOk result (λ values. length values ≡ count) }
        ensures settles { IfOk result (λ values. SettlesAtReset (plan_of self.now) values) }
    {
        let mut values = Words::zeros(alloc, count)?;
        self.settle_at_reset(&mut values);
        Ok(values)
    }
}
