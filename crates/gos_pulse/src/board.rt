// What the driver keeps from cycle to cycle: the guard, and the pulses that come in and go out.

ghost use Rattle.std.specs.Prelude.{◌≡◌, ◌<◌, ◌++◌, [], List, Some, length, reverse, slice_get, IfOk};
ghost use Rattle.gos_netlist.specs.declared.event.Event as seen;
ghost use Rattle.gos_netlist.specs.Nets.{Netlist as Circuit};
ghost use Rattle.gos_model.specs.Labels.{Label};
ghost use Rattle.gos_netcheck.specs.Accepted.{IsAccepted};
ghost use Rattle.gos_pulse.specs.Guarding.{Guards, HasPorts, outputs_of};
ghost use Rattle.gos_pulse.specs.Driving.{GivesInput};
ghost use Rattle.gos_pulse.specs.inner.Slots.{label_if, labels_of};
ghost use Rattle.gos_sim.specs.Cycle.{IsCycle};
ghost use Rattle.gos_pulse.specs.inner.Board.{Begins, CanTry, HasSeen, IsTried, Rests, Stands};

use crate::entries::Entry;
use crate::guard::Guard;
use crate::slots::{Slot, slots};
use gos_netlist::{Netlist, events};
use gos_sim::{Pulse, Sim};
use gos_types::NoMemory;
use std::alloc::Global;

/// No pulse.
const QUIET: Pulse = Pulse {
    on: false,
    value: 0,
};

/// The guard of a netlist, the slots of its events, and the pulses of a cycle, each way in event order.
#[derive(Drop)]
pub(crate) struct Board {
    pub guard: Guard,
    pub slots: Vec<Slot>,
    pub inputs: Vec<Pulse>,
    pub outputs: Vec<Pulse>,
}

impl Board {
    /// The board of a netlist before the first cycle.
    pub fn new(alloc: Global, net: &Netlist) -> Result<Board, NoMemory>
        ensures { IfOk result (Rests net.now []) }
    {
        let events = events(alloc, net)?;
        let slots = slots(alloc, events.as_slice())?;
        let guard = Guard::new(alloc, net)?;
        let inputs = vec![in alloc; QUIET; guard.inputs.len()]?;
        let outputs = vec![in alloc; QUIET; guard.outputs.len()]?;
        Ok(Board {
            guard,
            slots,
            inputs,
            outputs,
        })
    }

    /// Begins a cycle: sees its outputs, and gives no input yet.
    pub fn begin(&mut self, sim: &Sim)
        requires accepted { IsAccepted sim.now.net }
        requires rests { (past : List Label) × Rests sim.now.net past self.old }
        ensures { (past : List Label) → Rests sim.now.net past self.old → Begins sim.now past self.new }
    {
        sim.peek(&mut self.outputs);
        see_outputs(&mut self.guard, &self.outputs);
        self.inputs.fill(QUIET);
    }

    /// Runs a cycle in which nothing is given, and sees its outputs.
    pub fn pass(&mut self, sim: &mut Sim)
        requires accepted { IsAccepted sim.old.net }
        requires rests { (past : List Label) × Rests sim.old.net past self.old }
        ensures cycle { IsCycle sim.old self.new.inputs.items self.new.outputs.items sim.new }
        ensures seen { (past : List Label) → Rests sim.old.net past self.old → HasSeen sim.old.net past self.new }
        ensures net { sim.new.net ≡ sim.old.net }
    {
        self.inputs.fill(QUIET);
        sim.cycle(&self.inputs, &mut self.outputs);
        see_outputs(&mut self.guard, &self.outputs);
    }

    /// Gives the pulse of an entry where the protocol allows it now. The result is whether it was given.
    pub fn give(&mut self, entry: Entry) -> bool
        requires { CanTry self.old entry }
        ensures { (net : Circuit) (past given : List Label) → HasPorts net → Stands net past given self.old → GivesInput net entry
            → IsTried net past given entry result self.new }
    {
        let input = self.slots[entry.event].place;
        if !self.guard.allows(input) {
            return false;
        }
        self.guard.saw_input(input);
        self.inputs[input] = Pulse {
            on: true,
            value: entry.value,
        };
        true
    }
}

// Shows the outputs of a cycle to a guard.
fn see_outputs(guard: &mut Guard, outputs: &[Pulse])
    requires { length outputs.now ≡ length guard.old.outputs.items }
    ensures { (net : Circuit) (past : List Label) → HasPorts net → Guards net past guard.old
        → Guards net (reverse (labels_of net.ports (outputs_of net) outputs.now) ++ past) guard.new }
{
    for (output, pulse) in outputs.iter().enumerate() {
        see_output(guard, output, *pulse);
    }
}

// Shows what an output does in a cycle to a guard.
fn see_output(guard: &mut Guard, output: usize, pulse: Pulse)
    requires { output < length guard.old.outputs.items }
    ensures guards { (net : Circuit) (past : List Label) (event : seen.Event) → HasPorts net → Guards net past guard.old
        → slice_get (outputs_of net) output ≡ Some event → Guards net (reverse (label_if net.ports event pulse) ++ past) guard.new }
    ensures events { guard.new.outputs ≡ guard.old.outputs }
{
    if !pulse.on {
        return;
    }
    guard.saw_output(output);
}
