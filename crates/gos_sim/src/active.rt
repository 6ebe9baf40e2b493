// A cycle in which little changes: only what hangs on the changes is evaluated.
ghost use Rattle.std.specs.Prelude.{◌≡◌, ℕ, ◌+◌, ◌<◌, ◌/◌, ◌^◌, ◌⊎◌, ◌++◌, ◌∷◌, [], All, IfOk, IsFalse, IsTrue, length, set};
ghost use Rattle.gos_netlist.specs.Settling.{at};
ghost use Rattle.gos_sim.specs.Cycle.{GivesAll};
ghost use Rattle.gos_sim.specs.inner.Program.{HaveBits, IsLatchWithin, IsStepWithin};
ghost use Rattle.gos_sim.specs.inner.Running.{AreShown, AreTaken};
ghost use Rattle.gos_sim.specs.inner.Marks.{AreUnmarked};
ghost use Rattle.gos_sim.specs.inner.Readers.{ReadAll};
ghost use Rattle.gos_sim.specs.inner.Active.{Follows, HasSettled, HasSwept, IsAwake, IsReadyToSettle, IsSettled, IsWake, KeepsAwake, Lacks, Stand, StandBut, SweepsOn};
ghost use Rattle.gos_sim.specs.inner.Spots.{IsEvaluated};
ghost use Rattle.gos_sim.specs.inner.Past.{is_all, is_few, is_rest};
ghost use Rattle.gos_sim.specs.inner.Machine.{HasBegun, IsRunnable, IsStill, RunsThrough, plan_of};

use crate::course::Course;
use crate::evaluation::Program;
use crate::log::Log;
use crate::machine::Machine;
use crate::marks::Marks;
use crate::program::Latch;
use crate::pulse::Pulse;
use crate::readers::readers_of;
use crate::running::{latch, show};
use crate::wake::Wake;
use crate::word::Word;
use crate::words::Words;
use gos_types::NoMemory;
use std::alloc::Global;

/// It is given up to evaluate few steps where they are more than one in so many of all, and so many beside.
const PART: usize = 16;

const LEAST: usize = 8;

/// How many cycles pass at most until it is tried again.
const LONGEST: u32 = 64;

/// What has changed, and what has to be evaluated for it.
pub struct Active {
    /// What changed values bring with them.
    pub wake: Wake,
    /// The nets of the registers that took over another value.
    pub changed: Log,
    /// Whether the values are those of a cycle.
    pub settled: bool,
    /// How many cycles evaluate all cells before it is tried again to evaluate few.
    pub wait: u32,
    /// How many they are after the next time that these were too many.
    pub pause: u32,
}

// By hand, so that it is one call for whoever lets it go, and not one for each list that it has.
impl Drop for Active {
    fn drop(self) {
        let Active {
            wake: _,
            changed: _,
            settled: _,
            wait: _,
            pause: _,
        } = self;
    }
}

// Evaluates a step, into the values.
fn show_step<W: Word>(wake: &mut Wake, program: &Program, step: usize, values: &mut Words<W>)
    requires steps { All (IsStepWithin (length values.old)) program.now }
    requires sized { HaveBits W.bits program.now }
    requires step { step < length program.now }
    requires wake { IsWake (length values.old) wake.old }
    ensures evaluated { IsEvaluated program.now step values.old values.new }
    ensures follows { Follows wake.old wake.new values.old values.new }
    ensures wake { IsWake (length values.old) wake.new }
    ensures long { length values.new ≡ length values.old }
{
    if let Some(net) = program.evaluate_step(step, values) {
        wake.note(net);
    }
}

// Takes the value of a register's pin over, and notes the register where it had another one.
fn take_latch<W: Word>(
    changed: &mut Log,
    latch: &Latch,
    values: &Words<W>,
    registers: &mut Words<W>,
)
    requires pin { latch.now.pin < length values.now }
    requires net { latch.now.net < length registers.old }
    ensures taken { registers.new ≡ set registers.old latch.now.net (at values.now latch.now.pin) }
    ensures noted { (p : ℕ) → Lacks changed.new p → Lacks changed.old p × (at registers.new p ≡ at registers.old p) }
    ensures listed { (changed.new.places.items ≡ changed.old.places.items) ⊎ (changed.new.places.items ≡ changed.old.places.items ++ latch.now.net ∷ []) }
    ensures held { length registers.new ≡ length registers.old }
{
    let net = latch.net as usize;
    let value = values.get(latch.pin as usize);
    if registers.get(net).is(value) {
        return;
    }
    registers.set(net, value);
    changed.note(latch.net);
}

impl Active {
    // What is to be known of a machine of so many places, before its first cycle.
    pub fn new(alloc: Global, machine: &Machine, count: usize) -> Result<Active, NoMemory>
        requires steps { All (IsStepWithin count) machine.now.program }
        requires latches { All (IsLatchWithin count) machine.now.latches.items }
        requires few { length machine.now.program + length machine.now.latches.items < 2 ^ 32 }
        ensures fresh { IfOk result (λ active. IsFalse active.settled) }
        ensures awake { IfOk result (λ active. IsAwake count machine.now.program machine.now.latches.items active) }
    {
        let program = &machine.program;
        let items = program.len() + machine.latches.len();
        let room = items / PART + LEAST;
        let readers = readers_of(alloc, count, program, &machine.latches)?;
        let marks = Marks::new(alloc, items / 64 + 1)?;
        let touched = Log::new(alloc, room)?;
        let changed = Log::new(alloc, room)?;
        Ok(Active {
            wake: Wake {
                readers,
                marks,
                touched,
            },
            changed,
            settled: false,
            wait: 0,
            pause: 1,
        })
    }

    // How a cycle is run, where the values rest or not.
    pub fn course(&self, rests: bool) -> Course
        ensures rest { IsTrue (is_rest result) → IsTrue rests }
        ensures few { IsTrue (is_few result) → IsTrue self.now.settled }
    {
        if rests {
            Course::Rest
        } else if self.settled && self.wait == 0 {
            Course::Few
        } else {
            Course::All
        }
    }

    // Forgets what it knows of the values, as after a reset.
    pub fn reset(&mut self)
        ensures fresh { IsFalse self.new.settled }
        ensures awake { KeepsAwake self.old self.new }
    {
        self.wake.touched.spoil();
        self.changed.spoil();
        self.settled = false;
        self.wait = 0;
        self.pause = 1;
    }

    // After a cycle that evaluated all steps.
    fn settle(&mut self)
        ensures touched { IsTrue self.new.wake.touched.full }
        ensures awake { KeepsAwake self.old self.new }
        ensures settled { IsReadyToSettle self.new }
    {
        self.wake.touched.spoil();
        self.changed.spoil();
        self.settled = true;
        self.wait = self.wait.saturating_sub(1);
    }

    // Runs a cycle. The answer says whether the values stand still after it.
    pub fn cycle<W: Word>(
        &mut self,
        machine: &Machine,
        course: Course,
        inputs: &[Pulse],
        outputs: &mut [Pulse],
        registers: &mut Words<W>,
        values: &mut Words<W>,
    ) -> bool
        requires ready { IsRunnable (length values.old) (plan_of machine.now) }
        requires same { length registers.old ≡ length values.old }
        requires inputs { length inputs.now ≡ length machine.now.inputs.items }
        requires outputs { length outputs.old ≡ length machine.now.outputs.items }
        requires numbers { All (λ p. p.value < 2 ^ W.bits) inputs.now }
        requires sized { HaveBits W.bits machine.now.program }
        requires still { IsTrue (is_rest course) → IsStill (plan_of machine.now) registers.old values.old }
        requires given { IsTrue (is_rest course) → GivesAll machine.now.inputs.items inputs.now values.old }
        requires few { IsTrue (is_few course) → IsTrue self.old.settled }
        requires awake { IsAwake (length values.old) machine.now.program machine.now.latches.items self.old }
        requires settled { IsFalse (is_all course) → HasSettled machine.now.program machine.now.latches.items self.old values.old registers.old }
        ensures run { RunsThrough (plan_of machine.now) inputs.now registers.old values.new outputs.new registers.new }
        ensures still { IsTrue result → IsStill (plan_of machine.now) registers.new values.new }
        ensures rest { IsTrue (is_rest course) → (self.new ≡ self.old) × (values.new ≡ values.old) }
        ensures few { IsTrue (is_few course) → (p : ℕ) → Lacks self.new.wake.touched p → at values.new p ≡ at values.old p }
        ensures all { IsTrue (is_all course) → IsTrue self.new.wake.touched.full }
        ensures awake { IsAwake (length values.old) machine.now.program machine.now.latches.items self.new }
        ensures settled { HasSettled machine.now.program machine.now.latches.items self.new values.new registers.new }
        ensures long { length values.new ≡ length values.old }
        ensures held { length registers.new ≡ length registers.old }
    {
        match course {
            Course::Rest => machine.run(inputs, outputs, registers, values, true),
            Course::Few => self.run(machine, inputs, outputs, registers, values),
            Course::All => {
                let stands = machine.run(inputs, outputs, registers, values, false);
                self.settle();
                stands
            }
        }
    }

    // Evaluates an item: a step into the values, or a latch into the registers.
    fn follow<W: Word>(
        &mut self,
        machine: &Machine,
        item: usize,
        values: &mut Words<W>,
        registers: &mut Words<W>,
    )
        requires ready { IsRunnable (length values.old) (plan_of machine.now) }
        requires sized { HaveBits W.bits machine.now.program }
        requires same { length registers.old ≡ length values.old }
        requires wake { IsWake (length values.old) self.old.wake }
        requires reading { ReadAll machine.now.program machine.now.latches.items self.old.wake.readers }
        requires stand { StandBut machine.now.program machine.now.latches.items self.old.wake.marks.words.items values.old registers.old item }
        ensures wake { IsWake (length values.old) self.new.wake }
        ensures reading { ReadAll machine.now.program machine.now.latches.items self.new.wake.readers }
        ensures stand { Stand machine.now.program machine.now.latches.items self.new.wake.marks.words.items values.new registers.new }
        ensures swept { SweepsOn machine.now.program machine.now.latches.items self.old values.old registers.old self.new values.new registers.new }
        ensures long { length values.new ≡ length values.old }
        ensures held { length registers.new ≡ length registers.old }
    {
        let steps = machine.program.len();
        if item < steps {
            show_step(&mut self.wake, &machine.program, item, values);
        } else if item - steps < machine.latches.len() {
            take_latch(
                &mut self.changed,
                &machine.latches[item - steps],
                values,
                registers,
            );
        }
    }
    // Evaluates what is marked, and what hangs on it, until nothing is left. Answers whether it came to an end: it gives up where
    // that is more than so many items.
    fn sweep<W: Word>(
        &mut self,
        machine: &Machine,
        most: usize,
        values: &mut Words<W>,
        registers: &mut Words<W>,
    ) -> bool
        requires ready { IsRunnable (length values.old) (plan_of machine.now) }
        requires sized { HaveBits W.bits machine.now.program }
        requires same { length registers.old ≡ length values.old }
        requires wake { IsWake (length values.old) self.old.wake }
        requires reading { ReadAll machine.now.program machine.now.latches.items self.old.wake.readers }
        requires stand { Stand machine.now.program machine.now.latches.items self.old.wake.marks.words.items values.old registers.old }
        ensures wake { IsWake (length values.old) self.new.wake }
        ensures reading { ReadAll machine.now.program machine.now.latches.items self.new.wake.readers }
        ensures unmarked { IsTrue result → AreUnmarked self.new.wake.marks.words.items }
        ensures shown { IsTrue result → AreShown machine.now.program values.new }
        ensures taken { IsTrue result → AreTaken machine.now.latches.items values.new registers.new }
        ensures swept { SweepsOn machine.now.program machine.now.latches.items self.old values.old registers.old self.new values.new registers.new }
        ensures long { length values.new ≡ length values.old }
        ensures held { length registers.new ≡ length registers.old }
    {
        let mut word = 0;
        for _ in 0..most {
            match self.wake.marks.marked_word(word) {
                None => return true,
                Some(next) => {
                    word = next;
                    let item = self.wake.marks.take(next);
                    self.follow(machine, item, values, registers);
                }
            }
        }
        false
    }
    // Gives the values what the inputs and the registers have, and marks what reads those that changed.
    fn begin<W: Word>(
        &mut self,
        machine: &Machine,
        inputs: &[Pulse],
        registers: &Words<W>,
        values: &mut Words<W>,
    )
        requires ready { IsRunnable (length values.old) (plan_of machine.now) }
        requires same { length registers.now ≡ length values.old }
        requires inputs { length inputs.now ≡ length machine.now.inputs.items }
        requires numbers { All (λ p. p.value < 2 ^ W.bits) inputs.now }
        requires awake { IsAwake (length values.old) machine.now.program machine.now.latches.items self.old }
        requires settled { IsSettled machine.now.program machine.now.latches.items self.old values.old registers.now }
        ensures wake { IsWake (length values.old) self.new.wake }
        ensures reading { ReadAll machine.now.program machine.now.latches.items self.new.wake.readers }
        ensures stand { Stand machine.now.program machine.now.latches.items self.new.wake.marks.words.items values.new registers.now }
        ensures begun { HasBegun (plan_of machine.now) inputs.now registers.now values.new }
        ensures swept { HasSwept machine.now.program machine.now.latches.items values.old values.new registers.now self.new values.new registers.now }
        ensures long { length values.new ≡ length values.old }
    {
        self.wake.touched.clear();
        self.wake.give(&machine.inputs, inputs, values);
        self.wake
            .load(&self.changed, &machine.latches, registers, values);
        self.changed.clear();
    }
    // Runs a cycle, where the values are those of the one before, and evaluates few cells if few change. The answer says whether
    // the values stand still after it.
    pub fn run<W: Word>(
        &mut self,
        machine: &Machine,
        inputs: &[Pulse],
        outputs: &mut [Pulse],
        registers: &mut Words<W>,
        values: &mut Words<W>,
    ) -> bool
        requires ready { IsRunnable (length values.old) (plan_of machine.now) }
        requires same { length registers.old ≡ length values.old }
        requires inputs { length inputs.now ≡ length machine.now.inputs.items }
        requires outputs { length outputs.old ≡ length machine.now.outputs.items }
        requires numbers { All (λ p. p.value < 2 ^ W.bits) inputs.now }
        requires sized { HaveBits W.bits machine.now.program }
        requires awake { IsAwake (length values.old) machine.now.program machine.now.latches.items self.old }
        requires settled { IsSettled machine.now.program machine.now.latches.items self.old values.old registers.old }
        ensures run { RunsThrough (plan_of machine.now) inputs.now registers.old values.new outputs.new registers.new }
        ensures still { IsTrue result → IsStill (plan_of machine.now) registers.new values.new }
        ensures awake { IsAwake (length values.old) machine.now.program machine.now.latches.items self.new }
        ensures settled { IsSettled machine.now.program machine.now.latches.items self.new values.new registers.new }
        ensures noted { (p : ℕ) → Lacks self.new.wake.touched p → at values.new p ≡ at values.old p }
        ensures long { length values.new ≡ length values.old }
        ensures held { length registers.new ≡ length registers.old }
    {
        self.begin(machine, inputs, registers, values);
        let most = machine.program.len() / PART + LEAST;
        if self.sweep(machine, most, values, registers) {
            self.pause = 1;
            show(&machine.outputs, values, outputs);
            return self.changed.is_empty();
        }
        self.give_up();
        machine.program.evaluate(values);
        show(&machine.outputs, values, outputs);
        latch(&machine.latches, values, registers);
        false
    }

    // Gives up, where too many items were marked: no more is known of them. Each time twice as many cycles pass until it is tried
    // again.
    fn give_up(&mut self)
        ensures readers { self.new.wake.readers ≡ self.old.wake.readers }
        ensures each { length self.new.wake.marks.words.items ≡ length self.old.wake.marks.words.items }
        ensures unmarked { AreUnmarked self.new.wake.marks.words.items }
        ensures touched { IsTrue self.new.wake.touched.full }
        ensures no_touched { self.new.wake.touched.places.items ≡ [] }
        ensures changed { IsTrue self.new.changed.full }
        ensures no_changed { self.new.changed.places.items ≡ [] }
        ensures settled { self.new.settled ≡ self.old.settled }
    {
        self.wake.marks.clear();
        self.wake.touched.spoil();
        self.changed.spoil();
        self.wait = self.pause;
        if self.pause < LONGEST {
            self.pause *= 2;
        }
    }
}
