// Steps in runs: one behind another, all of one kind, so that a loop for that kind goes through them.
ghost use Rattle.std.specs.Prelude.{◌≡◌, ℕ, ◌+◌, ◌<◌, ◌≤◌, ◌^◌, List, ◌∷◌, [], ◌++◌, All, IfOk, IsFalse, IsTrue, OnOk, length, map};
ghost use Rattle.std.specs.List.{flat_map};
ghost use Rattle.gos_netlist.specs.Seen.{cell_of, function_of, number_of};
ghost use Rattle.gos_netlist.specs.Settling.{Numbers, at};
ghost use Rattle.gos_sim.specs.inner.Program.{HaveBits, HaveOneCell, IsStepWithin, SparesEarlier, is_source, steps_at, steps_named};
ghost use Rattle.gos_sim.specs.inner.Ready.{AreCellsReady};
ghost use Rattle.gos_sim.specs.inner.Drafts.{AddsSteps, AreCounted, AreUpTo, IsDraft, IsDraftOf};
ghost use Rattle.gos_sim.specs.inner.Places.{AreStepsMoved, none};
ghost use Rattle.gos_sim.specs.inner.Running.{AreShown, KeepsOtherSteps};
ghost use Rattle.gos_sim.specs.inner.Spots.{HasGate, IsEvaluated, IsGate, IsNumbered, IsSpot, Tells};
ghost use Rattle.gos_sim.specs.inner.Evaluation.{AreLonger, AreRunsMore, Fits, GoesOn, HasOperand, IsAdded, after, part, run_of, steps_from, steps_of};

use crate::operations::{
    Add, And, Constant, Equal, Less, Mux, Not, Operation, Or, Pair, Pass, Sub, Triple, Xor,
};
use crate::places::step_moved;
use crate::program::Step;
use crate::spots::{Spot, Spots, alone, spots_of};
use crate::word::Word;
use crate::words::Words;
use gos_netlist::{Cell, Gate, NetId};
use gos_types::NoMemory;
use std::alloc::Global;
use std::marker::Model;

/// What the steps of a run do, by the names of their gates.
#[derive(Clone, Copy, PartialEq, Eq)]
pub enum Kind {
    Const,
    Not,
    And,
    Or,
    Xor,
    Mux,
    Add,
    Sub,
    Eq,
    Less,
    Gate,
}

/// Steps of one kind, whose nets stand one behind another, and so do their operands.
#[derive(Clone, Copy)]
pub struct Run {
    /// What they do.
    pub kind: Kind,
    /// Their bits; 0 where these don't matter.
    pub width: u32,
    /// The net of the first one.
    pub net: u32,
    /// Where the operand of the first one stands, among those of its kind.
    pub first: u32,
    /// How many there are.
    pub count: u32,
}

/// The operands of all steps: constants, and the nets that they read, of steps with one pin, two and three.
#[derive(Drop)]
pub struct Operands {
    /// The constants.
    pub constants: Vec<u64>,
    /// The pins of those with one.
    pub pins: Vec<NetId>,
    /// The pins of those with two.
    pub pairs: Vec<Pair>,
    /// The pins of those with three.
    pub triples: Vec<Triple>,
}

/// Steps in runs. Clauses see them as the steps.
#[derive(Drop)]
pub struct Program {
    operands: Operands,
    runs: Vec<Run>,
    spots: Vec<Spot>,
    count: u32,
}

impl Model for Program {
    ghost use Rattle.std.specs.Coded.{codes};
    ghost use Rattle.std.specs.Prelude.{List};
    ghost use Rattle.gos_netlist.specs.contracts.nets.Gate as a_gate;
    ghost use Rattle.gos_sim.specs.declared.program.Step.{Step};

    ghost Value = { List Step };

    ghost coded = { Prim.hlevel (codes, a_gate.the_row.coded) };

    ghost use Rattle.std.specs.List.{flat_map};
    ghost use Rattle.gos_sim.specs.inner.Evaluation.{steps_of};
    ghost use Rattle.gos_sim.specs.inner.Spots.{IsIndexed};

    ghost view = { λ p. flat_map (steps_of p.operands) p.runs.items };

    ghost invariant = { λ p. IsIndexed p.operands p.runs.items p.spots.items p.count };
}

impl Program {
    // Evaluates the steps, in their order.
    pub fn evaluate<W: Word>(&self, values: &mut Words<W>)
        requires steps { All (IsStepWithin (length values.old)) self.now }
        requires sized { HaveBits W.bits self.now }
        requires order { SparesEarlier self.now }
        requires one { HaveOneCell self.now }
        ensures shown { AreShown self.now values.new }
        ensures others { KeepsOtherSteps self.now values.old values.new }
        ensures long { length values.new ≡ length values.old }
    {
        evaluate_words(&self.runs, &self.operands, values);
    }

    // How many steps there are.
    pub fn len(&self) -> usize
        ensures { result ≡ length self.now }
    {
        self.count as usize
    }

    // What a step is.
    pub fn gate(&self, step: usize) -> Gate
        requires { step < length self.now }
        ensures { IsGate self.now step result }
    {
        gate_alone(&self.runs, &self.spots, &self.operands, step)
    }

    // Evaluates a step by itself. The answer is its net, if its value has changed.
    pub fn evaluate_step<W: Word>(&self, step: usize, values: &mut Words<W>) -> Option<u32>
        requires steps { All (IsStepWithin (length values.old)) self.now }
        requires sized { HaveBits W.bits self.now }
        requires step { step < length self.now }
        ensures evaluated { IsEvaluated self.now step values.old values.new }
        ensures told { Tells result values.old values.new }
        ensures long { length values.new ≡ length values.old }
    {
        evaluate_alone(
            &self.runs,
            &self.spots,
            &self.operands,
            step,
            &mut values.items,
        )
    }
}

// What a step of runs is.
fn gate_alone(runs: &[Run], spots: &[Spot], operands: &Operands, step: usize) -> Gate
    requires fit { All (Fits operands.now) runs.now }
    requires spots { All (IsSpot runs.now) spots.now }
    requires numbered { All IsNumbered runs.now }
    requires step { step < length (flat_map (steps_of operands.now) runs.now) }
    ensures { IsGate (flat_map (steps_of operands.now) runs.now) step result }
{
    let one = alone(runs, spots, step);
    gate_of_run(&one, operands)
}

// What the step of a run of one step is.
fn gate_of_run(run: &Run, operands: &Operands) -> Gate
    requires fits { Fits operands.now run.now }
    requires one { run.now.count ≡ 1 }
    ensures { HasGate (steps_of operands.now run.now) result }
{
    let width = run.width;
    match run.kind {
        Kind::Const => first_gate(&Constant, part(run, &operands.constants)),
        Kind::Not => first_gate(&Not { width }, part(run, &operands.pins)),
        Kind::And => first_gate(&And, part(run, &operands.pairs)),
        Kind::Or => first_gate(&Or, part(run, &operands.pairs)),
        Kind::Xor => first_gate(&Xor, part(run, &operands.pairs)),
        Kind::Mux => first_gate(&Mux, part(run, &operands.triples)),
        Kind::Add => first_gate(&Add { width }, part(run, &operands.pairs)),
        Kind::Sub => first_gate(&Sub { width }, part(run, &operands.pairs)),
        Kind::Eq => first_gate(&Equal, part(run, &operands.pairs)),
        Kind::Less => first_gate(&Less, part(run, &operands.pairs)),
        Kind::Gate => first_gate(&Pass, part(run, &operands.pairs)),
    }
}

// What the first of steps is that do the same, with these operands.
fn first_gate<O: Operation>(operation: &O, operands: &[O::Operand]) -> Gate
    requires { 0 < length operands.now }
    ensures { (width net : ℕ) → HasGate (steps_from width (O.gate operation.now) net operands.now) result }
{
    operation.gate_of(&operands[0])
}

// Evaluates a step of runs by itself. The answer is its net, if its value has changed.
fn evaluate_alone<W: Word>(
    runs: &[Run],
    spots: &[Spot],
    operands: &Operands,
    step: usize,
    values: &mut [W],
) -> Option<u32>
    requires fit { All (Fits operands.now) runs.now }
    requires spots { All (IsSpot runs.now) spots.now }
    requires numbered { All IsNumbered runs.now }
    requires steps { All (IsStepWithin (length values.old)) (flat_map (steps_of operands.now) runs.now) }
    requires sized { HaveBits W.bits (flat_map (steps_of operands.now) runs.now) }
    requires step { step < length (flat_map (steps_of operands.now) runs.now) }
    ensures evaluated { IsEvaluated (flat_map (steps_of operands.now) runs.now) step (map W.number values.old) (map W.number values.new) }
    ensures told { Tells result (map W.number values.old) (map W.number values.new) }
{
    let one = alone(runs, spots, step);
    let net = one.net as usize;
    let before = values[net];
    evaluate_run(&one, operands, values);
    if values[net].is(before) {
        None
    } else {
        Some(one.net)
    }
}

// Evaluates the steps of runs, with the values in words.
fn evaluate_words<W: Word>(runs: &[Run], operands: &Operands, values: &mut Words<W>)
    requires fit { All (Fits operands.now) runs.now }
    requires steps { All (IsStepWithin (length values.old)) (flat_map (steps_of operands.now) runs.now) }
    requires sized { HaveBits W.bits (flat_map (steps_of operands.now) runs.now) }
    ensures values { values.new ≡ after (flat_map (steps_of operands.now) runs.now) values.old }
    ensures long { length values.new ≡ length values.old }
{
    evaluate_runs(runs, operands, &mut values.items);
}

// Evaluates the steps of runs.
fn evaluate_runs<W: Word>(runs: &[Run], operands: &Operands, values: &mut [W])
    requires fit { All (Fits operands.now) runs.now }
    requires steps { All (IsStepWithin (length values.old)) (flat_map (steps_of operands.now) runs.now) }
    requires sized { HaveBits W.bits (flat_map (steps_of operands.now) runs.now) }
    ensures { map W.number values.new ≡ after (flat_map (steps_of operands.now) runs.now) (map W.number values.old) }
{
    for run in runs {
        evaluate_run(run, operands, values);
    }
}

// Evaluates the steps of a run. Most runs are short, and a call for each would take a fifth of the time.
#[inline(always)]
fn evaluate_run<W: Word>(run: &Run, operands: &Operands, values: &mut [W])
    requires fits { Fits operands.now run.now }
    requires steps { All (IsStepWithin (length values.old)) (steps_of operands.now run.now) }
    requires sized { HaveBits W.bits (steps_of operands.now run.now) }
    ensures { map W.number values.new ≡ after (steps_of operands.now run.now) (map W.number values.old) }
{
    let net = run.net;
    let width = run.width;
    match run.kind {
        Kind::Const => evaluate_part(&Constant, net, part(run, &operands.constants), values),
        Kind::Not => evaluate_part(&Not { width }, net, part(run, &operands.pins), values),
        Kind::And => evaluate_part(&And, net, part(run, &operands.pairs), values),
        Kind::Or => evaluate_part(&Or, net, part(run, &operands.pairs), values),
        Kind::Xor => evaluate_part(&Xor, net, part(run, &operands.pairs), values),
        Kind::Mux => evaluate_part(&Mux, net, part(run, &operands.triples), values),
        Kind::Add => evaluate_part(&Add { width }, net, part(run, &operands.pairs), values),
        Kind::Sub => evaluate_part(&Sub { width }, net, part(run, &operands.pairs), values),
        Kind::Eq => evaluate_part(&Equal, net, part(run, &operands.pairs), values),
        Kind::Less => evaluate_part(&Less, net, part(run, &operands.pairs), values),
        Kind::Gate => evaluate_part(&Pass, net, part(run, &operands.pairs), values),
    }
}

// Those of the operands that are a run's.
fn part<'a, T>(run: &Run, operands: &'a [T]) -> &'a [T]
    requires { run.now.first + run.now.count ≤ length operands.now }
    ensures part { result.now ≡ part run.now operands.now }
    ensures each { length result.now ≡ run.now.count }
{
    let first = run.first as usize;
    &operands[first..first + run.count as usize]
}

// Evaluates steps that do the same, with these operands and at nets from this one on.
fn evaluate_part<O: Operation, W: Word>(
    operation: &O,
    net: u32,
    operands: &[O::Operand],
    values: &mut [W],
)
    requires steps { All (IsStepWithin (length values.old)) (steps_from (O.width operation.now) (O.gate operation.now) net operands.now) }
    requires sized { HaveBits W.bits (steps_from (O.width operation.now) (O.gate operation.now) net operands.now) }
    ensures { map W.number values.new ≡ after (steps_from (O.width operation.now) (O.gate operation.now) net operands.now) (map W.number values.old) }
{
    let mut place = net as usize;
    for operand in operands {
        let value = operation.value(operand, values);
        values[place] = value;
        place += 1;
    }
}

// The steps among nets, at the places of these, in runs.
pub fn steps_moved(
    alloc: Global,
    cells: &[Cell],
    nets: &[NetId],
    places: &[u32],
) -> Result<Program, NoMemory>
    requires cells { AreCellsReady (map cell_of cells.now) }
    requires nets { All (λ n. n.0 < length cells.now) nets.now }
    requires places { length places.now ≡ length cells.now }
    requires few { length nets.now < 2 ^ 32 }
    requires below { All (λ p. p < none) places.now }
    ensures { IfOk result (λ there. AreStepsMoved (at places.now) (steps_named cells.now (map number_of nets.now)) there) }
{
    let mut draft = no_steps(alloc);
    for net in nets {
        draft.add(net.0, cells[net.0 as usize], places)?;
    }
    let Draft {
        operands,
        mut runs,
        last,
    } = draft;
    runs.push(last)?;
    let found = spots_of(alloc, &runs)?;
    let Spots { all, count } = found;
    Ok(Program {
        operands,
        runs,
        spots: all,
        count,
    })
}

/// Runs to which steps are added.
#[derive(Drop)]
pub struct Draft {
    /// The operands of the steps.
    pub operands: Operands,
    /// The runs but for the last.
    pub runs: Vec<Run>,
    /// The last run.
    pub last: Run,
}

// No steps.
fn no_steps(alloc: Global) -> Draft
    ensures draft { (places : Numbers) → IsDraft places [] result }
    ensures room { IsDraftOf 0 result }
{
    Draft {
        operands: no_operands(alloc),
        runs: Vec::new(alloc),
        last: no_run(),
    }
}

impl Draft {
    // Adds a cell at its place, if it is a step.
    fn add(&mut self, net: u32, cell: Cell, places: &[u32]) -> Result<(), NoMemory>
        requires step { All (IsStepWithin (length places.now)) (steps_at net cell) }
        requires below { All (λ p. p < none) places.now }
        requires room { AreUpTo 4294967294 self.old.operands }
        ensures steps { OnOk result (AddsSteps places.now (steps_at net cell) self.old self.new) }
        ensures room { OnOk result ((many : ℕ) → many < none → IsDraftOf many self.old → IsDraftOf (many + 1) self.new) }
    {
        let Cell { width, gate } = cell;
        match gate {
            Gate::Input | Gate::Reg(_) => Ok(()),
            _ => {
                let step = step_moved(&Step { net, width, gate }, places);
                let next = self.operands.add(step)?;
                add_run(&mut self.runs, &mut self.last, next)?;
                Ok(())
            }
        }
    }
}

// A run of no steps.
fn no_run() -> Run
    ensures count { result.count ≡ 0 }
    ensures first { result.first ≡ 0 }
    ensures numbered { IsNumbered result }
{
    Run {
        kind: Kind::Const,
        width: 0,
        net: 0,
        first: 0,
        count: 0,
    }
}

// No operands.
fn no_operands(alloc: Global) -> Operands
    ensures { AreUpTo 0 result }
{
    Operands {
        constants: Vec::new(alloc),
        pins: Vec::new(alloc),
        pairs: Vec::new(alloc),
        triples: Vec::new(alloc),
    }
}

// Adds a run behind the last one, or makes that longer where it goes on as the last one does.
fn add_run(runs: &mut Vec<Run>, last: &mut Run, next: Run) -> Result<(), NoMemory>
    requires { next.count ≡ 1 }
    ensures more { OnOk result (AreRunsMore runs.old.items last.old next runs.new.items last.new) }
    ensures counted { OnOk result ((many : ℕ) → IsNumbered next → AreCounted many runs.old.items last.old → AreCounted (many + 1) runs.new.items last.new) }
{
    if last.goes_on(&next) {
        last.count += 1;
    } else {
        runs.push(*last)?;
        *last = next;
    }
    Ok(())
}

impl Run {
    // Whether a run goes on as this one ends. One of as many steps as 32 bits can number doesn't.
    fn goes_on(&self, next: &Run) -> bool
        ensures { IsTrue result → GoesOn self.now next.now }
    {
        self.kind == next.kind
            && self.width == next.width
            && self.count < u32::MAX
            && u64::from(self.net) + u64::from(self.count) == u64::from(next.net)
            && u64::from(self.first) + u64::from(self.count) == u64::from(next.first)
    }
}

impl Operands {
    // Adds the operand of a step, and gives the run of that step alone.
    fn add(&mut self, step: Step) -> Result<Run, NoMemory>
        requires inside { IsFalse (is_source (function_of step.gate)) }
        requires room { AreUpTo 4294967294 self.old }
        ensures { IfOk result (IsAdded self.old self.new step) }
    {
        let (net, width) = (step.net, step.width);
        match step.gate {
            Gate::Input | Gate::Reg(_) => unreachable!(),
            Gate::Const(k) => self.add_constant(net, k),
            Gate::Not(a) => self.add_pin(net, width, a),
            Gate::And(a, b) => self.add_pair(Kind::And, net, 0, Pair { a, b }),
            Gate::Or(a, b) => self.add_pair(Kind::Or, net, 0, Pair { a, b }),
            Gate::Xor(a, b) => self.add_pair(Kind::Xor, net, 0, Pair { a, b }),
            Gate::Mux(s, a, b) => self.add_triple(net, Triple { s, a, b }),
            Gate::Add(a, b) => self.add_pair(Kind::Add, net, width, Pair { a, b }),
            Gate::Sub(a, b) => self.add_pair(Kind::Sub, net, width, Pair { a, b }),
            Gate::Eq(a, b) => self.add_pair(Kind::Eq, net, 0, Pair { a, b }),
            Gate::Less(a, b) => self.add_pair(Kind::Less, net, 0, Pair { a, b }),
            Gate::Gate(a, b) => self.add_pair(Kind::Gate, net, 0, Pair { a, b }),
        }
    }

    // Adds a constant.
    fn add_constant(&mut self, net: u32, constant: u64) -> Result<Run, NoMemory>
        requires room { AreUpTo 4294967294 self.old }
        ensures { IfOk result (λ r. AreLonger self.old self.new × HasOperand Kind.Const net 0 constant self.old.constants.items self.new.constants.items r) }
    {
        let first = added(&mut self.constants, constant)?;
        Ok(run_of(Kind::Const, net, 0, first))
    }

    // Adds the pin of a step that has one.
    fn add_pin(&mut self, net: u32, width: u32, pin: NetId) -> Result<Run, NoMemory>
        requires room { AreUpTo 4294967294 self.old }
        ensures { IfOk result (λ r. AreLonger self.old self.new × HasOperand Kind.Not net width pin self.old.pins.items self.new.pins.items r) }
    {
        let first = added(&mut self.pins, pin)?;
        Ok(run_of(Kind::Not, net, width, first))
    }

    // Adds the pins of a step of some kind that has two.
    fn add_pair(&mut self, kind: Kind, net: u32, width: u32, pair: Pair) -> Result<Run, NoMemory>
        requires room { AreUpTo 4294967294 self.old }
        ensures { IfOk result (λ r. AreLonger self.old self.new × HasOperand kind net width pair self.old.pairs.items self.new.pairs.items r) }
    {
        let first = added(&mut self.pairs, pair)?;
        Ok(run_of(kind, net, width, first))
    }

    // Adds the pins of a step that has three.
    fn add_triple(&mut self, net: u32, triple: Triple) -> Result<Run, NoMemory>
        requires room { AreUpTo 4294967294 self.old }
        ensures { IfOk result (λ r. AreLonger self.old self.new × HasOperand Kind.Mux net 0 triple self.old.triples.items self.new.triples.items r) }
    {
        let first = added(&mut self.triples, triple)?;
        Ok(run_of(Kind::Mux, net, 0, first))
    }
}

// The run of one step.
fn run_of(kind: Kind, net: u32, width: u32, first: u32) -> Run
    ensures { result ≡ run_of kind net width first }
{
    Run {
        kind,
        width,
        net,
        first,
        count: 1,
    }
}

// Adds an operand, and gives its place.
fn added<T: Drop>(operands: &mut Vec<T>, operand: T) -> Result<u32, NoMemory>
    requires room { length operands.old.items < 2 ^ 32 }
    ensures place { IfOk result (λ place. place ≡ length operands.old.items) }
    ensures added { OnOk result (operands.new.items ≡ operands.old.items ++ operand ∷ []) }
{
    let place = operands.len() as u32;
    operands.push(operand)?;
    Ok(place)
}
