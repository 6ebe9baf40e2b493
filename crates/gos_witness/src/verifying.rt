// Lines are made again, one after another.
ghost use Rattle.std.specs.Prelude.{◌≡◌, ◌≢◌, ◌<◌, ◌↔◌, [], IfOk, IfErr, IfSome, IsTrue, MatchOption, None, Some, ℕ, length, slice_get, suc};
ghost use Rattle.gos_witness.specs.NodeLists.{seen};
ghost use Rattle.gos_witness.specs.Lines.{Explains, IsIdle};
ghost use Rattle.gos_witness.specs.Ports.{AreOfPorts, labels_of};
ghost use Rattle.gos_witness.specs.Programs.{program_of};
ghost use Rattle.gos_witness.specs.Sizes.{size_of};
ghost use Rattle.gos_witness.specs.Verify.{IsFaultOf};
ghost use Rattle.gos_witness.specs.inner.Keeping.{Keeps};
ghost use Rattle.gos_witness.specs.inner.Stages.{HasValue, IsMade, IsPassed, IsStage, config_of};

use crate::changing::{show_at, step_at, unfold_at};
use crate::compacting::{compacted, next_limit};
use crate::fault::ExplainFault;
use crate::labels::Label;
use crate::moves::{Line, Path};
use crate::nodes::{MOST_NODES, NodeList};
use crate::program::Program;
use crate::reading_nodes::{is_skip, number_at};
use crate::store::Entry;
use gos_types::NoMemory;
use std::alloc::Global;

/// The most nodes that a term may have.
pub const LARGEST_TERM: u64 = 1_000_000;

// Where the lines so far lead: nowhere yet, or to a running term with its store; and how many labels they have.
#[derive(Drop)]
pub struct Stage {
    pub list: NodeList,
    pub running: Option<u32>,
    pub store: Vec<Entry>,
    pub matched: usize,
    // With so many nodes the list is compacted.
    pub limit: usize,
}

/// Whether the lines explain the labels: they can all be made, the last is no unfolding, they have just these labels, and no term on
/// the way has more than 1,000,000 nodes. The labels are of the program's ports.
///
/// `Err` has the first line that can't be made, or the first term that is too large, or how many labels the lines have where some are
/// left; or it is want of memory.
pub fn verify(
    alloc: Global,
    program: &Program,
    labels: &[Label],
    lines: &[Line],
) -> Result<(), ExplainFault>
    requires { AreOfPorts program.now.ports labels.now }
    ensures explained { IfOk result (λ _. Explains (program_of program.now) (labels_of program.now.ports labels.now) lines.now) }
    ensures fault { IfErr result (λ fault. fault ≢ ExplainFault.NoMemory
        → IsFaultOf (program_of program.now) (labels_of program.now.ports labels.now) lines.now fault) }
{
    let list = program.list(alloc)?;
    let limit = next_limit(&list);
    let mut stage = Stage {
        list,
        running: None,
        store: Vec::new(alloc),
        matched: 0,
        limit,
    };
    for number in 0..lines.len() {
        stage.pass(alloc, program, labels, lines, number)?;
    }
    if stage.matched < labels.len() {
        return Err(ExplainFault::Labels {
            matched: stage.matched as u64,
        });
    }
    Ok(())
}

// A line by its number.
fn line_at(lines: &[Line], number: usize) -> &Line
    requires { number < length lines.now }
    ensures { slice_get lines.now number ≡ Some result.now }
{
    &lines[number]
}

// Whether a line is the last one and an unfolding.
fn is_idle(line: &Line, is_last: bool) -> bool
    ensures { IsTrue result ↔ (IsTrue is_last × IsIdle line.now []) }
{
    match line {
        Line::Unfold(_) => is_last,
        Line::Step(_) | Line::Label(_) | Line::Root => false,
    }
}

// Whether a label is this one of the root's port.
fn is_given(label: Label, place: u32, value: u64) -> bool
    ensures { IsTrue result ↔ ((label.port ≡ 0) × (label.place ≡ place) × (label.value ≡ value)) }
{
    label.port == 0 && label.place == place && label.value == value
}

// The number with which a node answers, if it is a value: 0 for `skip`.
fn value_of(list: &NodeList, node: u32) -> Option<u64>
    requires { node < length list.now.nodes }
    ensures { MatchOption result ((k : ℕ) → HasValue (seen list.now node) k → ⊥) (HasValue (seen list.now node)) }
{
    if is_skip(list, node) {
        return Some(0);
    }
    let number = number_at(list, node)?;
    Some(number.value)
}

impl Stage {
    // How many nodes the running term has, if there is one. No memory holds those of which the count ends.
    pub fn size(&self) -> Result<u64, NoMemory>
        requires { IfSome self.now.running (λ i. i < length self.now.list.nodes) }
        ensures { IfOk result (λ nodes. nodes ≡ size_of (config_of self.now.list self.now.running self.now.store.items)) }
    {
        let Some(node) = self.running else {
            return Ok(0);
        };
        let size = self.list.node(node).size;
        if size < MOST_NODES {
            Ok(size)
        } else {
            Err(NoMemory)
        }
    }

    // Passes a line: it is made, and leads to no term that is too large.
    fn pass(
        &mut self,
        alloc: Global,
        program: &Program,
        labels: &[Label],
        lines: &[Line],
        number: usize,
    ) -> Result<(), ExplainFault>
        requires number { number < length lines.now }
        requires labels { AreOfPorts program.now.ports labels.now }
        requires passed { IsPassed program.now labels.now lines.now number self.old }
        ensures passed { IfOk result (λ _. IsPassed program.now labels.now lines.now (suc number) self.new) }
        ensures fault { IfErr result (λ fault. fault ≢ ExplainFault.NoMemory
            → IsFaultOf (program_of program.now) (labels_of program.now.ports labels.now) lines.now fault) }
    {
        let line = line_at(lines, number);
        let wrong = ExplainFault::Wrong {
            line: number as u64,
        };
        let is_last = number + 1 == lines.len();
        if is_idle(line, is_last) {
            return Err(wrong);
        }
        if !self.make(alloc, program, labels, line)? {
            return Err(wrong);
        }
        let nodes = self.size()?;
        if nodes > LARGEST_TERM {
            return Err(ExplainFault::Nodes { nodes });
        }
        self.compact(alloc, program)?;
        Ok(())
    }

    // Drops the nodes that neither the program nor the running term has, once the list has grown to its limit.
    pub fn compact(&mut self, alloc: Global, program: &Program) -> Result<(), NoMemory>
        requires keeps { Keeps program.now.list self.old.list }
        requires running { IfSome self.old.running (λ i. i < length self.old.list.nodes) }
        ensures keeps { IfOk result (λ _. Keeps program.now.list self.new.list) }
        ensures running { IfOk result (λ _. IfSome self.new.running (λ i. i < length self.new.list.nodes)) }
        ensures config { IfOk result (λ _. config_of self.new.list self.new.running self.old.store.items
            ≡ config_of self.old.list self.old.running self.old.store.items) }
        ensures store { self.new.store ≡ self.old.store }
        ensures matched { self.new.matched ≡ self.old.matched }
    {
        if self.list.nodes().len() < self.limit {
            return Ok(());
        }
        let Some(root) = self.running else {
            return Ok(());
        };
        let Some(compacted) = compacted(alloc, &self.list, program.nodes(), root)? else {
            self.limit = next_limit(&self.list);
            return Ok(());
        };
        self.list = compacted.list;
        self.running = Some(compacted.root);
        self.limit = next_limit(&self.list);
        Ok(())
    }

    // Makes a line, if it can be made.
    pub fn make(
        &mut self,
        alloc: Global,
        program: &Program,
        labels: &[Label],
        line: &Line,
    ) -> Result<bool, NoMemory>
        requires labels { AreOfPorts program.now.ports labels.now }
        requires stage { IsStage program.now labels.now self.old }
        ensures { IfOk result (IsMade program.now labels.now line.now self.old self.new) }
    {
        let label = labels.get(self.matched).copied();
        match self.running {
            None => Ok(self.begin(program, labels, label, line)),
            Some(root) => match line {
                Line::Unfold(path) => self.unfold(alloc, program, labels, root, path),
                Line::Step(path) => self.step(alloc, program, labels, root, path),
                Line::Label(path) => self.show(alloc, program, labels, label, root, path),
                Line::Root => Ok(self.answer(program, labels, label, root)),
            },
        }
    }

    // The root's request, at which the program begins to run.
    fn begin(
        &mut self,
        program: &Program,
        labels: &[Label],
        label: Option<Label>,
        line: &Line,
    ) -> bool
        requires stage { IsStage program.now labels.now self.old }
        requires idle { self.old.running ≡ None }
        requires label { label ≡ slice_get labels.now self.old.matched }
        ensures { IsMade program.now labels.now line.now self.old self.new result }
    {
        let Line::Root = line else {
            return false;
        };
        let Some(label) = label else {
            return false;
        };
        if !is_given(label, 0, 0) {
            return false;
        }
        self.running = Some(program.root());
        self.store.clear();
        self.matched += 1;
        true
    }

    // The root's answer, with which the program ends.
    fn answer(
        &mut self,
        program: &Program,
        labels: &[Label],
        label: Option<Label>,
        root: u32,
    ) -> bool
        requires stage { IsStage program.now labels.now self.old }
        requires running { self.old.running ≡ Some root }
        requires label { label ≡ slice_get labels.now self.old.matched }
        ensures { IsMade program.now labels.now Line.Root self.old self.new result }
    {
        let Some(label) = label else {
            return false;
        };
        let Some(value) = value_of(&self.list, root) else {
            return false;
        };
        if !is_given(label, 1, value) {
            return false;
        }
        self.running = None;
        self.matched += 1;
        true
    }

    // An unfolding at a head.
    fn unfold(
        &mut self,
        alloc: Global,
        program: &Program,
        labels: &[Label],
        root: u32,
        path: &Path,
    ) -> Result<bool, NoMemory>
        requires stage { IsStage program.now labels.now self.old }
        requires running { self.old.running ≡ Some root }
        ensures { IfOk result (IsMade program.now labels.now (Line.Unfold path.now) self.old self.new) }
    {
        let next = unfold_at(alloc, &mut self.list, root, path)?;
        if next.is_none() {
            return Ok(false);
        }
        self.running = next;
        Ok(true)
    }

    // A computation step at a reached place.
    fn step(
        &mut self,
        alloc: Global,
        program: &Program,
        labels: &[Label],
        root: u32,
        path: &Path,
    ) -> Result<bool, NoMemory>
        requires stage { IsStage program.now labels.now self.old }
        requires running { self.old.running ≡ Some root }
        ensures { IfOk result (IsMade program.now labels.now (Line.Step path.now) self.old self.new) }
    {
        let next = step_at(alloc, &mut self.list, &mut self.store, root, path)?;
        if next.is_none() {
            return Ok(false);
        }
        self.running = next;
        Ok(true)
    }

    // A label at a reached place.
    fn show(
        &mut self,
        alloc: Global,
        program: &Program,
        labels: &[Label],
        label: Option<Label>,
        root: u32,
        path: &Path,
    ) -> Result<bool, NoMemory>
        requires labels { AreOfPorts program.now.ports labels.now }
        requires stage { IsStage program.now labels.now self.old }
        requires running { self.old.running ≡ Some root }
        requires label { label ≡ slice_get labels.now self.old.matched }
        ensures { IfOk result (IsMade program.now labels.now (Line.Label path.now) self.old self.new) }
    {
        let Some(label) = label else {
            return Ok(false);
        };
        let ports = program.ports();
        let Some(next) = show_at(alloc, &mut self.list, ports, label, root, path)? else {
            return Ok(false);
        };
        self.running = Some(next);
        self.matched += 1;
        Ok(true)
    }
}
