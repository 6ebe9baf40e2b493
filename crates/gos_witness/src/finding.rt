// Lines that explain a trace are found, one after another: each at a place that the next label needs.
ghost use Rattle.std.specs.Prelude.{◌≡◌, ◌<◌, ◌≢◌, ◌≤◌, ◌+◌, ◌⊎◌, List, [], ◌∷◌, IfErr, IfOk, IfSome, IsFalse, MatchOption, Some, drop, length, slice_get};
ghost use Rattle.gos_types.specs.Types.{Type'};
ghost use Rattle.gos_model.specs.Typing.{Typed};
ghost use Rattle.gos_witness.specs.Lines.{Explains, start};
ghost use Rattle.gos_witness.specs.NodeLists.{Listed};
ghost use Rattle.gos_witness.specs.Ports.{AreOfPorts, imports_of, labels_of};
ghost use Rattle.gos_witness.specs.Programs.{program_of};
ghost use Rattle.gos_witness.specs.Find.{IsFaultOfFind, budget};
ghost use Rattle.gos_witness.specs.inner.Keeping.{Keeps};
ghost use Rattle.gos_witness.specs.inner.Stages.{IsStage, config_of, stand_of};
ghost use Rattle.gos_witness.specs.inner.Finds.{IsAdvanced, IsHalt, steps_in};
ghost use Rattle.gos_witness.specs.inner.PortMasks.{AreMasks, IsMarked};
ghost use Rattle.gos_witness.specs.inner.Searches.{IsNextLine, IsSound, NeverComes};

use crate::compacting::next_limit;
use crate::fault::ExplainFault;
use crate::labels::Label;
use crate::masks::Masks;
use crate::moves::Line;
use crate::needed::needed_line;
use crate::program::Program;
use crate::reading_nodes::is_value;
use crate::verifying::{LARGEST_TERM, Stage};
use gos_types::NoMemory;
use std::alloc::Global;

/// So many computation steps a label may take, with those of the labels before it.
const STEPS_FOR_A_LABEL: u64 = 1_000_000;

// Where the lines so far lead, which ports stand in the terms there, and how many of the lines are computation steps.
#[derive(Drop)]
struct Search {
    stage: Stage,
    masks: Masks,
    steps: u64,
}

/// Lines that explain the labels. The labels are of the program's ports, and the program's body has a type, as that of linked modules
/// has, each of which is accepted.
///
/// `Err` has the first label that no list of moves has behind those before it; or the label to which 1,000,000 steps for it and for
/// each label before it don't lead; or the size of a term that is too large; or it is want of memory.
#[tactic(auto, using(crate::proofs::FoundLemmas::found_none, crate::proofs::FoundLemmas::found_all, crate::proofs::FoundLemmas::found_fault))]
pub fn find(alloc: Global, program: &Program, labels: &[Label]) -> Result<Vec<Line>, ExplainFault>
    requires labels { AreOfPorts program.now.ports labels.now }
    requires typed { (ty : Type') × Typed (imports_of program.now.ports) [] (program_of program.now).body ty }
    ensures explained { IfOk result (λ lines. Explains (program_of program.now) (labels_of program.now.ports labels.now) lines.items) }
    ensures fault { IfErr result (λ fault. fault ≢ ExplainFault.NoMemory
        → IsFaultOfFind (program_of program.now) (labels_of program.now.ports labels.now) fault) }
{
    let mut search = Search::new(alloc, program)?;
    let mut lines = Vec::new(alloc);
    // No memory has so many lines.
    for _ in 0..u64::MAX {
        if search.stage.matched >= labels.len() {
            return Ok(lines);
        }
        let line = search.advance(alloc, program, labels)?;
        lines.push(line)?;
    }
    Err(ExplainFault::NoMemory)
}

// How many steps lead to a label at most.
fn budget(label: usize) -> Result<u64, NoMemory>
    ensures { IfOk result (λ steps. steps ≡ budget label) }
{
    let Some(labels) = (label as u64).checked_add(1) else {
        return Err(NoMemory);
    };
    let Some(steps) = labels.checked_mul(STEPS_FOR_A_LABEL) else {
        return Err(NoMemory);
    };
    Ok(steps)
}

impl Search {
    // Before the first line.
    fn new(alloc: Global, program: &Program) -> Result<Search, NoMemory>
        ensures stage { (labels : List Label) → IfOk result (λ search. IsStage program.now labels search.stage) }
        ensures stand { (labels : List Label) → IfOk result (λ search.
            stand_of program.now.ports labels search.stage ≡ start (labels_of program.now.ports labels)) }
        ensures masks { (l : Listed) → IfOk result (λ search. AreMasks program.now.ports l search.masks) }
        ensures steps { IfOk result (λ search. search.steps ≡ 0) }
    {
        let list = program.list(alloc)?;
        let limit = next_limit(&list);
        let masks = Masks::new(alloc, program.ports())?;
        let stage = Stage {
            list,
            running: None,
            store: Vec::new(alloc),
            matched: 0,
            limit,
        };
        Ok(Search {
            stage,
            masks,
            steps: 0,
        })
    }

    // Finds a line and makes it.
    #[tactic(auto, using(crate::proofs::FoundLemmas::advanced, crate::proofs::FoundLemmas::overgrown, crate::proofs::FoundLemmas::halted, crate::proofs::MaskLemmas::masks_kept))]
    fn advance(
        &mut self,
        alloc: Global,
        program: &Program,
        labels: &[Label],
    ) -> Result<Line, ExplainFault>
        requires labels { AreOfPorts program.now.ports labels.now }
        requires stage { IsStage program.now labels.now self.old.stage }
        requires some { self.old.stage.matched < length labels.now }
        requires sound { IsSound (config_of self.old.stage.list self.old.stage.running self.old.stage.store.items) }
        requires masks { AreMasks program.now.ports self.old.stage.list self.old.masks }
        ensures advanced { IfOk result (λ line. IsAdvanced program.now labels.now line self.old.stage self.new.stage) }
        ensures masks { IfOk result (λ _. AreMasks program.now.ports self.new.stage.list self.new.masks) }
        ensures steps { IfOk result (λ line. self.new.steps ≡ steps_in (line ∷ []) + self.old.steps) }
        ensures halt { IfErr result (IsHalt program.now labels.now self.old.stage self.old.steps) }
    {
        let number = self.stage.matched;
        let none = ExplainFault::NotTrace {
            label: number as u64,
        };
        let Some(line) = self.candidate(alloc, program, labels, labels[number])? else {
            return Err(none);
        };
        self.count(number, &line)?;
        if !self.stage.make(alloc, program, labels, &line)? {
            return Err(none);
        }
        let nodes = self.stage.size()?;
        if nodes > LARGEST_TERM {
            return Err(ExplainFault::Nodes { nodes });
        }
        self.compact(alloc, program)?;
        Ok(line)
    }

    // The one line that may lead on, where any can.
    #[tactic(auto, using(crate::proofs::StageLemmas::of_port, crate::proofs::CandidateLemmas::apart_of, crate::proofs::CandidateLemmas::next_idle, crate::proofs::CandidateLemmas::next_value, crate::proofs::CandidateLemmas::never_comes, crate::proofs::CandidateLemmas::next_placed))]
    fn candidate(
        &mut self,
        alloc: Global,
        program: &Program,
        labels: &[Label],
        label: Label,
    ) -> Result<Option<Line>, NoMemory>
        requires labels { AreOfPorts program.now.ports labels.now }
        requires stage { IsStage program.now labels.now self.old.stage }
        requires label { slice_get labels.now self.old.stage.matched ≡ Some label }
        requires sound { IsSound (config_of self.old.stage.list self.old.stage.running self.old.stage.store.items) }
        requires masks { AreMasks program.now.ports self.old.stage.list self.old.masks }
        ensures line { IfOk result (λ found. MatchOption found
            (NeverComes (program_of program.now) (config_of self.old.stage.list self.old.stage.running self.old.stage.store.items)
            (labels_of program.now.ports (drop self.old.stage.matched labels.now)))
            (λ line. IsNextLine (program_of program.now) line (stand_of program.now.ports labels.now self.old.stage))) }
        ensures masks { IfOk result (λ _. AreMasks program.now.ports self.old.stage.list self.new.masks) }
        ensures stage { self.new.stage ≡ self.old.stage }
        ensures steps { self.new.steps ≡ self.old.steps }
    {
        let Some(root) = self.stage.running else {
            return Ok(Some(Line::Root));
        };
        if is_value(&self.stage.list, root) {
            return Ok(Some(Line::Root));
        }
        self.masks
            .follow(&self.stage.list, program.ports(), label.port)?;
        if !self.can_come(root, label) {
            return Ok(None);
        }
        let line = needed_line(alloc, &self.stage.list, &self.masks, label.port, root)?;
        Ok(Some(line))
    }

    // Whether a running term may show a label at all: the root's answer, or one of a port that stands in it.
    fn can_come(&self, root: u32, label: Label) -> bool
        ensures { IsFalse result → ((label.port ≡ 0) × (label.place ≢ 1)) ⊎ ((label.port ≢ 0) × (IsMarked self.now.masks label.port root → ⊥)) }
    {
        if label.port == 0 {
            label.place == 1
        } else {
            self.masks.has(root, label.port)
        }
    }

    // Counts a line on the way to a label, if it is a step. No more steps are made than the label's budget has.
    fn count(&mut self, label: usize, line: &Line) -> Result<(), ExplainFault>
        ensures stage { self.new.stage ≡ self.old.stage }
        ensures masks { self.new.masks ≡ self.old.masks }
        ensures steps { IfOk result (λ _. self.new.steps ≡ steps_in (line.now ∷ []) + self.old.steps) }
        ensures fault { IfErr result (λ fault. (fault ≡ ExplainFault.NoMemory)
            ⊎ ((fault ≡ ExplainFault.Spent label) × (budget label ≤ self.old.steps))) }
    {
        let Line::Step(_) = line else {
            return Ok(());
        };
        if self.steps >= budget(label)? {
            return Err(ExplainFault::Spent {
                label: label as u64,
            });
        }
        self.steps += 1;
        Ok(())
    }

    // Drops the nodes that neither the program nor the running term has, once the list has grown to its limit.
    fn compact(&mut self, alloc: Global, program: &Program) -> Result<(), NoMemory>
        requires keeps { Keeps program.now.list self.old.stage.list }
        requires running { IfSome self.old.stage.running (λ i. i < length self.old.stage.list.nodes) }
        requires masks { AreMasks program.now.ports self.old.stage.list self.old.masks }
        ensures keeps { IfOk result (λ _. Keeps program.now.list self.new.stage.list) }
        ensures running { IfOk result (λ _. IfSome self.new.stage.running (λ i. i < length self.new.stage.list.nodes)) }
        ensures config { IfOk result (λ _. config_of self.new.stage.list self.new.stage.running self.old.stage.store.items
            ≡ config_of self.old.stage.list self.old.stage.running self.old.stage.store.items) }
        ensures store { self.new.stage.store ≡ self.old.stage.store }
        ensures matched { self.new.stage.matched ≡ self.old.stage.matched }
        ensures masks { IfOk result (λ _. AreMasks program.now.ports self.new.stage.list self.new.masks) }
        ensures steps { self.new.steps ≡ self.old.steps }
    {
        if self.stage.list.nodes().len() >= self.stage.limit {
            self.stage.compact(alloc, program)?;
            self.masks.forget();
        }
        Ok(())
    }
}
