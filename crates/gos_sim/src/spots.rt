// Where single steps stand among runs: for one in so many steps its run is noted, and the others aren't far from it.
ghost use Rattle.std.specs.Prelude.{◌≡◌, ◌<◌, ◌≤◌, ◌^◌, All, IfOk, List, OnOk};
ghost use Rattle.gos_sim.specs.declared.evaluation.Run.{Run};
ghost use Rattle.gos_sim.specs.inner.Spots.{IsAlone, IsNumbered, IsSpot, one_of, steps_in};

use crate::evaluation::Run;
use gos_types::NoMemory;
use std::alloc::Global;

/// Of so many steps the run of one is noted.
const EACH: usize = 16;

/// A run, and how many steps stand before it.
#[derive(Clone, Copy)]
pub struct Spot {
    /// The run.
    pub run: usize,
    /// The steps before it.
    pub before: u32,
}

/// The runs of some steps, and how many steps there are.
#[derive(Drop)]
pub struct Spots {
    /// The run of one in so many steps.
    pub all: Vec<Spot>,
    /// How many steps there are.
    pub count: u32,
}

// The spots of runs.
pub fn spots_of(alloc: Global, runs: &[Run]) -> Result<Spots, NoMemory>
    requires few { steps_in runs.now < 2 ^ 32 }
    ensures spots { IfOk result (λ spots. All (IsSpot runs.now) spots.all.items) }
    ensures count { IfOk result (λ spots. spots.count ≡ steps_in runs.now) }
{
    let mut all = Vec::new(alloc);
    let mut before = 0;
    for (run, steps) in runs.iter().enumerate() {
        let end = before + steps.count;
        add_spots(&mut all, Spot { run, before }, end)?;
        before = end;
    }
    Ok(Spots { all, count: before })
}

// Adds a spot for steps that aren't noted yet, up to this one.
fn add_spots(all: &mut Vec<Spot>, spot: Spot, end: u32) -> Result<(), NoMemory>
    ensures { OnOk result ((runs : List Run) → IsSpot runs spot → All (IsSpot runs) all.old.items → All (IsSpot runs) all.new.items) }
{
    let many = (end as usize).div_ceil(EACH);
    for _ in all.len()..many {
        all.push(spot)?;
    }
    Ok(())
}

// A spot that isn't behind a step.
fn near(spots: &[Spot], step: usize) -> Spot
    ensures before { result.before ≤ step }
    ensures spot { (runs : List Run) → All (IsSpot runs) spots.now → IsSpot runs result }
{
    match spots.get(step / EACH) {
        Some(spot) if spot.before as usize <= step => *spot,
        _ => Spot { run: 0, before: 0 },
    }
}

// The run of a step alone.
pub fn alone(runs: &[Run], spots: &[Spot], step: usize) -> Run
    requires spots { All (IsSpot runs.now) spots.now }
    requires numbered { All IsNumbered runs.now }
    requires step { step < steps_in runs.now }
    ensures { IsAlone runs.now step result }
{
    alone_from(runs, near(spots, step), step)
}

// The run of a step alone, which stands in a run from a spot on.
fn alone_from(runs: &[Run], spot: Spot, step: usize) -> Run
    requires spot { IsSpot runs.now spot }
    requires before { spot.before ≤ step }
    requires numbered { All IsNumbered runs.now }
    requires step { step < steps_in runs.now }
    ensures { IsAlone runs.now step result }
{
    let mut place = spot.run;
    let mut left = step - spot.before as usize;
    while left >= runs[place].count as usize {
        left -= runs[place].count as usize;
        place += 1;
    }
    one_of(&runs[place], left as u32)
}

// One step of a run, as a run.
fn one_of(run: &Run, place: u32) -> Run
    requires numbered { IsNumbered run.now }
    requires place { place < run.now.count }
    ensures { result ≡ one_of run.now place }
{
    Run {
        kind: run.kind,
        width: run.width,
        net: run.net + place,
        first: run.first + place,
        count: 1,
    }
}
