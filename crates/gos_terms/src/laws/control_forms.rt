// What nodes realise that run their parts one at a time. Each theorem is the contract of a function that does nothing.
ghost use Rattle.gos_terms.specs.control_forms.Runs.{ForkRealises};
ghost use Rattle.gos_terms.specs.control_forms.Cases.{ChoiceCase, ComplementCase, LoopCase, OperatorCase, SequenceCase};
ghost use Rattle.gos_terms.specs.control_forms.SmallRuns.{BothHaveBranches, SecondHasNone};

use super::branches::branches_cover;
use super::numbers::parts_are_kept;
use super::run_children::{branches_are_children, forms_are_forks};
use super::stages::supplies_inside;

/// A fork realises its term, where its branches realise theirs.
pub fn forks_realise()
    ensures { ForkRealises }
{
    supplies_inside();
    branches_are_children();
    branches_cover();
}

/// So do sequences, choices, loops, operators and complements of a typed term.
pub fn fork_cases()
    ensures sequence { SequenceCase }
    ensures choice { ChoiceCase }
    ensures repeat { LoopCase }
    ensures operator { OperatorCase }
    ensures complement { ComplementCase }
{
    forms_are_forks();
    parts_are_kept();
    forks_realise();
}

/// Each session of `skip ; skip` runs one of two branches; with one branch, the second runs none.
pub fn small_runs()
    ensures both { BothHaveBranches }
    ensures second { SecondHasNone }
{}
