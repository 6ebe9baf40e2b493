// What the definitions give. Each theorem is the contract of a function that does nothing.
ghost use Rattle.gos_terms.specs.regular_and_resting.Assignments.{AssignmentIsSteady};
ghost use Rattle.gos_terms.specs.regular_and_resting.Cases.{ArrayBlockIsSteady, BlockIsSteady, ParallelIsSteady};
ghost use Rattle.gos_terms.specs.regular_and_resting.Forks.{ChoiceIsSteady, ComplementIsSteady, ForkIsSteady, LoopIsSteady, OperatorIsSteady, SequenceIsSteady};
ghost use Rattle.gos_terms.specs.regular_and_resting.SmallAssignments.{OneIsOpen, ReadIsNotOpen, SevenAreNotOpen};
ghost use Rattle.gos_terms.specs.regular_and_resting.SmallForks.{BothAreRun, SecondIsNotRun};
ghost use Rattle.gos_terms.specs.regular_and_resting.Sides.{NumberIsSteady, VariableIsSteady};

use super::branches::branches_cover;
use super::numbers::parts_are_kept;
use super::run_children::{branches_are_children, forms_are_forks};
use gos_nodes::laws::blocks::blocks;

/// Of plans that are regular and rest: that of an expression is regular where it is asked, and rests after its answer; that of a variable
/// is so where it is written, without the joint by which it is read.
pub fn sides_of_writes()
    ensures number { NumberIsSteady }
    ensures variable { VariableIsSteady }
{}

/// So the plan of `M := N`, of two sides as they lie in it, is regular and rests, where the plans of both do.
pub fn assignments()
    ensures { AssignmentIsSteady }
{}

/// A node `m || n` that is wired to plans that are regular and rest has such a plan, if its sides have.
pub fn parallel_nodes()
    ensures { ParallelIsSteady }
{}

/// So has a block, if its body has: with a variable or with an array.
pub fn block_nodes()
    ensures one { BlockIsSteady }
    ensures array { ArrayBlockIsSteady }
{
    blocks();
}

/// So has a node that runs its parts one at a time, if its parts have.
pub fn forks()
    ensures { ForkIsSteady }
{
    branches_are_children();
    branches_cover();
}

/// So have sequences, choices, loops, operators and complements.
pub fn forms()
    ensures sequence { SequenceIsSteady }
    ensures choice { ChoiceIsSteady }
    ensures repeat { LoopIsSteady }
    ensures operator { OperatorIsSteady }
    ensures complement { ComplementIsSteady }
{
    forms_are_forks();
    parts_are_kept();
    forks();
}

/// Both sessions of `skip ; skip` run a branch, and with one branch the second runs none.
pub fn small_forks()
    ensures both { BothAreRun }
    ensures second { SecondIsNotRun }
{}

/// The plan of `x := 8:1` is that of an assignment with its two sides; of seven bits it is none, nor where the stage of x is read.
pub fn small_assignments()
    ensures one { OneIsOpen }
    ensures seven { SevenAreNotOpen }
    ensures read { ReadIsNotOpen }
{}
