// What wired nodes of ground types realise, form by form. Each theorem is the contract of a function that does nothing.
ghost use Rattle.gos_terms.specs.ground_forms.Cases.{ArrayBlockCase, BlockCase, LiteralCase, ParallelCase, SkipCase, UseCase};

use super::leaves::{closed_is_realised, use_is_realised};
use super::meanings::meanings;
use super::regions::{block_bodies, parallel_sides};
use gos_nodes::laws::parallel::parallel;
use gos_supplies::laws::arrays::array_names;
use gos_supplies::laws::names::names;

/// Nodes without parts.
pub fn leaves()
    ensures used { UseCase }
    ensures skip { SkipCase }
    ensures literal { LiteralCase }
{
    use_is_realised();
    closed_is_realised();
}

/// Both sides of `||`.
pub fn parallel_nodes()
    ensures { ParallelCase }
{
    parallel_sides();
    parallel();
}

/// A block with a variable, and one with an array.
pub fn blocks()
    ensures one { BlockCase }
    ensures array { ArrayBlockCase }
{
    block_bodies();
    gos_nodes::laws::blocks::blocks();
    names();
    array_names();
    meanings();
}
