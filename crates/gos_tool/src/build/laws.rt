// What the circuits of modules do. Each theorem is the contract of a function that does nothing.

ghost use Rattle.gos_tool.specs.build.Complete.{BuildIsNotRejected, EmptyIsNotRight};
ghost use Rattle.gos_tool.specs.build.Paced.{BuildHasImports, BuildHasWeight, BuildIsSmall, BuildIsTyped, BuildKeepsPace, BuildRealises, HeadlineHolds, ModuleKeepsPace};
ghost use Rattle.gos_tool.specs.build.Repeated.{BuildMakesOne};
ghost use Rattle.gos_tool.specs.build.SmallPrograms.{FirstIsNot, SecondIsBound};

use crate::circuits::{paced_circuits, right_links};
use crate::objects::{accepted_sources, one_object};
use crate::simulate::{one_trace, right_pulses};
use gos_expand::one_layout;
use gos_link::one_build;
use gos_linked::laws::fits::slim_plans_fit;
use gos_linked::laws::linked::linked_modules;
use gos_verilog::one_text;

/// The circuit of a module with ground imports keeps pace with the module's program, and that of a build's linked plan with the
/// program of its linked modules, which this plan realises. It has at most 128 (W + 1) cells, for their weight W.
pub fn paced_modules()
    ensures one { ModuleKeepsPace }
    ensures linked { BuildKeepsPace }
    ensures realises { BuildRealises }
    ensures imports { BuildHasImports }
    ensures typed { BuildIsTyped }
    ensures weight { BuildHasWeight }
    ensures small { BuildIsSmall }
{
    paced_circuits();
    linked_modules();
    slim_plans_fit();
}

/// A service binds the import of its number, by its name.
pub fn small_programs()
    ensures second { SecondIsBound }
    ensures first { FirstIsNot }
{}

/// Where `build` is done, the headline holds of the files that it has left.
pub fn headlines()
    ensures { HeadlineHolds }
{}

/// Files that are right for `build` are not rejected. An empty build file is not right.
pub fn right_builds()
    ensures rejected { BuildIsNotRejected }
    ensures empty { EmptyIsNotRight }
{
    one_build();
    accepted_sources();
    right_links();
    right_pulses();
}

/// Where `build` is done twice with the same build file, sources and pulse file, it writes the same and tells the same.
pub fn one_circuit()
    ensures { BuildMakesOne }
{
    one_build();
    one_object();
    gos_link::one_answer();
    one_layout();
    one_text();
    one_trace();
}
