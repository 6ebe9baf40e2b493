// The cases of the induction on a typed term. Each theorem is the contract of a function that does nothing.
ghost use Rattle.gos_terms.specs.function_forms.Bodies.{AppliedIsBody};
ghost use Rattle.gos_terms.specs.function_forms.SmallBodies.{NumberIsSupplied, OtherIsNotSupplied};
ghost use Rattle.gos_terms.specs.function_forms.Cases.{ApplicationCase, ApplicationIsRegular, DerefCase, DerefIsRegular, FirstCase, FirstIsRegular, SecondCase, SecondIsRegular};
ghost use Rattle.gos_terms.specs.function_forms.Functions.{FunctionCase, FunctionNodeIsRegular};

use super::applying::{
    applications_are_joined, derefs_are_readings, projections_are_sides, uses_are_realised,
};
use super::leaves::readings_are_regular;
use super::meanings::meanings;
use super::numbers::parts_are_kept;
use super::wired::{starts, wired_nodes};
use gos_joining::laws::renumbered::renumberings;
use gos_model::types_of_terms;
use gos_supplies::laws::turns::{rests, sides};

/// A node that applies.
pub fn applications()
    ensures realised { ApplicationCase }
    ensures regular { ApplicationIsRegular }
{
    types_of_terms();
    parts_are_kept();
    wired_nodes();
    starts();
    applications_are_joined();
    uses_are_realised();
    gos_supplies::laws::turns::applications();
    rests();
    renumberings();
}

/// A node that projects.
pub fn projections()
    ensures first { FirstCase }
    ensures second { SecondCase }
    ensures first_regular { FirstIsRegular }
    ensures second_regular { SecondIsRegular }
{
    types_of_terms();
    parts_are_kept();
    wired_nodes();
    starts();
    projections_are_sides();
    uses_are_realised();
    sides();
    rests();
    renumberings();
}

/// A node that reads a variable.
pub fn reads()
    ensures realised { DerefCase }
    ensures regular { DerefIsRegular }
{
    types_of_terms();
    parts_are_kept();
    wired_nodes();
    starts();
    derefs_are_readings();
    uses_are_realised();
    readings_are_regular();
    rests();
    renumberings();
}

/// A function's node, applied to an argument, is its body with the argument for the bound number.
pub fn bodies()
    ensures { AppliedIsBody }
{}

/// A function.
pub fn functions()
    ensures realised { FunctionCase }
    ensures regular { FunctionNodeIsRegular }
{
    types_of_terms();
    parts_are_kept();
    meanings();
    bodies();
    gos_supplies::laws::turns::names();
    gos_supplies::laws::turns::functions();
    rests();
}

/// A number that has a supply has it, and another keeps its own.
pub fn small_bodies()
    ensures met { NumberIsSupplied }
    ensures missed { OtherIsNotSupplied }
{}
