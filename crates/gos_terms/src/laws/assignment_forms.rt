// What the definitions give. Each theorem is the contract of a function that does nothing.
ghost use Rattle.gos_terms.specs.assignment_forms.Cases.{AnyAssignCase, AnyAssignIsSteady};

use super::regular_and_resting::assignments;
use super::stages::{regular_inside, supplies_inside};

/// A wired assignment realises its term where its two sides do, whatever node of a variable is written.
pub fn assignments_of_any_target()
    ensures { AnyAssignCase }
{
    supplies_inside();
}

/// It is regular and rests where its two sides are and do.
pub fn assignments_of_any_target_are_steady()
    ensures { AnyAssignIsSteady }
{
    regular_inside();
    assignments();
}
