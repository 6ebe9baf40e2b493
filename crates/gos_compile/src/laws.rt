// What the definitions give. Each theorem is the contract of a function that does nothing.
ghost use Rattle.gos_compile.specs.Shells.{ShellIsOfPlan};
ghost use Rattle.gos_compile.specs.SmallPlans.{SkipIsPlanned, SameIsPlanned, ArrayIsPlanned, OtherLengthIsNotPlanned, BothIsPlanned, TurnedIsNotPlanned, ShellIsNotPlanned};
ghost use Rattle.gos_compile.specs.Typed.{CheckedIsTyped, SkipIsNoExpression, SkipIsTyped};
ghost use Rattle.gos_compile.specs.Wiring.{PlanIsOne};

use gos_model::types_of_terms;

/// The plans of `skip`, of `fun a : com . a`, of `new a[2] : 8 in skip`, whose array has no other length, and of `c ; d`
/// with two imports, whose joints stand in no other order, and whose shell is not its plan.
pub fn small_plans()
    ensures skip { SkipIsPlanned }
    ensures same { SameIsPlanned }
    ensures array { ArrayIsPlanned }
    ensures other_length { OtherLengthIsNotPlanned }
    ensures both { BothIsPlanned }
    ensures turned { TurnedIsNotPlanned }
    ensures shell { ShellIsNotPlanned }
{}

/// A module has one plan.
pub fn one_plan()
    ensures { PlanIsOne }
{}

/// The shell of a module has the imports and the result of its plan.
pub fn one_shell()
    ensures { ShellIsOfPlan }
{}

/// Each node of a checked module's term has the types of its form's row.
pub fn typed_terms()
    ensures checked { CheckedIsTyped }
    ensures met { SkipIsTyped }
    ensures missed { SkipIsNoExpression }
{
    types_of_terms();
}
