// What the definitions give. Each theorem is the contract of a function that does nothing.
ghost use Rattle.gos_linked.specs.linked.Linked.{LinkedIsGround, LinkedIsRealised, SubstitutedIsTyped};
ghost use Rattle.gos_linked.specs.linked.Modules.{LinkedHasWeight, LinkedIsDone, LinkedIsModule, LinkedKeepsPace};
ghost use Rattle.gos_linked.specs.linked.SmallLinks.{ServedIsSubstituted, SkipRealisesNoUse, SkipTypesNoUse, UnservedStays, UseIsRealised, UseIsTyped};

use super::fits::slim_plans_fit;
use super::keeping::modules_keep_pace;
use gos_realises::laws::realises::small_realisers;
use gos_supplies::laws::instances::rewired_trees;
use gos_supplies::laws::ports::ports;

/// The linked plan of a build realises the root's body in which each bound import is its giver's substituted program.
pub fn linked_plans()
    ensures realised { LinkedIsRealised }
    ensures ground { LinkedIsGround }
{
    rewired_trees();
}

/// The substituted program of right links has the type of the root's result, where each program has the imports and the result of its plan.
pub fn substituted_is_typed()
    ensures { SubstitutedIsTyped }
{}

/// The linked plan of modules is that of a module, of the summed weight, and its netlist keeps pace with the substituted program.
pub fn linked_modules()
    ensures module { LinkedIsModule }
    ensures done { LinkedIsDone }
    ensures pace { LinkedKeepsPace }
    ensures weight { LinkedHasWeight }
{
    linked_plans();
    ports();
    modules_keep_pace();
    slim_plans_fit();
}

/// Two instances with one service, one instance without, and plans that realise a term, or have its type, and don't.
pub fn small_links()
    ensures served { ServedIsSubstituted }
    ensures unserved { UnservedStays }
    ensures realised { UseIsRealised }
    ensures skip { SkipRealisesNoUse }
    ensures typed { UseIsTyped }
    ensures other_type { SkipTypesNoUse }
{
    small_realisers();
}
