// What the definitions give. Each theorem is the contract of a function that does nothing.
ghost use Rattle.gos_supplies.specs.instances.Served.{ServedIsModule, ServedIsOpen, ServedIsSupplied, ServedIsTyped, ServingFits};
ghost use Rattle.gos_supplies.specs.instances.SmallServings.{FunctionIsApplied, OneNameTwice, OtherNameStays, SkipIsNoGiver, SkipServesNot, SmallServingFits, SmallServingIs, SmallTreeIs};
ghost use Rattle.gos_supplies.specs.instances.Trees.{RewiredTreeIsOpen, ServedIsBy, TreeIsJoined, TreeIsOpen, TreeIsRealised};

use gos_joining::laws::renumbered::open_renumberings;

/// The plan of two of which the one serves an import of the other, with supplies, is one but for numbers with the other plan that
/// has the first, with its part of the supplies, as a supply. So it realises the term with the giver's term put in.
pub fn servings()
    ensures fits { ServingFits }
    ensures supplied { ServedIsSupplied }
    ensures open_imports { ServedIsOpen }
{}

/// The term has its type under the imports that stay; so a module whose import is served by a module is a module, where its plan is
/// regular and slim.
pub fn modules()
    ensures typed { ServedIsTyped }
    ensures served { ServedIsModule }
{}

/// The plans of instances of which each but the first serves an import, all joined, realise what the instances' terms make of the
/// supplies. Two instances may have imports of one name.
pub fn trees()
    ensures served { ServedIsBy }
    ensures joined { TreeIsJoined }
    ensures realised { TreeIsRealised }
    ensures open_imports { TreeIsOpen }
{}

/// So does any plan that is the joining of the same instances but for numbers: their order, and that of the joining, is free.
pub fn rewired_trees()
    ensures { RewiredTreeIsOpen }
{
    open_renumberings();
}

/// Small servings: a function that an import calls, and a giver that is none.
pub fn small_servings()
    ensures links { SmallServingIs }
    ensures fits { SmallServingFits }
    ensures unfit { SkipServesNot }
    ensures applied { FunctionIsApplied }
    ensures stays { OtherNameStays }
    ensures tree { SmallTreeIs }
    ensures no_giver { SkipIsNoGiver }
    ensures twice { OneNameTwice }
{}
