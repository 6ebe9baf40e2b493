// What the definitions give. Each theorem is the contract of a function that does nothing.
ghost use Rattle.gos_supplies.specs.turns.Composed.{ApplyingIsRegular, FunctionIsRegular, ServingIsRegular, SidesAreRegular, SuppliedIsRegular};
ghost use Rattle.gos_supplies.specs.turns.Names.{NameIsRegular, NamePlanIsThere};
ghost use Rattle.gos_supplies.specs.turns.Pairs.{PairIsRegular, PairPlanIsRegular, PairPlanIsThere};
ghost use Rattle.gos_supplies.specs.turns.Resting.{ApplyingRests, FunctionRests, NameRests, PairPlanRests, PairRests, RenumberedRests, ServingRests, SidesRest};
ghost use Rattle.gos_supplies.specs.turns.SmallTurned.{AstrayDoesNotRest, CallIsName, CallRests, SameOfSkipIsRegular, UnjoinedIsNone};
ghost use Rattle.gos_supplies.specs.turns.Trees.{RewiredTreeIsRegular, TreeIsRegular};

/// A plan of a function and one of its argument, joined, are regular where both are.
pub fn applications()
    ensures { ApplyingIsRegular }
{}

/// So is a plan with one that serves an import of it, and a plan with supplies for all its imports.
pub fn servings()
    ensures served { ServingIsRegular }
    ensures supplied { SuppliedIsRegular }
{}

/// So is the joining of a tree of instances, in whatever order these stand.
pub fn trees()
    ensures tree { TreeIsRegular }
    ensures rewired { RewiredTreeIsRegular }
{}

/// So is each side of a product.
pub fn sides()
    ensures { SidesAreRegular }
{}

/// The plan of a function is regular exactly where that of its body is.
pub fn functions()
    ensures { FunctionIsRegular }
{}

/// The plan of a name is regular, at every type, and there is one.
pub fn names()
    ensures regular { NameIsRegular }
    ensures there { NamePlanIsThere }
{}

/// The plan that makes a pair of two arguments is there, and regular. So is the pair of two regular plans.
pub fn pairs()
    ensures maker { PairPlanIsRegular }
    ensures there { PairPlanIsThere }
    ensures pair { PairIsRegular }
{}

/// Joinings of regular plans that rest do so, and so do the plans of functions, of names and of pairs.
pub fn rests()
    ensures applied { ApplyingRests }
    ensures served { ServingRests }
    ensures sides { SidesRest }
    ensures function { FunctionRests }
    ensures name { NameRests }
    ensures maker { PairPlanRests }
    ensures pair { PairRests }
    ensures renumbered { RenumberedRests }
{}

/// `fun a : com . a` with `skip` is regular; the plan of a call is that of a name, and rests; without its joint it is none. A
/// plan whose Seq waits on after the answer doesn't rest.
pub fn small_turned()
    ensures same { SameOfSkipIsRegular }
    ensures call { CallIsName }
    ensures unjoined { UnjoinedIsNone }
    ensures rests { CallRests }
    ensures astray { AstrayDoesNotRest }
{
    gos_realises::laws::realises::functions();
    gos_realises::laws::realises::small_realisers();
}
