// Laws of what happens at a place. Each is the contract of a function that does nothing.
ghost use Rattle.gos_swaps.specs.doings.Heads.{UnfoldingsHaveHeadPaths};
ghost use Rattle.gos_swaps.specs.doings.Doings.{ActsHavePaths, OneSort, OneKind};
ghost use Rattle.gos_swaps.specs.doings.Sides.{DoesWithin, PlacesAreOnSides};
ghost use Rattle.gos_swaps.specs.doings.SmallDoings.{EitherSideRuns, HeadUnfolds, EndedPartSteps, KindsAreToldApart, IndexRuns, ArrayTakesEither};

/// An unfolding, a step and a label are each at a path.
pub fn paths_of_doings()
    ensures unfoldings { UnfoldingsHaveHeadPaths }
    ensures acts { ActsHavePaths }
{}

/// At one place one thing can happen, and it happens in each context.
pub fn doings_at_a_place()
    ensures sort { OneSort }
    ensures one { OneKind }
    ensures within { DoesWithin }
{}

/// What happens at two places happens in the two sides of a `||`.
pub fn places_on_sides()
    ensures { PlacesAreOnSides }
{}

/// Small terms, and what happens at which place of them.
pub fn small_doings()
    ensures sides { EitherSideRuns }
    ensures head { HeadUnfolds }
    ensures ended { EndedPartSteps }
    ensures kinds { KindsAreToldApart }
    ensures index { IndexRuns }
    ensures array { ArrayTakesEither }
{}
