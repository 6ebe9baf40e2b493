// What the definitions give. Each theorem is the contract of a function that does nothing.
ghost use Rattle.gos_joining.specs.unions.SmallUnions.{BeyondStandsNowhere, HiddenIsNotBare, LoneIsBare, SkipHasUnion, TwiceAppliedIs, UnjoinedIsNoUnion};
ghost use Rattle.gos_joining.specs.unions.Unions.{JoiningIsUnion, UnionIsJoining};
ghost use Rattle.gos_joining.specs.unions.Flat.{FlatFits, FlatIsJoined, FlatJoins, JoinedIsFlat, JoiningsJoin};

/// The joining of plans of webs is the plan of the union of the webs, and back.
pub fn unions()
    ensures union { JoiningIsUnion }
    ensures joining { UnionIsJoining }
{}

/// A joining of joinings is the joining of all their plans, and back.
pub fn joinings_of_joinings()
    ensures flat { JoiningsJoin }
    ensures joins { FlatJoins }
{}

/// Where the inner and the outer links fit so do all of them; and the same of joinings of links that fit.
pub fn flat_links()
    ensures fit { FlatFits }
    ensures flat { JoinedIsFlat }
    ensures joined { FlatIsJoined }
{}

/// Of the plan of `skip` alone, the plan without its joints isn't of the union; a link to no plan doesn't stand; a flat
/// wiring of three plans; and a part's end whose joint leads nowhere isn't bare.
pub fn small_unions()
    ensures union { SkipHasUnion }
    ensures unjoined { UnjoinedIsNoUnion }
    ensures beyond { BeyondStandsNowhere }
    ensures flat { TwiceAppliedIs }
    ensures hidden { HiddenIsNotBare }
    ensures bare { LoneIsBare }
{}
