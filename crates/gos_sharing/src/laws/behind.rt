// What the definitions give. Each theorem is the contract of a function that does nothing.
ghost use Rattle.gos_sharing.specs.behind.Behind.{BehindIsRegular, BehindRests, GroundIsBuffered, LiesBehind};
ghost use Rattle.gos_sharing.specs.behind.Source.{BehindIsLoyal, GroundSourcesAreLoyal, SourcesAreLoyal};
ghost use Rattle.gos_sharing.specs.behind.SmallSource.{ArgumentHasNot, WholeHasImports};
ghost use Rattle.gos_sharing.specs.behind.SmallBehind.{FirstIsBehind, FirstIsRegular, ReversedIsNot, SecondIsNot, SharedIs};

/// A plan of any type behind either caller of a Share lies behind it, is regular where the plan is, and rests where it does.
/// At a ground type it is the plan of a buffer.
pub fn order()
    ensures lies { LiesBehind }
    ensures regular { BehindIsRegular }
    ensures rests { BehindRests }
    ensures ground { GroundIsBuffered }
{}

/// A Share whose source is joined to a region that is a regular plan is loyal to its one caller; so is that of a plan
/// behind it.
pub fn loyalty()
    ensures sources { SourcesAreLoyal }
    ensures ground { GroundSourcesAreLoyal }
    ensures behind { BehindIsLoyal }
{}

/// The plan of `fun a : com . a` behind a Share lies behind its first caller, and is regular. It doesn't lie behind the
/// second, nor with the caller's joints the other way round.
pub fn small_plans()
    ensures shared { SharedIs }
    ensures first { FirstIsBehind }
    ensures regular { FirstIsRegular }
    ensures second { SecondIsNot }
    ensures reversed { ReversedIsNot }
{
    gos_realises::laws::realises::functions();
}

/// The plan of `f skip`, with `f` imported, has its imports; the argument alone has not.
pub fn small_sources()
    ensures whole { WholeHasImports }
    ensures argument { ArgumentHasNot }
{}
