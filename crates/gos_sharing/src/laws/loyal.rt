// What the definitions give. Each theorem is the contract of a function that does nothing.
ghost use Rattle.gos_sharing.specs.loyal.Seats.{BehindIsSeated, ItselfIsSeated, SeatedIsBefore, SeatedIsLoyal, SeatsCompose};
ghost use Rattle.gos_sharing.specs.loyal.SmallSeats.{SameIsSeated, SkipIsNotSeated};

/// Where a plan behind a Share lies in a greater one up to its result, that Share is loyal to its one caller, at any type.
pub fn seats()
    ensures compose { SeatsCompose }
    ensures itself { ItselfIsSeated }
    ensures behind { BehindIsSeated }
    ensures before { SeatedIsBefore }
    ensures loyal { SeatedIsLoyal }
{}

/// The plan of `fun a : com . a` lies so in itself behind a Share, and that of `skip` doesn't.
pub fn small_seats()
    ensures same { SameIsSeated }
    ensures skip { SkipIsNotSeated }
{
    super::behind::small_plans();
}
