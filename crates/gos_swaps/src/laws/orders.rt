// Laws of the order of what happens. Each is the contract of a function that does nothing.
ghost use Rattle.gos_swaps.specs.orders.Alike.{AlikeItself, AlikeBack, AlikeOn, AlikeStayProper, AlikeDoAlike};
ghost use Rattle.gos_swaps.specs.orders.Effects.{DoingsHaveEffects};
ghost use Rattle.gos_swaps.specs.orders.Orders.{EitherOrder, OneDoing, OrderDoesNotTell, MovesEitherOrder};
ghost use Rattle.gos_swaps.specs.orders.SmallOrders.{EitherFirst, FirstTakesZero, StaleNamesTellOrder, SharedNamesTellOrder, EffectsChangeStores, EffectsAreAllowed};

/// To be one configuration but for the names of locations is an equivalence, and configurations so related do the same.
pub fn alike_configurations()
    ensures itself { AlikeItself }
    ensures back { AlikeBack }
    ensures on { AlikeOn }
    ensures proper { AlikeStayProper }
    ensures do_alike { AlikeDoAlike }
{}

/// A doing changes the store at one location at most, and needs of it what stands in the term.
pub fn effects_of_doings()
    ensures { DoingsHaveEffects }
{}

/// Two doings at different places can be in either order, and so can two moves.
pub fn either_order()
    ensures doings { EitherOrder }
    ensures moves { MovesEitherOrder }

    // Whatever locations are taken.
    ensures one { OneDoing }
    ensures ends { OrderDoesNotTell }
{}

/// Small configurations in either order, and two that aren't proper, of which the order tells.
pub fn small_orders()
    ensures either { EitherFirst }
    ensures names { FirstTakesZero }
    ensures stale { StaleNamesTellOrder }
    ensures shared { SharedNamesTellOrder }
    ensures effects { EffectsChangeStores }
    ensures allowed { EffectsAreAllowed }
{}
