// Laws of the definitions. Each is the contract of a function that does nothing.
ghost use Rattle.gos_order.specs.SmallRings.{ChainHasNone, ForkHasNone, RingsStay, SameIsRing, TwoAreRing};
ghost use Rattle.gos_order.specs.SmallDepths.{ChainHasDepths, DeeperIsNone, DepthsAreFixed, DepthsAreLongest, LooseHaveZero, OthersAreNone, RingsHaveNone, ShorterIsNone};

/// Small graphs that have a ring, and some that have none.
pub fn small_rings()
    ensures same { SameIsRing }
    ensures two { TwoAreRing }
    ensures chain { ChainHasNone }
    ensures fork { ForkHasNone }
    ensures more { RingsStay }
{}

/// Depths of small graphs, and what are none. Those of any graph are the lengths of the longest paths to its nodes.
pub fn small_depths()
    ensures chain { ChainHasDepths }
    ensures shorter { ShorterIsNone }
    ensures deeper { DeeperIsNone }
    ensures others { OthersAreNone }
    ensures loose { LooseHaveZero }
    ensures fixed { DepthsAreFixed }
    ensures rings { RingsHaveNone }
    ensures longest { DepthsAreLongest }
{}
