// Laws of the height of a term. Each is the contract of a function that does nothing.
ghost use Rattle.gos_swaps.specs.heights.Heights.{PuttingAdds, UnfoldingLowers, UnfoldingUnderLowers};
ghost use Rattle.gos_swaps.specs.heights.SmallHeights.{PairIsHigher, CopiesMayRise};

/// An unfolding at a place lowers its height, so unfolding there ends.
pub fn unfolding_lowers()
    ensures putting { PuttingAdds }
    ensures here { UnfoldingLowers }
    ensures under { UnfoldingUnderLowers }
{}

/// Small terms with their heights.
pub fn small_heights()
    ensures pair { PairIsHigher }
    ensures copies { CopiesMayRise }
{}
