// Laws of proper configurations. Each is the contract of a function that does nothing.
ghost use Rattle.gos_swaps.specs.proper.Proper.{SourcesAreApart, SourcesAreClosed, PuttingKeepsApart, UnfoldingsShrink, UnfoldingsKeepApart, ActsShrink, ActsKeepApart, RunsAreProper, DoingsStayProper};
ghost use Rattle.gos_swaps.specs.proper.SmallProper.{NamesAreApart, BodiesAreOpen, BlockIsProper};

/// The parts of a source are apart, and the body of a program is closed.
pub fn sources_are_proper()
    ensures apart { SourcesAreApart }
    ensures closed { SourcesAreClosed }
{}

/// Whatever happens, nothing but a new location becomes free in a closed term.
pub fn things_shrink()
    ensures unfoldings { UnfoldingsShrink }
    ensures acts { ActsShrink }
{}

/// Parts stay apart, whatever happens.
pub fn parts_stay_apart()
    ensures putting { PuttingKeepsApart }
    ensures unfoldings { UnfoldingsKeepApart }
    ensures acts { ActsKeepApart }
{}

/// In a run of a source each configuration is proper, and what is proper stays proper.
pub fn runs_are_proper()
    ensures runs { RunsAreProper }
    ensures doings { DoingsStayProper }
{}

/// Small configurations that are proper, and others that aren't.
pub fn small_proper()
    ensures apart { NamesAreApart }
    ensures open { BodiesAreOpen }
    ensures block { BlockIsProper }
{}
