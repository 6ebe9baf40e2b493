// What the definitions give. Each theorem is the contract of a function that does nothing.
ghost use Rattle.gos_nodes.specs.products.Both.{BothIsRegular};
ghost use Rattle.gos_nodes.specs.products.Cores.{SidesAreCores};
ghost use Rattle.gos_nodes.specs.products.Realised.{SidesRealiseBoth};
ghost use Rattle.gos_nodes.specs.products.SmallBoth.{CrossedIsNone, SharedAreBoth, SkipsAreBoth};
ghost use Rattle.gos_nodes.specs.products.SmallCores.{EmptyIsNone, SkipIsCore};

/// The plan of a product of two sides is regular, and rests.
pub fn both()
    ensures { BothIsRegular }
{}

/// Each side of it, joined, has its region's plan for a core beside which all stands still.
pub fn side_cores()
    ensures { SidesAreCores }
{}

/// So the plan realises the pair of two terms where the regions realise these.
pub fn pairs()
    ensures { SidesRealiseBoth }
{}

/// The plan of `(skip, skip)` has two sides, and so has the one in which both share one Skip. A plan with a joint between
/// the results of its sides has none.
pub fn small_products()
    ensures skips { SkipsAreBoth }
    ensures shared { SharedAreBoth }
    ensures crossed { CrossedIsNone }
{
    gos_sharing::laws::behind::order();
}

/// The plan of `skip` is the core of the first side of the plan of `(skip, skip)`, where that is joined. A plan without parts is
/// no core of it.
pub fn small_cores()
    ensures skip { SkipIsCore }
    ensures empty { EmptyIsNone }
{}
