// What the definitions give. Each theorem is the contract of a function that does nothing.
ghost use Rattle.gos_sharing.specs.pair_types.Passing.{AnyPassingIsRealised};
ghost use Rattle.gos_sharing.specs.pair_types.Sides.{SidesHaveCores};

/// Either side of a regular plan of a product behind a Share has as its core that side of the plan behind a Share of its own
/// type, with the wide Share in its place.
pub fn sides()
    ensures { SidesHaveCores }
{}

/// A plan of any type realises behind either caller of a Share what it realises.
pub fn passing()
    ensures { AnyPassingIsRealised }
{
    super::behind::order();
    super::ground_types::ground();
    super::cores::cores();
    sides();
}
