// What the definitions give. Each theorem is the contract of a function that does nothing.
ghost use Rattle.gos_nodes.specs.folds.Folds.{FoldedIsRegion, FoldedJoint, FoldHasPlan, UnmetIsAlone};
ghost use Rattle.gos_nodes.specs.folds.SmallFolds.{CallIsFold, UnsharedIsNone, UntiedIsNone, NumberedIsFold, UnnumberedIsNone};

/// The plan of a folded web is a region of the plan in which it lies. A joint of the whole with an end that stands for a dot
/// of the folded web is one of the region's.
pub fn folds_are_regions()
    ensures region { FoldedIsRegion }
    ensures joint { FoldedJoint }
{}

/// A folded web has a plan.
pub fn folds_have_plans()
    ensures { FoldHasPlan }
{}

/// An end whose dot meets nothing, and is that of no other end, is alone.
pub fn unmet_ends_are_alone()
    ensures { UnmetIsAlone }
{}

/// The first child of `c ; c`, with the Share for its supply, is folded, and isn't where the Share is said to serve no one
/// else, or where the tie of its result is left out. It is where a dot of the whole lies between, which has to stand for a
/// dot.
pub fn small_folds()
    ensures fold { CallIsFold }
    ensures unshared { UnsharedIsNone }
    ensures untied { UntiedIsNone }
    ensures numbered { NumberedIsFold }
    ensures unnumbered { UnnumberedIsNone }
{}
