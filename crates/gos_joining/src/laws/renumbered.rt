// What the definitions give. Each theorem is the contract of a function that does nothing.
ghost use Rattle.gos_joining.specs.renumbered.Open.{RenumberedIsOpen};
ghost use Rattle.gos_joining.specs.renumbered.Renumbered.{RenumberedIsDone, RenumberedIsRealised, RenumberedIsRegular};
ghost use Rattle.gos_joining.specs.renumbered.Rewired.{RewiredIsRenumbered};
ghost use Rattle.gos_joining.specs.renumbered.SmallRewirings.{ArgumentGivesNot, SwapIsRewired};

/// Joining the same plans in another order, with their parts and imports renumbered, gives a renumbered plan.
pub fn rewirings()
    ensures { RewiredIsRenumbered }
{}

/// A plan is regular, and realises a program of any type, where a renumbered one does.
pub fn renumberings()
    ensures regular { RenumberedIsRegular }
    ensures done { RenumberedIsDone }
    ensures realised { RenumberedIsRealised }
{}

/// A plan realises a term with any supplies where a renumbered one does: each supply goes with its import.
pub fn open_renumberings()
    ensures { RenumberedIsOpen }
{}

/// A function and its argument may change places, and the result goes with the function.
pub fn small_rewirings()
    ensures swap { SwapIsRewired }
    ensures giver { ArgumentGivesNot }
{}
