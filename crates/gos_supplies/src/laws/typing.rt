// What the definitions give. Each theorem is the contract of a function that does nothing.
ghost use Rattle.gos_supplies.specs.typing.Names.{TypedUnderFewer};
ghost use Rattle.gos_supplies.specs.typing.SmallTypings.{ChangedAreTyped, ChangedShareNothing, OneIsEnough, OneIsTooFew, SharedAreShared, SharedAreTyped, SharedHasNoType};
ghost use Rattle.gos_supplies.specs.typing.Supplied.{ImportsAreOfSupplies, SuppliedIsTyped, SuppliedTermIsTyped};

/// A term has its type under all imports that give its names the same types.
pub fn names()
    ensures { TypedUnderFewer }
{}

/// A term with supplies has its type. The imports of a plan that is joined to its supplies are theirs, in order.
pub fn supplies()
    ensures terms { SuppliedTermIsTyped }
    ensures imports { ImportsAreOfSupplies }
    ensures plans { SuppliedIsTyped }
{}

/// `c` has its type without the import d, and `c ; d` has none. With c and d put in for each other nothing is shared; with c
/// put in for both `c || d` has no type.
pub fn small_typings()
    ensures enough { OneIsEnough }
    ensures few { OneIsTooFew }
    ensures changed { ChangedAreTyped }
    ensures apart { ChangedShareNothing }
    ensures typed { SharedAreTyped }
    ensures shared { SharedAreShared }
    ensures no_type { SharedHasNoType }
{}
