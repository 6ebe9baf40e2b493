// What the definitions give. Each theorem is the contract of a function that does nothing.
ghost use Rattle.gos_supplies.specs.literals.Literals.{ClosedIsOpen, DoneIsOpen, DoneIsRealised, LiteralIsOpen, LiteralIsRealised};
ghost use Rattle.gos_supplies.specs.literals.SmallLiterals.{FiveIsNotDone, FiveIsNotSix, FiveIsRealised, NoneIsTooLarge};

/// The plans of a number and of `skip`, of any weight, realise these.
pub fn leaves()
    ensures number { LiteralIsRealised }
    ensures skip { DoneIsRealised }
{}

/// A plan without imports realises its term with any supplies; and so do the plans of a number and of `skip`.
pub fn closed()
    ensures plans { ClosedIsOpen }
    ensures number { LiteralIsOpen }
    ensures skip { DoneIsOpen }
{}

/// The plan of 5 realises it, but not 6, nor `skip`. None realises a number that its width has no room for.
pub fn small_literals()
    ensures five { FiveIsRealised }
    ensures six { FiveIsNotSix }
    ensures large { NoneIsTooLarge }
    ensures done { FiveIsNotDone }
{}
