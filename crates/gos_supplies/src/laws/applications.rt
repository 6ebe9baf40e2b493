// What the definitions give. Each theorem is the contract of a function that does nothing.
ghost use Rattle.gos_supplies.specs.applications.Applied.{AppliedIsSupplied, ApplicationIsRealised};
ghost use Rattle.gos_supplies.specs.applications.InTurn.{InTurnIsAtOnce};
ghost use Rattle.gos_supplies.specs.applications.Opened.{BodyIsRealised, OpenedIsSupplied};
ghost use Rattle.gos_supplies.specs.applications.Projected.{FirstIsRealised, ReadingIsRealised, ReadingIsSupplied, SecondIsRealised, SideIsSupplied};
ghost use Rattle.gos_supplies.specs.applications.SmallFunctions.{SameIsFunction, UnjoinedIsNoBody};

/// The plan of an application, with supplies, is one but for numbers with the supplied plan of the function applied to the
/// supplied plan of the argument. So it realises the application where these realise the function and the argument.
pub fn applications()
    ensures supplied { AppliedIsSupplied }
    ensures realised { ApplicationIsRealised }
{}

/// The same of a side of a product: it realises the projection where the plan realises the product.
pub fn projections()
    ensures supplied { SideIsSupplied }
    ensures first { FirstIsRealised }
    ensures second { SecondIsRealised }
{}

/// The same of a variable that is read.
pub fn readings()
    ensures supplied { ReadingIsSupplied }
    ensures realised { ReadingIsRealised }
{}

/// The plan of a function, supplied and applied, is one but for numbers with the body's plan that has the argument for a
/// supply; so it realises the body with the argument in it.
pub fn functions()
    ensures supplied { OpenedIsSupplied }
    ensures realised { BodyIsRealised }
{}

/// The plan of a name is the body of the plan of `fun a . a`; without its joint it isn't.
pub fn small_functions()
    ensures same { SameIsFunction }
    ensures unjoined { UnjoinedIsNoBody }
{}

/// Supplies may be put in one after another or all at once.
pub fn supplies()
    ensures { InTurnIsAtOnce }
{}
