// What the definitions give. Each theorem is the contract of a function that does nothing.
ghost use Rattle.gos_terms.specs.applying.Uses.{FirstIsSide, SecondIsSide, DerefIsReading, ApplicationIsApplied};
ghost use Rattle.gos_terms.specs.applying.Plain.{WiredIsThin};
ghost use Rattle.gos_terms.specs.applying.Realised.{FirstIsRealised, SecondIsRealised, DerefIsRealised, ApplicationIsRealised};
ghost use Rattle.gos_terms.specs.applying.SmallUses.{TwoAreParted, OneIsNotParted, UsesAreApart, SameUsesAreNot, WrongIsPlaced, EmptyIsNotPlaced, SkipCanBeWired, WrongCannot};

/// A node that projects, wired to its supplies, is its child, wired to them, with one side left unjoined, but for numbers.
pub fn projections_are_sides()
    ensures first { FirstIsSide }
    ensures second { SecondIsSide }
{}

/// A node that applies, wired to its supplies, is the function's, applied to the argument's, each wired to its own, but for
/// numbers.
pub fn applications_are_joined()
    ensures { ApplicationIsApplied }
{}

/// A node that reads a variable, wired to its supplies, is the variable's, joined to a Deref, but for numbers.
pub fn derefs_are_readings()
    ensures { DerefIsReading }
{}

/// The web of a node in which numbers are used once, wired to right supplies, is thin.
pub fn wired_nodes_are_thin()
    ensures { WiredIsThin }
{}

/// Such a node realises its term, if its children, wired to their supplies, realise theirs.
pub fn uses_are_realised()
    ensures first { FirstIsRealised }
    ensures second { SecondIsRealised }
    ensures deref { DerefIsRealised }
    ensures application { ApplicationIsRealised }
{}

/// Two numbers are parted, and uses of them are apart; one number isn't, and two uses of it aren't. The node of `skip` can be
/// wired, and not if it is said to give a number, though there is a plan with its parts.
pub fn small_uses()
    ensures parted { TwoAreParted }
    ensures not_parted { OneIsNotParted }
    ensures apart { UsesAreApart }
    ensures not_apart { SameUsesAreNot }
    ensures placed { WrongIsPlaced }
    ensures not_placed { EmptyIsNotPlaced }
    ensures can { SkipCanBeWired }
    ensures cannot { WrongCannot }
{}
