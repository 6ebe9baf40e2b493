// The plan of a module, with its supplies, is its term's node, wired to them. Each theorem is the contract of a function that does
// nothing.
ghost use Rattle.gos_terms.specs.wired.Modules.{SuppliedIsWired};
ghost use Rattle.gos_terms.specs.wired.SmallWired.{SeqDoesNotFit, SkipFits, UnjoinedIsNotWired, UseIsWired};
ghost use Rattle.gos_terms.specs.wired.Fitting.{CheckedFits, CheckedIsWired, TypedTiesFit};
ghost use Rattle.gos_terms.specs.wired.NodeFitting.{BodyIsLinear, CheckedStarts, ChoicesAreLinear, FittingIsPlain, PartIsLinear, PartsAreLinear, RealisedAreOfTypes, TwiceIsNotLinear, UseIsLinear, WiredIsPlaced, WiredNodeFits};

use gos_compile::typed_terms;

/// The plan of a module, joined to its supplies, is its term's node, wired to them.
pub fn supplied_modules()
    ensures { SuppliedIsWired }
{}

/// What the ties of a typed term connect fits; so a checked module's plan, joined to its supplies, is its term's node, wired.
pub fn checked_modules()
    ensures fit { TypedTiesFit }
    ensures checked { CheckedFits }
    ensures wired { CheckedIsWired }
{
    typed_terms();
}

/// What any wired node connects fits, before its web has a plan; and so each of its ends meets one other at most.
pub fn wired_nodes()
    ensures fit { WiredNodeFits }
    ensures placed { WiredIsPlaced }
    ensures plain { FittingIsPlain }
{}

/// Where the induction on a checked module's term starts: its node is linear, and what is supplied realises its numbers' terms.
pub fn starts()
    ensures checked { CheckedStarts }
    ensures types { RealisedAreOfTypes }
    ensures met { UseIsLinear }
    ensures missed { TwiceIsNotLinear }
{}

/// The parts of a linear node are linear.
pub fn linear_parts()
    ensures body { BodyIsLinear }
    ensures one { PartIsLinear }
    ensures two { PartsAreLinear }
    ensures three { ChoicesAreLinear }
{}

/// A use of a number, wired to the plan of `skip`, is that plan, and not the one without its joint. The ties of
/// `skip` connect what fits in its plan, and not with a Seq in its Skip's place.
pub fn small_wirings()
    ensures met { UseIsWired }
    ensures missed { UnjoinedIsNotWired }
    ensures fits { SkipFits }
    ensures clashes { SeqDoesNotFit }
{}
