// What the definitions give. Each theorem is the contract of a function that does nothing.
ghost use Rattle.gos_joining.specs.webs.Webs.{SameWaysSamePlan, RightIsOfItsWeb};
ghost use Rattle.gos_joining.specs.webs.Renumbering.{RenumberedBack, DoesIsMoved, RunsIsMoved, QuietIsMoved};
ghost use Rattle.gos_joining.specs.webs.Cutting.{CutListIs, IdleIsCut, ElementIsCut, ListIsCut};
ghost use Rattle.gos_joining.specs.webs.SmallWebs.{UnjoinedIsNot, SwapIsRenumbering, SwapIsSeen, FirstIsCut, WrongIsNoCut, FirstIsOnce};

/// A web that connects the same ends has the same plans. A right plan is the plan of the web of its own joints.
pub fn plans_of_webs()
    ensures same { SameWaysSamePlan }
    ensures own { RightIsOfItsWeb }
{}

/// Renumbering back is renumbering.
pub fn renumbered_back()
    ensures { RenumberedBack }
{}

/// What a plan does, a renumbered plan does with the new numbers.
pub fn lists_are_renumbered()
    ensures element { DoesIsMoved }
    ensures list { RunsIsMoved }
    ensures quiet { QuietIsMoved }
{}

/// What the whole does, a region does. What is idle in the whole is idle in a region.
pub fn lists_are_cut()
    ensures element { ElementIsCut }
    ensures list { ListIsCut }
    ensures one { CutListIs }
    ensures idle { IdleIsCut }
{}

/// Of the plan of `skip ; skip`: without its joints it isn't of its web; its Skips change their numbers; and the first of
/// them, cut out, is the plan of `skip`.
pub fn small_webs()
    ensures unjoined { UnjoinedIsNot }
    ensures swap { SwapIsRenumbering }
    ensures seen { SwapIsSeen }
    ensures first { FirstIsCut }
    ensures wrong { WrongIsNoCut }
    ensures once { FirstIsOnce }
{}
