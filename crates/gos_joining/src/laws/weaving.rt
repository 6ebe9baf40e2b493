// What the definitions give. Each theorem is the contract of a function that does nothing.
ghost use Rattle.gos_joining.specs.weaving.Woven.{WebHasPlan, ThinIsPlain};
ghost use Rattle.gos_joining.specs.weaving.Flows.{FairFits, AskedIsFair, AskingIsUnfair};
ghost use Rattle.gos_joining.specs.weaving.SmallWoven.{NumberedIsThin, NumberedIsPlain, ForkedIsNotThin, ForkedIsNotPlain, ForkedHasNoPlan};

/// A web has a plan, if what it connects fits and it connects each end to one other end at most.
pub fn webs_have_plans()
    ensures { WebHasPlan }
{}

/// A thin web connects each end to one other end at most.
pub fn thin_webs_are_plain()
    ensures { ThinIsPlain }
{}

/// A Skip by way of a number is a thin web. If two Skips meet the number, it isn't, and it has no plan.
pub fn small_webs_have_plans()
    ensures thin { NumberedIsThin }
    ensures plain { NumberedIsPlain }
    ensures not_thin { ForkedIsNotThin }
    ensures not_plain { ForkedIsNotPlain }
    ensures no_plan { ForkedHasNoPlan }
{}

/// What fair flows connect fits. The one tie of the plan of `skip` is one if the Skip is asked, and not if it asks.
pub fn fair_flows_fit()
    ensures fits { FairFits }
    ensures fair { AskedIsFair }
    ensures unfair { AskingIsUnfair }
{}
