// What the definitions give. Each theorem is the contract of a function that does nothing.
ghost use Rattle.gos_terms.specs.stages.Inside.{InsideIsOfTypes, InsideIsOrdered, InsideIsRealised, InsideMeans, OthersStay, RealisedAreOrdered};
ghost use Rattle.gos_terms.specs.stages.InsideRegular.{InsideIsRegular, PassingIsRegularOf};
ghost use Rattle.gos_terms.specs.stages.Covering.{LiveIsCovered, OwnIsCovered, ServedIsCovered};
ghost use Rattle.gos_terms.specs.stages.Folded.{ChildIsFolded, ChildIsPart};
ghost use Rattle.gos_terms.specs.stages.Folding.{ChildStays, ChildWays};
ghost use Rattle.gos_terms.specs.stages.Housing.{FarIsNothing, FirstIsKept, HomesAreThere, ImportsAreFrom, PartsAreFrom, PartsAreOutsiders};
ghost use Rattle.gos_terms.specs.stages.Leading.{DotsLead, ResultLeads, TiesFollow};
ghost use Rattle.gos_terms.specs.stages.Lodging.{HomesAreKept, JointsAreWays, LodgedAreInside, NumbersAreAtHome, NumbersAreHeld, SpotsAreLive};
ghost use Rattle.gos_terms.specs.stages.Nodes.{StagesMakeNode};
ghost use Rattle.gos_terms.specs.stages.Ranges.{TiesStayWithin};
ghost use Rattle.gos_terms.specs.stages.Regions.{ChildIsStaged};
ghost use Rattle.gos_terms.specs.stages.Served.{ServingsServe, SparesAreOthers};
ghost use Rattle.gos_terms.specs.stages.Seated.{ServedIsLoyal, SuppliesAreSeated};
ghost use Rattle.gos_terms.specs.stages.Stages.{ChildIsStage, ServingsAreLoyal};
ghost use Rattle.gos_terms.specs.stages.SmallLeads.{LeadsStand, TwiceIsNotDistinct, TwoAreDistinct};
ghost use Rattle.gos_terms.specs.stages.SmallInside.{BothHaveShares, EmptyIsNone, UnboundIsNotSplit};

/// Inside the splits of a node, what stands for its numbers has their types, is regular, and realises the terms that they
/// stand for there.
pub fn supplies_inside()
    ensures types { InsideIsOfTypes }
    ensures ordered { InsideIsOrdered }
    ensures are_ordered { RealisedAreOrdered }
    ensures realised { InsideIsRealised }
    ensures means { InsideMeans }
    ensures others { OthersStay }
{
    gos_sharing::laws::pair_types::passing();
}

/// A plan of any type that is regular and rests is such behind a Share; so supplies that are such are so inside splits.
pub fn regular_inside()
    ensures passing { PassingIsRegularOf }
    ensures inside { InsideIsRegular }
{}

/// Inside a split of `skip` both sides stand for it behind a Share. A number that nothing stands for isn't split; a plan
/// without joints is no supply.
pub fn small_insides()
    ensures both { BothHaveShares }
    ensures unbound { UnboundIsNotSplit }
    ensures empty { EmptyIsNone }
{
    gos_sharing::laws::ground_types::ground();
}

/// The ties of a term whose handshakes lead elsewhere are those that lead to a result, with other points in its place.
pub fn ties_lead()
    ensures follow { TiesFollow }
    ensures leads { ResultLeads }
    ensures dots { DotsLead }
    ensures within { TiesStayWithin }
{}

/// What stands for numbers inside splits lies in the web of the node: the ties of Shares and of supplies connect what its
/// plans do.
pub fn supplies_lodge()
    ensures inside { LodgedAreInside }
    ensures kept { HomesAreKept }
    ensures held { NumbersAreHeld }
    ensures home { NumbersAreAtHome }
    ensures ways { JointsAreWays }
    ensures live { SpotsAreLive }
{}

/// The ties of a child's web are ways of its node's, and those of the node's web that concern the child are ways of its own.
pub fn children_fold()
    ensures ways { ChildWays }
    ensures stays { ChildStays }
    ensures part { ChildIsPart }
    ensures folded { ChildIsFolded }
    ensures staged { ChildIsStaged }
    ensures stage { ChildIsStage }
{}

/// A handshake to which one of a child leads stands for that one; no two lead to one.
pub fn small_leads()
    ensures stand { LeadsStand }
    ensures two { TwoAreDistinct }
    ensures twice { TwiceIsNotDistinct }
{}

/// The parts and imports of what stands for numbers inside splits are parts of the node and of supplies outside, and what is
/// at home there is one of its parts.
pub fn parts_lodge()
    ensures from { PartsAreFrom }
    ensures imports { ImportsAreFrom }
    ensures outsiders { PartsAreOutsiders }
    ensures there { HomesAreThere }
    ensures far { FarIsNothing }
    ensures first { FirstIsKept }
{}

/// The Shares that serve a child stand for what its supplies have of them, and what serves somebody else is spare.
pub fn shares_serve()
    ensures serve { ServingsServe }
    ensures others { SparesAreOthers }
{}

/// What stands for a number lies in what is wired to it, up to its result. So the Shares that serve a child are loyal to it, at
/// any type.
pub fn shares_are_loyal()
    ensures seated { SuppliesAreSeated }
    ensures served { ServedIsLoyal }
    ensures loyal { ServingsAreLoyal }
{}

/// A wired node whose children cover it is a node of their stages.
pub fn stages_make_nodes()
    ensures { StagesMakeNode }
{}

/// A child covers the supplies of its live numbers, its own parts, and what its Shares do for it.
pub fn children_cover()
    ensures live { LiveIsCovered }
    ensures served { ServedIsCovered }
    ensures own { OwnIsCovered }
{}
