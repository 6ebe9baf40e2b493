// What the definitions give. Each theorem is the contract of a function that does nothing.
ghost use Rattle.gos_supplies.specs.unfoldings.Functions.{FunctionIsRealised};
ghost use Rattle.gos_supplies.specs.unfoldings.Heads.{HeadIsRealised};
ghost use Rattle.gos_supplies.specs.unfoldings.Pairs.{BothIsOpen, BothIsRealised, FirstOfBothIsRealised, SecondOfBothIsRealised};
ghost use Rattle.gos_supplies.specs.unfoldings.SmallHeads.{ArgumentUnfolds, BelowUnfolds, FunctionIsNoHead, InsideIsNoHead, UnfoldedIsRealised};
ghost use Rattle.gos_supplies.specs.unfoldings.SmallPairs.{SideIsNumber, SideIsSkip};
ghost use Rattle.gos_supplies.specs.unfoldings.SmallSuits.{NumberSuitsNot, SkipSuits};

/// A plan realises a term, at any type, where it realises what the term's head unfolds to.
pub fn heads()
    ensures { HeadIsRealised }
{}

/// `(fun a : com . a) skip` is a head, and so is one below another; a function alone is none, and neither is a sequence
/// with a head inside. The plan of `skip` realises `(fun a : com . a) skip`.
pub fn small_heads()
    ensures argument { ArgumentUnfolds }
    ensures below { BelowUnfolds }
    ensures function { FunctionIsNoHead }
    ensures inside { InsideIsNoHead }
    ensures realised { UnfoldedIsRealised }
{}

/// The plan of a function realises it, with any supplies, where it suits it and the plan of its body realises the body.
pub fn functions()
    ensures { FunctionIsRealised }
{}

/// The plan of `skip` suits `skip`, and no number.
pub fn small_suits()
    ensures skip { SkipSuits }
    ensures number { NumberSuitsNot }
{}

/// The plan of a pair realises it where its sides realise those of the pair, with no supplies and with any.
pub fn pairs()
    ensures first { FirstOfBothIsRealised }
    ensures second { SecondOfBothIsRealised }
    ensures both { BothIsRealised }
    ensures supplied { BothIsOpen }
{}

/// The plan of `skip` realises the first side of `(skip, 0)`, but not the second.
pub fn small_pairs()
    ensures skip { SideIsSkip }
    ensures number { SideIsNumber }
{}
