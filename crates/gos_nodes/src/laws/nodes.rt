// What a node realises. Each theorem is the contract of a function that does nothing.
ghost use Rattle.gos_nodes.specs.nodes.Realised.{NodeIsMatched, NodeRealises, NodeRealisesByType, RealisersRest};
ghost use Rattle.gos_nodes.specs.nodes.SmallNodes.{OneStageIsNot, TwiceIsNode, TwiceIsRealised, TwoSkipsAreRealised};

/// The lists of a node are matched by its form's term, where the plans of its stages realise the terms of their sessions. So
/// the node realises the term.
pub fn nodes_realise()
    ensures matched { NodeIsMatched }
    ensures realised { NodeRealises }
    ensures by_type { NodeRealisesByType }
{}

/// A plan that realises a term of a command or an expression rests after its answer.
pub fn realisers_rest()
    ensures { RealisersRest }
{}

/// The plan of `skip ; skip` is a node of two stages, and so it realises its term; with one stage it is no node.
pub fn small_nodes()
    ensures node { TwiceIsNode }
    ensures one { OneStageIsNot }
    ensures stages { TwoSkipsAreRealised }
    ensures whole { TwiceIsRealised }
{}
