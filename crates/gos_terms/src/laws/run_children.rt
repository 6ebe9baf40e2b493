// The branches of a node that runs them one at a time. Each theorem is the contract of a function that does nothing.
ghost use Rattle.gos_terms.specs.run_children.Forks.{BranchIsChild, BranchHasParts};
ghost use Rattle.gos_terms.specs.run_children.Forms.{ChoiceIsFork, ComplementIsFork, LoopIsFork, OperatorIsFork, SequenceIsFork};
ghost use Rattle.gos_terms.specs.run_children.Pairs.{SidesAreChildren, SidesHaveParts};
ghost use Rattle.gos_terms.specs.run_children.SmallForks.{BothAreBranches, NoneIsLeft, OneIsNotAll, ZeroIsLeft};

/// A branch of a wired fork is a child of it, and has its parts among the node's.
pub fn branches_are_children()
    ensures child { BranchIsChild }
    ensures parts { BranchHasParts }
{}

/// Both sides of a pair are children of its node, whose handshakes lead to those of its result.
pub fn pair_sides()
    ensures children { SidesAreChildren }
    ensures parts { SidesHaveParts }
{}

/// `;`, a choice, a loop, an operator and `not` are forks.
pub fn forms_are_forks()
    ensures sequence { SequenceIsFork }
    ensures choice { ChoiceIsFork }
    ensures repeat { LoopIsFork }
    ensures operator { OperatorIsFork }
    ensures complement { ComplementIsFork }
{}

/// `skip ; skip` is a fork of two branches, and not of one; where a number is there that neither has, it is left.
pub fn small_forks()
    ensures both { BothAreBranches }
    ensures one { OneIsNotAll }
    ensures none { NoneIsLeft }
    ensures left { ZeroIsLeft }
{}
