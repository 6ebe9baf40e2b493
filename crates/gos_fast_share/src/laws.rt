// What the definitions give. Each theorem is the contract of a function that does nothing.
ghost use Rattle.gos_fast_share.specs.Order.{OneTopTells, FastKeep, FastFit, FastKeepPaths};
ghost use Rattle.gos_fast_share.specs.SmallFast.{BranchFollows, CommandIsLaid, AnswerIsLaid, RequestsAreFirst, AnswerIsNotFirst, CommandKeeps, OtherOrderFails, FixedOrderFails, LastAnswerLoops};

/// The gates of a Share by order keep the laws at each type, where the ranks of its handshakes are those of the order that
/// they were made for, and in each order what is asked of paths. One number above all ranks tells whether they are.
pub fn fast_shares_keep()
    ensures keep { FastKeep }
    ensures fit { FastFit }
    ensures paths { FastKeepPaths }
    ensures top { OneTopTells }
{}

/// The branch follows the requests in their order. The gates of a command's Share are seven cells, and which branch its
/// source's answer goes by is told by the order. Where this answer comes last, a request leads on to what goes out to its
/// caller.
pub fn small_threads()
    ensures branch { BranchFollows }
    ensures laid { CommandIsLaid }
    ensures answer { AnswerIsLaid }
    ensures loops { LastAnswerLoops }
{}

/// The gates of a command's Share that are made for the order of the ranks keep the laws, and those made for another
/// order don't. One fixed order is wrong for a pair, which callers ask at two handshakes.
pub fn order_matters()
    ensures ranks { RequestsAreFirst }
    ensures other_ranks { AnswerIsNotFirst }
    ensures keep { CommandKeeps }
    ensures other { OtherOrderFails }
    ensures fixed { FixedOrderFails }
{}
