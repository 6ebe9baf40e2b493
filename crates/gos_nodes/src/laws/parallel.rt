// What the plan of `M || N` does. Each theorem is the contract of a function that does nothing.
ghost use Rattle.gos_nodes.specs.parallel.Parallel.{OpenParallelIsRegular, OpenParallelIsRestful, ParallelIsRegular, ParallelRealises};
ghost use Rattle.gos_nodes.specs.parallel.SmallParallel.{CallAndSkipIsParallel, CallAndSkipRealises, SkipIsNotLeft, SkipIsNotBoth, OtherPartIsNot};

/// Where the regions' plans are regular the whole is, with imports of any types; where they rest after their answers so
/// does the whole; and where they realise M and N it realises `M || N`.
pub fn parallel()
    ensures any { OpenParallelIsRegular }
    ensures restful { OpenParallelIsRestful }
    ensures regular { ParallelIsRegular }
    ensures realises { ParallelRealises }
{}

/// The plan of `c || skip` is made of those of `c` and of `skip`, and so it realises it. With the sides changed, with one
/// region for both, or with another part for that of `||` it isn't.
pub fn small_parallel()
    ensures parallel { CallAndSkipIsParallel }
    ensures realises { CallAndSkipRealises }
    ensures left { SkipIsNotLeft }
    ensures both { SkipIsNotBoth }
    ensures other { OtherPartIsNot }
{}
