// What the definitions give. Each theorem is the contract of a function that does nothing.
ghost use Rattle.gos_terms.specs.branches.Covers.{BranchesCover};
ghost use Rattle.gos_terms.specs.branches.SmallCovers.{NoneIsLeftOut, NoneIsTwice, OneIsItsChild};

use super::run_children::branches_are_children;

/// Each end of a wired fork is a branch's, but for those at which it is run; so is each part but for its own.
pub fn branches_cover()
    ensures { BranchesCover }
{
    branches_are_children();
}

/// One branch has one child; a branch without one isn't covered, and one child isn't two branches'.
pub fn small_covers()
    ensures one { OneIsItsChild }
    ensures left_out { NoneIsLeftOut }
    ensures twice { NoneIsTwice }
{}
