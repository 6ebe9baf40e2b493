// What the definitions give for every build file and every build. Each theorem is the contract of a function that does nothing.

ghost use Rattle.gos_link.specs.Answers.{BuildHasNoWrongLine, HasOneFault, HasOneWrongLine, IsOneBuild, JointsAreFew, LinkedHasNoFault, LinkedIsOne};
ghost use Rattle.gos_link.specs.Faces.{FaultsAreOfFaces, LinksAreOfFaces, LinksAreOne, LinksHaveNoFault};
ghost use Rattle.gos_link.specs.SmallLinks.{ImportIsNotGround, IsBoundTwice, IsLoop, IsOpenTwice, IsUnplaced, IsUsedTwice, NoGiver, NoRoot, NoSuchImport, NoUser, OneIsServed, ResultIsNotGround, TypesDiffer};
ghost use Rattle.gos_link.specs.SmallOrders.{FirstComesFirst, SecondIsNotFirst};

use gos_plan::one_joining;

/// A text is one build at most, or has one first wrong line, and not both.
pub fn one_build()
    ensures build { IsOneBuild }
    ensures wrong_line { HasOneWrongLine }
    ensures either { BuildHasNoWrongLine }
{}

/// A build has one linked plan at most, or one fault, and not both.
pub fn one_answer()
    ensures linked { LinkedIsOne }
    ensures fault { HasOneFault }
    ensures either { LinkedHasNoFault }
{
    one_joining();
}

/// The joining of a build's plans has no more joints than these have together.
pub fn few_joints()
    ensures { JointsAreFew }
{}

/// Of two plans that are joined the joints at which the first asks come first.
pub fn small_orders()
    ensures first { FirstComesFirst }
    ensures second { SecondIsNotFirst }
{}

/// What a build is judged by before its weight is of each plan the imports and the type of the result. It has links or a fault, and
/// not both.
pub fn one_face()
    ensures links { LinksAreOfFaces }
    ensures fault { FaultsAreOfFaces }
    ensures either { LinksHaveNoFault }
    ensures one { LinksAreOne }
{
    one_joining();
}

/// A small build whose links are right, and one for each fault of links.
pub fn small_links()
    ensures served { OneIsServed }
    ensures user { NoUser }
    ensures giver { NoGiver }
    ensures import { NoSuchImport }
    ensures types { TypesDiffer }
    ensures bound { IsBoundTwice }
    ensures used { IsUsedTwice }
    ensures ring { IsLoop }
    ensures root { NoRoot }
    ensures unplaced { IsUnplaced }
    ensures names { IsOpenTwice }
    ensures result { ResultIsNotGround }
    ensures higher { ImportIsNotGround }
{}
