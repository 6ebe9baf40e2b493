// What the name of an array's import realises. Each theorem is the contract of a function that does nothing.
ghost use Rattle.gos_supplies.specs.arrays.ArrayNames.{ArrayNameIsName, ArrayNameIsOpen, ArrayNameIsRealised};
ghost use Rattle.gos_supplies.specs.arrays.Accessed.{AccessIsRealised, AccessIsRegular};
ghost use Rattle.gos_supplies.specs.arrays.Indices.{AccessWaits, IndexEnds, IndexMoves, IndexWaits};
ghost use Rattle.gos_supplies.specs.arrays.SmallAccesses.{FirstIsAccess, LeftIsNoAccess, LeftIsNoRead};
ghost use Rattle.gos_supplies.specs.arrays.Written.{WritingIsRealised, WritingIsSupplied};
ghost use Rattle.gos_supplies.specs.arrays.Writers.{UnjoinedDoesNotWrite, UnjoinedIsNoWriter, WriterIsRealised, WriterWrites};

use gos_plan::one_joining;
use gos_realises::laws::realises::alone;

/// The index of an access does within it what it does by itself, and where it can only wait the access can only wait.
pub fn indices()
    ensures moves { IndexMoves }
    ensures waits { IndexWaits }
    ensures between { AccessWaits }
    ensures ends { IndexEnds }
{}

/// A plan that is made of that of an access of a variable and that of an index is regular where the plan of the index is, and realises
/// the access of the array at the index, read or written, where that plan realises the index.
pub fn accesses()
    ensures regular { AccessIsRegular }
    ensures realised { AccessIsRealised }
{}

/// The plan of `a 0:1 := 5:8` is an access of the array a. One that leaves the number of the index unjoined is none, nor is such a plan
/// of `! (a 0:1)`.
pub fn small_accesses()
    ensures written { FirstIsAccess }
    ensures unwritten { LeftIsNoAccess }
    ensures unread { LeftIsNoRead }
{}

/// The plan of the name of an array's import is that of a name, and realises it at its type: joined to any plan of an index that
/// realises a term, and then read or written, it realises the access of the array at that term. Joined to what is put in for the
/// array it is that.
pub fn array_names()
    ensures name { ArrayNameIsName }
    ensures realised { ArrayNameIsRealised }
    ensures supplied { ArrayNameIsOpen }
{}

/// The plan that writes a number to a variable, with supplies, is one but for numbers with the supplied plan of the variable, written.
/// So it realises the assignment, with any supplies, where the plan of the variable realises that.
pub fn writings()
    ensures supplied { WritingIsSupplied }
    ensures realised { WritingIsRealised }
{}

/// The plan of `fun g : exp 1 -> var 8 . g 0:1 := 5:8` realises the function; so, applied to the name of an array, it writes there.
/// Without the joint at the number of the index it doesn't, and so it doesn't realise the function.
pub fn writers()
    ensures realised { WriterIsRealised }
    ensures writes { WriterWrites }
    ensures unjoined { UnjoinedDoesNotWrite }
    ensures none { UnjoinedIsNoWriter }
{
    one_joining();
    alone();
}
