// What the plan of a name realises. Each theorem is the contract of a function that does nothing.
ghost use Rattle.gos_supplies.specs.names.Names.{NameIsRealised};
ghost use Rattle.gos_supplies.specs.names.SmallNames.{UnjoinedIsNone};
ghost use Rattle.gos_supplies.specs.names.Arrays.{ReadIsRealised, ReadIsRealisedByType, WriteIsRealised, WriteIsRealisedByType};
ghost use Rattle.gos_supplies.specs.names.SmallArrays.{IndexIsTold, WrittenIndexIsTold};

use super::progress::realisers;
use gos_plan::one_joining;
use gos_realises::laws::realises::alone;

/// The plan of a name of a ground type realises it: a command's, an expression's, and a variable's.
pub fn names()
    ensures { NameIsRealised }
{
    one_joining();
    alone();
}

/// The plan of a name without its joint doesn't realise it.
pub fn small_names()
    ensures { UnjoinedIsNone }
{
    realisers();
}

/// The plan that reads an array's import at a number is regular, and realises the read; so is that which writes a number there, and
/// realises the write. They do so by type, where the numbers fit their widths.
pub fn arrays()
    ensures read { ReadIsRealised }
    ensures read_by_type { ReadIsRealisedByType }
    ensures write { WriteIsRealised }
    ensures write_by_type { WriteIsRealisedByType }
{}

/// A plan that leaves an array's index unjoined doesn't realise an access of it: neither a read nor a write.
pub fn small_arrays()
    ensures read { IndexIsTold }
    ensures write { WrittenIndexIsTold }
{}
