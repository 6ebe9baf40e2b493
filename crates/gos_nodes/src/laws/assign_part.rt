// What an assignment does. Each theorem is the contract of a function that does nothing.
ghost use Rattle.gos_nodes.specs.assign_part.Cuts.{CutsOfWrites, EndsOfWrites};
ghost use Rattle.gos_nodes.specs.assign_part.Elements.{ElementsOfWrites};
ghost use Rattle.gos_nodes.specs.assign_part.Sides.{RightSideMoves, RightSideWaits, WriteRuns};
ghost use Rattle.gos_nodes.specs.assign_part.SmallWrites.{LitDoesNotWrite, OneIsWritten, SevenBitsDoNotFit, UnjoinedDoesNotWrite};
ghost use Rattle.gos_nodes.specs.assign_part.Tables.{AssignsDo, WritesMove, WritesShow};

/// What an Assign does with each token is what its term does: it asks for the number, writes it, and ends when that is
/// answered. What passes at the variable's port is what the term shows.
pub fn tables_are_right()
    ensures fires { AssignsDo }
    ensures moves { WritesMove }
    ensures shows { WritesShow }
{}

/// What N does by itself it does in `M := N`, and where it can only wait the assignment can only wait. Where N comes to a
/// number, `x := N` writes it, waits, and answers.
pub fn right_sides()
    ensures moves { RightSideMoves }
    ensures waits { RightSideWaits }
    ensures runs { WriteRuns }
{}

/// Where a number is written at a port, what is done is a firing or an output of the region's, a firing of the part that
/// writes, the write, the answer, or an input.
pub fn elements_of_writes()
    ensures { ElementsOfWrites }
{}

/// What N's region makes of each of these: it is asked when the Assign is run, it answers when the Assign takes its number, and
/// of the write, of its answer and of the whole's run and answer it knows nothing.
pub fn cuts_of_writes()
    ensures ends { EndsOfWrites }
    ensures cuts { CutsOfWrites }
{}

/// The plan of `x := 8:1` is made of that of `8:1` and an Assign of eight bits. Another part, another width or a write that
/// leads nowhere is none.
pub fn small_writes()
    ensures written { OneIsWritten }
    ensures other { LitDoesNotWrite }
    ensures width { SevenBitsDoNotFit }
    ensures unjoined { UnjoinedDoesNotWrite }
{}
