// What the definitions give. Each theorem is the contract of a function that does nothing.
ghost use Rattle.gos_nodes.specs.assignments.Assignments.{AssignmentIsRealised};
ghost use Rattle.gos_nodes.specs.assignments.Realised.{WriteRealises, WriteRealisesByType};
ghost use Rattle.gos_nodes.specs.assignments.SmallWrites.{ArgumentIsAsked, LitIsNone, OneIsAssigned, OneIsWritten, OutcomeIsNotAsked, ReadIsDropped, ReadIsNoSession, ReadStageIsNone, SevenBitsAreNone, StageIsMissing, WriteIsSession};
ghost use Rattle.gos_nodes.specs.assignments.Variables.{LoneWriteIsSession};
ghost use Rattle.gos_nodes.specs.assignments.Written.{JoinedIsLoneWrite, NumberIsAsked, UnreadIsRegular, VariableIsWritten};
ghost use Rattle.gos_nodes.specs.assignments.Windows.{AssignCan, QuietIsWithin, WritesAreStaged};
ghost use Rattle.gos_nodes.specs.assignments.Writes.{WriteIsRegular};

/// From the request of N to its answer, and from the write to its answer, what the plan does is a list of that stage's,
/// from an idle state of it. Where the whole is quiet the stage is quiet too, and the Assign and the answer never wait.
pub fn writes()
    ensures staged { WritesAreStaged }
    ensures quiet { QuietIsWithin }
    ensures own { AssignCan }
{}

/// The plan of `M := N` is regular, and rests after its answer.
pub fn writes_are_regular()
    ensures { WriteIsRegular }
{}

/// It realises `M := N` where the stage of N realises N, and where M's stage does what `M := k` does, for each number k.
pub fn writes_realise()
    ensures realises { WriteRealises }
    ensures by_type { WriteRealisesByType }
{}

/// Where a plan realises the variable M, the plan without the joint by which it is read is what the stage of M has to be: regular
/// where it is written, at rest after each write, and it does what `M := k` does where it is written with k.
pub fn variables()
    ensures unread { UnreadIsRegular }
    ensures joined { JoinedIsLoneWrite }
    ensures lone { LoneWriteIsSession }
    ensures written { VariableIsWritten }
{}

/// A plan that realises the expression N is what the stage of N has to be.
pub fn numbers()
    ensures { NumberIsAsked }
{}

/// The plan of `M := N` realises it, and rests after its answer, where the plans of N and of M realise these.
pub fn assignments()
    ensures { AssignmentIsRealised }
{}

/// The plan of `x := 8:1` is a write of two stages, if these are regular. It is none of seven bits, none by the Lit, and none
/// without the stage of x. Of the plan of x one joint is left where it isn't read; and what a session of it is, and is not. It is
/// an assignment to x, but not with the joint by which x is read. The surroundings ask at the argument of a function that is imported,
/// and not at its outcome.
pub fn small_writes()
    ensures met { OneIsWritten }
    ensures bits { SevenBitsAreNone }
    ensures part { LitIsNone }
    ensures missing { StageIsMissing }
    ensures unread { ReadIsDropped }
    ensures session { WriteIsSession }
    ensures no_session { ReadIsNoSession }
    ensures assigned { OneIsAssigned }
    ensures read { ReadStageIsNone }
    ensures argument { ArgumentIsAsked }
    ensures outcome { OutcomeIsNotAsked }
{}
