// What the definitions give. Each theorem is the contract of a function that does nothing.
ghost use Rattle.gos_sharing.specs.buffers.Buffers.{WorksForOne, BufferedIsRegular, BufferedRealises, BuffersAreLoyal};
ghost use Rattle.gos_sharing.specs.buffers.Buffering.{LoosePartIsFree, BufferedIsBuffer, BufferedIsJoined, GroundIsBuffered};
ghost use Rattle.gos_sharing.specs.buffers.SmallBuffers.{BothAreNone, EmptyIsUnjoined, FirstIsBuffer, FirstIsLoyal, SecondIsNone, SecondIsNotLoyal, SharedIsBuffered, SharedIsRealised, UnsourcedIsNone};

/// A Share of which one caller alone is joined works for that caller, and is loyal to it.
pub fn callers()
    ensures works { WorksForOne }
    ensures loyal { BuffersAreLoyal }
{}

/// Before a regular plan it is regular.
pub fn order()
    ensures { BufferedIsRegular }
{}

/// It realises what the plan behind it realises.
pub fn realising()
    ensures { BufferedRealises }
{}

/// A part that stands in no joint does nothing.
pub fn loose_parts()
    ensures { LoosePartIsFree }
{}

/// A plan behind a Share is a buffer, and realises what the plan realises: a command, an expression or a variable.
pub fn plans_of_buffers()
    ensures buffer { BufferedIsBuffer }
    ensures realises { GroundIsBuffered }
{}

/// The plan behind a Share is the joining of that plan with the Share.
pub fn joined_buffers()
    ensures { BufferedIsJoined }
{}

/// A Share before the plan of `skip` is a buffer for its first caller, loyal to it, and realises `skip`; for its second
/// it is none, and not loyal. It is none where both callers are joined, or where its source is not.
pub fn small_buffers()
    ensures shared { SharedIsBuffered }
    ensures first { FirstIsBuffer }
    ensures loyal { FirstIsLoyal }
    ensures realised { SharedIsRealised }
    ensures second { SecondIsNone }
    ensures disloyal { SecondIsNotLoyal }
    ensures both { BothAreNone }
    ensures unsourced { UnsourcedIsNone }
    ensures empty { EmptyIsUnjoined }
{}
