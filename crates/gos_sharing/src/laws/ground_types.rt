// What the definitions give. Each theorem is the contract of a function that does nothing.
ghost use Rattle.gos_sharing.specs.ground_types.Joints.{BufferedGroundIsRealised, GroundResultIsJoined, VariableIsJoined};
ghost use Rattle.gos_sharing.specs.ground_types.SmallJoints.{NamedIsJoined, OnlyReadIsNone, OnlyWrittenIsNone};

/// A plan that realises a variable has joints at both handshakes of its result.
pub fn variables()
    ensures { VariableIsJoined }
{}

/// So has one that realises a term of any ground type; and it realises the term behind a Share.
pub fn ground()
    ensures joined { GroundResultIsJoined }
    ensures buffered { BufferedGroundIsRealised }
{}

/// The plan of a named variable has both joints. Without either it realises no variable.
pub fn small_joints()
    ensures named { NamedIsJoined }
    ensures read { OnlyReadIsNone }
    ensures written { OnlyWrittenIsNone }
{}
