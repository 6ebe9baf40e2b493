// What the plan of a block does. Each theorem is the contract of a function that does nothing.
ghost use Rattle.gos_nodes.specs.blocks.Block.{
  ArrayBlockRealises,
  BlockIsRegular,
  BlockRealises,
  OpenBlockIsRegular,
  OpenBlockIsRestful,
};
ghost use Rattle.gos_nodes.specs.blocks.SmallServers.{
  ArrayIsServer,
  ArrayTypeIsNeeded,
  LocalIsServer,
  OthersAreNone,
  TypeIsNeeded,
  OpenIsNone,
};
ghost use Rattle.gos_nodes.specs.blocks.SmallBlocks.{
  LengthIsNeeded,
  NewArrayIsBlock,
  NewArrayIsRealised,
  NewSkipIsBlock,
  NewSkipIsRealised,
  OtherPartIsNot,
  ReadingIsBlock,
  VariableIsNeeded,
  WidthIsNeeded,
};

/// Where the body's plan is regular the whole is, with imports of any types; where it rests after its answer so does the whole;
/// and where it realises the body the whole realises the block.
pub fn blocks()
    ensures any { OpenBlockIsRegular }
    ensures restful { OpenBlockIsRestful }
    ensures regular { BlockIsRegular }
    ensures realises { BlockRealises }
    ensures array { ArrayBlockRealises }
{}

/// A local variable is a server of a variable, and an array one of an array of its length. Other parts in its place are none, nor
/// is it one of an expression, of a variable of another width, or with another answer; and none that has something open from the
/// start, or that never runs its body.
pub fn small_servers()
    ensures local { LocalIsServer }
    ensures others { OthersAreNone }
    ensures supply { TypeIsNeeded }
    ensures opened { OpenIsNone }
    ensures array { ArrayIsServer }
    ensures lengths { ArrayTypeIsNeeded }
{}

/// The plan of `new x : 1 in skip` is a block. Without an import for the variable, with a variable of another width, or with
/// another part in the place of the server it isn't. That of `new a[2] : 1 in skip` is one with an array of two numbers, and with no
/// other array. A block may leave the index unjoined at which it reads its array.
pub fn small_blocks()
    ensures block { NewSkipIsBlock }
    ensures realised { NewSkipIsRealised }
    ensures variable { VariableIsNeeded }
    ensures width { WidthIsNeeded }
    ensures other { OtherPartIsNot }
    ensures array { NewArrayIsBlock }
    ensures array_realised { NewArrayIsRealised }
    ensures length { LengthIsNeeded }
    ensures unjoined { ReadingIsBlock }
{}
