// What the definitions give. Each theorem is the contract of a function that does nothing.
ghost use Rattle.gos_terms.specs.regions.Blocks.{ArrayBlockIsWired, BlockIsWired};
ghost use Rattle.gos_terms.specs.regions.Frames.{ParallelIsWired, RegionIsCut};
ghost use Rattle.gos_terms.specs.regions.Spans.{TiesSpan};
ghost use Rattle.gos_terms.specs.regions.SmallFrames.{GroundNameIsNone, NotOfParts, OtherIsNotBound, PortsHaveNames, SharedIsNotParted, TornIsNotKept, UseIsBound, UseSpeaksOfIt, UsesAreParted, WholeIsKept};

/// The ties of a term speak of its own parts, nodes and numbers, and of where its handshakes lead.
pub fn spans()
    ensures { TiesSpan }
{}

/// A region without Shares is cut.
pub fn regions_are_cut()
    ensures { RegionIsCut }
{}

/// A node `m || n` that is wired to supplies is made of its sides, each wired to the supplies of its own numbers.
pub fn parallel_sides()
    ensures { ParallelIsWired }
{}

/// A node `new x : w in m` that is wired to supplies is made of its body, wired to them and to a name for x. So is a node
/// `new a[n] : w in m`, with a name for a.
pub fn block_bodies()
    ensures one { BlockIsWired }
    ensures array { ArrayBlockIsWired }
{}

/// Two uses of two numbers have one each, and two of one number don't. A use of the bound number is bound, and that of
/// another one isn't. The ties of a use speak of its number, and of no part. Names of a variable and of an array have the plan of a
/// name, and the plan that joins an array's index as a variable is joined isn't one.
/// A region keeps an import of which all ends lead to one of the whole's, and not one of which one leads to a part.
pub fn small_frames()
    ensures parted { UsesAreParted }
    ensures shared { SharedIsNotParted }
    ensures bound { UseIsBound }
    ensures unbound { OtherIsNotBound }
    ensures spoken { UseSpeaksOfIt }
    ensures unspoken { NotOfParts }
    ensures named { PortsHaveNames }
    ensures unnamed { GroundNameIsNone }
    ensures whole { WholeIsKept }
    ensures torn { TornIsNotKept }
{}
