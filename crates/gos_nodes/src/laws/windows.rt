// What the definitions give. Each theorem is the contract of a function that does nothing.
ghost use Rattle.gos_nodes.specs.windows.Closing.{IdleIsClosed, OpenIdleIsClosed};
ghost use Rattle.gos_nodes.specs.windows.Keeping.{TurnsKeepProtocol};
ghost use Rattle.gos_nodes.specs.windows.Nodes.{NodeIsRegular, NodeKeepsTurns};
ghost use Rattle.gos_nodes.specs.windows.OpenNodes.{GroundNodeIsOpen, OpenNodeIsRegular};
ghost use Rattle.gos_nodes.specs.windows.SmallNodes.{CallIsLoyal, CallIsRegion, DeafIsNone, OneIsMissing, SharedForBoth, TwiceIsNode, TwiceIsOpen, WrongSideIsNone};
ghost use Rattle.gos_nodes.specs.windows.Windows.{ListsAreStaged, OwnPartCan, QuietIsWithin};

/// Inputs that keep turns keep the protocol.
pub fn turns_keep_protocol()
    ensures { TurnsKeepProtocol }
{}

/// Where an orderly list leads from an idle state to an idle state, no handshake is open but what ports asked; with ground
/// imports, perhaps the result's.
pub fn idle_is_closed()
    ensures ground { IdleIsClosed }
    ensures any { OpenIdleIsClosed }
{}

/// From the request of a child to its answer, what a node does is a list of the child's, from an idle state of it. Where
/// the whole is quiet the child is quiet too, and the own part and the answer never wait.
pub fn lists_of_nodes()
    ensures staged { ListsAreStaged }
    ensures quiet { QuietIsWithin }
    ensures own { OwnPartCan }
{}

/// A node is regular, and rests after its answer: its lists are orderly, and its outputs keep turns.
pub fn nodes_are_regular()
    ensures turns { NodeKeepsTurns }
    ensures regular { NodeIsRegular }
{}

/// A node whose imports may have any types is regular, and rests after its answer. One with ground imports is such a node.
pub fn open_nodes_are_regular()
    ensures regular { OpenNodeIsRegular }
    ensures of_ground { GroundNodeIsOpen }
{}

/// The plan of `skip ; skip` is a node of two stages, and with one of them left out it is none. A child that asks a
/// function, and lacks the end at which this asks for its argument, is no stage. A Share by which both children use one
/// source is loyal to neither.
pub fn small_nodes()
    ensures node { TwiceIsNode }
    ensures open_node { TwiceIsOpen }
    ensures deaf { DeafIsNone }
    ensures missing { OneIsMissing }
    ensures both { SharedForBoth }
{}

/// The first child of `c ; c`, with the Share for its supply, is a region, and none where the Share is said to serve it as
/// its second caller. The Share is loyal to it there.
pub fn small_regions()
    ensures region { CallIsRegion }
    ensures wrong { WrongSideIsNone }
    ensures loyal { CallIsLoyal }
{}
