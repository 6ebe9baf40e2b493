// The labels of a trace, as numbers.

/// What the outside sees: an event of a port of the program.
#[derive(Debug, Clone, Copy, PartialEq, Eq)]
pub struct Label {
    /// The number of the port: 0 is the root's, the others are those of the open imports.
    pub port: u32,
    /// The place of the event among those of its port.
    pub place: u32,
    /// Its value; 0 where the event has none.
    pub value: u64,
}
