// Pulses, as they come in and go out in one cycle.

/// What an event does in one cycle.
#[derive(Debug, Clone, Copy, PartialEq, Eq)]
pub struct Pulse {
    /// Whether it happens.
    pub on: bool,
    /// The number that comes with it; 0 where there is none.
    pub value: u64,
}
