// The ways in which plans are laid out.

/// A way to lay a plan out as a circuit.
#[derive(Debug, Clone, Copy)]
pub enum Layout {
    /// With few registers between parts, and a Share that holds the request that it passes on.
    Few,
    /// With few registers between parts and none in a Share, which is made for an order of its handshakes; and then made tidy.
    Fast,
}
