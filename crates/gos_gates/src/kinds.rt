// What bits of a cell are laid as: the kinds of steps from its least bit to its greatest one.

/// How a bit of a cell comes of the bits of its pins, and of what the bits before it hand on.
#[derive(Debug, Clone, Copy)]
pub enum Kind {
    /// Both are 1.
    And,
    /// Either is 1.
    Or,
    /// The first is 1, where what is handed on is.
    Gate,
    /// They differ.
    Xor,
    /// The first where what is handed on is 1, else the second.
    Mux,
    /// Their sum; the carry is handed on.
    Add,
    /// The same, with the second one turned.
    Sub,
    /// Whether all bits so far are equal is handed on.
    Eq,
    /// Whether the first number is less so far is handed on.
    Less,
}
