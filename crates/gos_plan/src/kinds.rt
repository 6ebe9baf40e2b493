// The kinds of parts, and the handshakes of each.

use gos_types::Ty;

/// What an operator computes.
#[derive(Debug, Clone, Copy, PartialEq, Eq)]
pub enum Op2 {
    /// The sum, without its carry.
    Add,
    /// The difference, without its borrow.
    Sub,
    /// The bits that both have.
    And,
    /// The bits that either has.
    Or,
    /// The bits that one of both has.
    Xor,
    /// 1 where both are equal, else 0.
    Eq,
    /// 1 where the first is below the second, else 0.
    Less,
}

/// A kind of parts. Widths are 1 to 64.
#[derive(Debug, Drop)]
pub enum Kind {
    /// Is done at once.
    Skip,
    /// Answers `k`, of `w` bits.
    Lit { w: u32, k: u64 },
    /// Runs one command and then another.
    Seq,
    /// Runs a command, and then asks for a number of `w` bits.
    SeqExp { w: u32 },
    /// Runs two commands, and is done when both are.
    Par,
    /// Asks for a test, and runs one of two commands.
    If,
    /// Asks for a test, and then for one of two numbers of `w` bits.
    IfExp { w: u32 },
    /// Asks for a test, and runs a command and asks again, as long as it is 1.
    While,
    /// Asks for two numbers of `w` bits, the left one first, and answers what the operator computes.
    Op { op: Op2, w: u32 },
    /// Asks for a number of `w` bits, and answers it with all bits turned.
    Not { w: u32 },
    /// Asks for a number of `w` bits, and writes it.
    Assign { w: u32 },
    /// Reads a variable of `w` bits.
    Deref { w: u32 },
    /// Keeps a number of `w` bits while it runs its body: a command where `v` is 0, else an expression of `v` bits.
    Local { w: u32, v: u32 },
    /// Keeps `n` numbers of `w` bits, 2, 4, 8 or 16, while it runs its body as a `Local` does. It asks for an index at each access.
    Array { w: u32, n: u32, v: u32 },
    /// Lets two callers share a source of this type.
    Share(Ty),
}
