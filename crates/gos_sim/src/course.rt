// How a cycle is run.

/// How much of it is evaluated.
#[derive(Clone, Copy)]
pub enum Course {
    /// Nothing: the values stand still.
    Rest,
    /// What hangs on what changed.
    Few,
    /// All.
    All,
}
