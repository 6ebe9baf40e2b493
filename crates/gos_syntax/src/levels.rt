// The items of one bracket, as the depth of a text counts them.

// The items that stand in a bracket that is still open, or in none.
#[derive(Clone, Copy)]
pub(crate) struct Level {
    // How many there are.
    pub items: usize,
    // The greatest depth of a closed pair among them.
    pub deepest: usize,
}
