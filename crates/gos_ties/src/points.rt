// Points, and what is tied to what.

/// What has handshakes: a part, an import or the result of a plan; or a place inside, of either of two sorts.
#[derive(Debug, Clone, Copy, PartialEq, Eq, Hash)]
pub enum Place {
    Part(u32),
    Import(u32),
    Result,
    Number(u32),
    Node(u32),
}

/// A handshake of a place.
#[derive(Debug, Clone, Copy, PartialEq, Eq, Hash)]
pub struct Point {
    pub place: Place,
    pub shake: u32,
}

/// Two points that meet.
#[derive(Debug, Clone, Copy, PartialEq, Eq)]
pub struct Tie {
    pub one: Point,
    pub other: Point,
}
