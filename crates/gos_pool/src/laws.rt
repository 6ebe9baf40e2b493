// What the definitions say. Each theorem is the contract of a function that does nothing.
ghost use Rattle.gos_pool.specs.Marks.{MarksStay};

/// As long as a pool only grows, it can be cut back to the marks that were made.
pub fn marks_stay()
    ensures { MarksStay }
{}
