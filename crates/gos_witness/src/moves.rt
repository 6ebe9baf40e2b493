// Lines that explain a trace, as values.
ghost use Rattle.std.specs.Prelude.{◌≡◌};
ghost use Rattle.std.specs.List.{AllByRecursion};
ghost use Rattle.gos_witness.specs.Paths.{IsChild};

use std::marker::Model;

/// Where something happens in a term: the numbers of children from the whole term down, each 0 to 2. Children are counted
/// from 0 in written order.
#[derive(Debug, Drop)]
pub struct Path {
    steps: Vec<u8>,
}

impl Model for Path {
    ghost use Rattle.std.specs.Prelude.{List, ℕ};
    ghost use Rattle.std.specs.List.{AllByRecursion};
    ghost use Rattle.gos_witness.specs.Paths.{IsChild};

    ghost Value = { List ℕ };

    ghost view = { λ path. path.steps.items };

    ghost invariant = { λ path. AllByRecursion IsChild path.steps.items };
}

impl Path {
    /// The path with these numbers.
    pub fn new(steps: Vec<u8>) -> Path
        requires { AllByRecursion IsChild steps.items }
        ensures { result ≡ steps.items }
    {
        Path { steps }
    }

    /// The numbers of the path, from the whole term down.
    pub fn steps(&self) -> &[u8]
        ensures steps { result.now ≡ self.now }
        ensures children { AllByRecursion IsChild self.now }
    {
        self.steps.as_slice()
    }
}

/// A line of a list of moves.
#[derive(Debug, Drop)]
pub enum Line {
    /// The head that stands there unfolds.
    Unfold(Path),
    /// A computation step is made there.
    Step(Path),
    /// The next label is shown or taken there.
    Label(Path),
    /// The next label is the root's request or answer.
    Root,
}
