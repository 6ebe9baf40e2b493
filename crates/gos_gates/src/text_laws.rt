// What the definitions of texts say, in small. Each theorem is the contract of a function that does nothing.
ghost use Rattle.std.specs.Prelude.{List, ℕ};
ghost use Rattle.gos_gates.specs.AagFaults.{HasOneFault, IsOneCircuit, NothingFollows, PrintedIsRead, ReadHasNoFault};
ghost use Rattle.gos_gates.specs.SmallCircuits.{AreCircuits, GatesLookBack, SmallFaults, SmallRuns, SmallTexts};

/// Two small circuits run and have their texts. A gate that looks ahead, or has its lesser literal first, is none. Small
/// texts break off where they do.
pub fn small_circuits()
    ensures runs { SmallRuns }
    ensures texts { SmallTexts }
    ensures circuits { AreCircuits }
    ensures back { GatesLookBack }
    ensures faults { SmallFaults }
{}

/// A text is that of one circuit at most, so that `read_aag` and `print_aag` are inverse to one another, and nothing may
/// stand behind one. It has one answer at most: it is read, or it breaks off at one place.
pub fn one_answer()
    ensures circuit { (text : List ℕ) → IsOneCircuit text }
    ensures end { (text : List ℕ) → NothingFollows text }
    ensures read { (text : List ℕ) → ReadHasNoFault text }
    ensures fault { (text : List ℕ) → HasOneFault text }
{}

/// The text of a circuit is read, as that circuit: with `one_answer`, reading what was printed gives the circuit back,
/// unless memory runs out.
pub fn reads_back()
    ensures { PrintedIsRead }
{}
