// What the definitions of texts say. Each theorem is the contract of a function that does nothing.
ghost use Rattle.std.specs.Prelude.{List, ℕ};
ghost use Rattle.gos_witness.specs.declared.program.ProgramPort as seen;
ghost use Rattle.gos_witness.specs.MovesText.{IsMovesText};
ghost use Rattle.gos_witness.specs.SmallTexts.{SmallLabels, SmallMoves, SmallMovesBreaks, SmallPorts, SmallTraceBreaks, SmallTraces};
ghost use Rattle.gos_witness.specs.TextFaults.{HasNoFault, HasOneFault, IsOneList, IsOneTrace, PrintedIsRead};
ghost use Rattle.gos_witness.specs.TraceText.{IsTraceText};

/// Small lists of moves and a small trace have their texts. A line that names a fourth child is none, and no label has an event
/// that its port lacks or a value that its type can't hold. Where cycles fall, a text breaks off as late as its digits allow.
pub fn small_texts()
    ensures moves { SmallMoves }
    ensures traces { SmallTraces }
    ensures moves_breaks { SmallMovesBreaks }
    ensures trace_breaks { SmallTraceBreaks }
    ensures ports { SmallPorts }
    ensures labels { SmallLabels }
{}

/// A text is that of one list of moves at most, and that of one list of labels. It has one answer at most: it is read, or it
/// breaks off at one place.
pub fn one_answer()
    ensures moves { (text : List ℕ) → IsOneList text }
    ensures labels { (ports : List seen.ProgramPort) (text : List ℕ) → IsOneTrace ports text }
    ensures moves_read { (text : List ℕ) → HasNoFault IsMovesText text }
    ensures moves_fault { (text : List ℕ) → HasOneFault IsMovesText text }
    ensures labels_read { (ports : List seen.ProgramPort) (text : List ℕ) → HasNoFault (IsTraceText ports) text }
    ensures labels_fault { (ports : List seen.ProgramPort) (text : List ℕ) → HasOneFault (IsTraceText ports) text }
{}

/// The text of a list of moves is read, as that list: with `one_answer`, reading what was printed gives the lines back, unless
/// memory runs out.
pub fn reads_back()
    ensures { PrintedIsRead }
{}
