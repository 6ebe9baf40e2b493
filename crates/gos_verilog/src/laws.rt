// What the definitions say. Each theorem is the contract of a function that does nothing.
ghost use Rattle.std.specs.Prelude.{List, ℕ, codes};
ghost use Rattle.gos_netlist.specs.Nets.{Netlist};
ghost use Rattle.gos_netcheck.specs.Accepted.{IsAccepted};
ghost use Rattle.gos_verilog.specs.Meaning.{TextsMean};
ghost use Rattle.gos_verilog.specs.MeantRuns.{RunsAreMeant};
ghost use Rattle.gos_verilog.specs.OneText.{HasOneText, IsOneNetlist, IsReadAsOne, IsReadBack};
ghost use Rattle.gos_verilog.specs.Place.{HasHead, HasOnePlace, IsPlace, ReadIsFormed};
ghost use Rattle.gos_verilog.specs.Readable.{IsReadable};
ghost use Rattle.gos_verilog.specs.SmallMeanings.{CallerIsMeant, CallerRuns, CallerWaits, SwappedInputsMeanOther, SwappedOutputsMeanOther};
ghost use Rattle.gos_verilog.specs.SmallTexts.{latch_text, LatchText, LongerIsNoText, UnresetIsNoText};

/// The latch has its text, and neither one in which a register has no reset nor one with a blank more.
pub fn small_texts()
    ensures latch { LatchText }
    ensures reset { UnresetIsNoText }
    ensures end { LongerIsNoText }
{}

/// A netlist that is accepted or read has one text at most, and a text is that of one accepted netlist at most: ports,
/// cells and their order are known by it.
pub fn one_text()
    ensures accepted { (net : Netlist) → IsAccepted net → HasOneText net }
    ensures readable { (net : Netlist) → IsReadable net → HasOneText net }
    ensures netlist { (text : List ℕ) → IsOneNetlist text }
{}

/// A text is read as one netlist at most, and that of an accepted netlist as no other one.
pub fn one_reading()
    ensures one { (text : List ℕ) → IsReadAsOne text }
    ensures back { (net : Netlist) → IsReadBack net }
{}

/// Read by IEEE 1364-2005 a text of a netlist means the netlist: its head declares the nets of the ports; where inputs
/// show what Input cells get, all lines are met exactly where the nets are a settling and each output shows the net of
/// its cell; and registers take the netlist's next registers at a clock edge, or 0 in reset. So the runs of a module that
/// means an accepted netlist are the netlist's. A small module means its circuit, and runs as that does. With its two
/// outputs assigned from each other's nets it doesn't mean it, and with its two inputs read by each other's cells neither.
pub fn meaning()
    ensures texts { TextsMean }
    ensures runs { RunsAreMeant }
    ensures caller { CallerIsMeant }
    ensures caller_runs { CallerRuns }
    ensures caller_waits { CallerWaits }
    ensures outputs { SwappedOutputsMeanOther }
    ensures inputs { SwappedInputsMeanOther }
{}

/// What begins like a text breaks off at one place, and a text that is read is of the form. For example `modul x` breaks
/// off at its sixth byte, and not at its fifth. The text of the latch has the names of the nets of its ports, and what
/// ends before them has not.
pub fn places()
    ensures one { HasOnePlace }
    ensures read { ReadIsFormed }
    ensures blank { IsPlace (codes "modul x") 5 }
    ensures earlier { IsPlace (codes "modul x") 4 → ⊥ }
    ensures head { HasHead latch_text }
    ensures no_head { HasHead (codes "module gos_main(clk, rst") → ⊥ }
{}
