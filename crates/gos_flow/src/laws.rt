// What the definitions give for all files. Each theorem is the contract of a function that does nothing.

ghost use Rattle.gos_flow.specs.Complete.{RightIsNotRejected, EmptyIsNotRight};
ghost use Rattle.gos_flow.specs.Repeated.{CommandMakesOne};
ghost use Rattle.gos_flow.specs.Back.{NetlistComesBack, VerilogComesBack};
ghost use Rattle.gos_flow.specs.SmallRuns.{EchoIsWritten, LongerIsNotWritten, OtherCountIsNotTold, CausesAreApart};

/// A command rejects no file that is right for it. An empty file is not.
pub fn right_files()
    ensures rejected { RightIsNotRejected }
    ensures empty { EmptyIsNotRight }
{
    gos_netlist::one_answer();
    gos_netcheck::one_answer();
    gos_verilog::one_reading();
}

/// Where a command is done twice with the same file, it writes the same text, and tells the same.
pub fn same_file()
    ensures { CommandMakesOne }
{
    gos_netlist::one_answer();
    gos_verilog::one_reading();
    gos_verilog::one_text();
}

/// A netlist that is written as Verilog and read from there is written as it was, and so is a Verilog text by way of its netlist.
pub fn way_back()
    ensures netlist { NetlistComesBack }
    ensures verilog { VerilogComesBack }
{
    gos_netlist::one_answer();
    gos_verilog::one_reading();
    gos_verilog::one_text();
}

/// Of a netlist of one register its text is written, and none with a blank more; and what is wrong with the form of one kind of file is
/// never told of the other.
pub fn small_runs()
    ensures echo { EchoIsWritten }
    ensures longer { LongerIsNotWritten }
    ensures count { OtherCountIsNotTold }
    ensures causes { CausesAreApart }
{
    gos_netlist::one_answer();
    gos_netlist::reads_back();
    gos_verilog::one_text();
}
