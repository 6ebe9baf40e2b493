// What holds along a chain of commands of both programs: `build`, `tidy`, `verilog`.
//
// The promise of a build is that its netlist keeps pace with the program of the linked modules. What `tidy` makes of such a netlist
// keeps it too, and so does what `verilog` writes of either: read specs/Paced. Both programs tell a netlist's faults alike: specs/Told.
#![tactic(auto)]

ghost use Rattle.gos_chain.specs.Paced.{WrittenKeepsPace, TidiedKeepsPace};
ghost use Rattle.gos_chain.specs.Told.{FormsAreToldAlike, RefusalsAreToldAlike};

/// The Verilog text that is written of a netlist which keeps pace with a program is that of an accepted netlist which does, and means
/// this netlist; and so it is where the netlist was made tidy before.
pub fn kept_pace()
    ensures written { WrittenKeepsPace }
    ensures tidied { TidiedKeepsPace }
{
    gos_netlist::one_answer();
    gos_verilog::meaning();
}

/// The programs gos and gos_flow tell by the same lines that a text is no netlist, and why a netlist is not accepted.
pub fn told_alike()
    ensures forms { FormsAreToldAlike }
    ensures refusals { RefusalsAreToldAlike }
{}
