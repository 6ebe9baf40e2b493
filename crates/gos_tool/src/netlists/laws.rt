// What the definitions give for all files. The theorem is the contract of a function that does nothing.

ghost use Rattle.gos_tool.specs.netlists.Complete.{TidyIsNotRejected, GatesAreNotRejected, LoweredIsRight};

/// A netlist file that is right for `tidy` or for `gates` is not rejected. Where `gates` is done, its file was right.
pub fn right_netlists()
    ensures tidy { TidyIsNotRejected }
    ensures gates { GatesAreNotRejected }
    ensures lowered { LoweredIsRight }
{
    gos_netlist::one_answer();
    gos_netcheck::one_answer();
}
