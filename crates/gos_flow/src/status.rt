// How a command ended.

ghost use Rattle.std.specs.Prelude.{◌≡◌};
ghost use Rattle.gos_flow.specs.Ends.{code_of};

use gos_netcheck::NetFault;
use gos_netlist::NetTextFault;
use gos_verilog::VFault;

/// Why the file that a command reads was rejected. In a `Status` it is never want of memory.
#[derive(Debug, Drop)]
pub enum Cause {
    /// The netlist file is no netlist.
    Net(NetTextFault),
    /// The Verilog file is the text of no netlist.
    Verilog(VFault),
    /// The netlist is not accepted.
    Refused(NetFault),
}

/// How a command ended.
#[derive(Debug, Drop)]
pub enum Status {
    /// All was done, and its line was printed.
    Done,
    /// The words are no command. The usage line was printed.
    Usage,
    /// The file that was read was rejected, and its fault was printed.
    Rejected(Cause),
    /// A read or a write of a file failed. Nothing was printed.
    StoreFailed,
    /// The line could not be printed.
    SinkFailed,
    /// Memory ran out. Nothing was printed.
    NoMemory,
}

impl Status {
    /// The exit status of the program: 0 for `Done`, then 1 to 5 in the order of the variants.
    pub fn code(&self) -> u8
        ensures { result ≡ code_of self.now }
    {
        match self {
            Status::Done => 0,
            Status::Usage => 1,
            Status::Rejected(_) => 2,
            Status::StoreFailed => 3,
            Status::SinkFailed => 4,
            Status::NoMemory => 5,
        }
    }
}
