// How a command ended.

ghost use Rattle.std.specs.Prelude.{◌≡◌};
ghost use Rattle.gos_command.specs.Ends.{code_of};

use gos_check::CheckFault;
use gos_gates::GateFault;
use gos_lex::LexFault;
use gos_link::{FileName, LinkFault};
use gos_netcheck::NetFault;
use gos_netlist::NetTextFault;
use gos_plan::ObjectFault;
use gos_pulse::PulseFault;
use gos_syntax::SyntaxFault;
use gos_witness::ExplainFault;

/// Why a file was rejected. In a `Status` it is never want of memory.
#[derive(Debug, Drop)]
pub enum Cause {
    /// The source has no tokens.
    Lex(LexFault),
    /// The source is no module.
    Syntax(SyntaxFault),
    /// The module is not typed, or passes a limit.
    Check(CheckFault),
    /// The object file is no plan.
    Object(ObjectFault),
    /// The build file is none, or its instances are not linked.
    Link(LinkFault),
    /// The netlist file is no netlist.
    Net(NetTextFault),
    /// The netlist is not accepted.
    Refused(NetFault),
    /// The pulse file is not read or not run.
    Pulse(PulseFault),
    /// The netlist is not lowered to gates.
    Gates(GateFault),
    /// The trace is not explained, or its program is too large.
    Explain(ExplainFault),
}

/// A file that was rejected.
#[derive(Debug, Drop)]
pub struct Fault {
    /// Its name.
    pub file: FileName,
    /// Why.
    pub cause: Cause,
}

/// How a command ended.
#[derive(Debug, Drop)]
pub enum Status {
    /// All was done, and its line was printed.
    Done,
    /// The words are no command. The usage line was printed.
    Usage,
    /// A file was rejected, and its fault was printed.
    Rejected(Fault),
    /// A read or a write of a file failed. Nothing was printed.
    StoreFailed,
    /// The line could not be printed.
    SinkFailed,
    /// Memory ran out. Nothing was printed.
    NoMemory,
}

impl Status {
    /// The exit status of the program: 0 for `Done`, then 1 to 5 in the order of the variants.
    pub fn code(&self) -> u8
        ensures { result ≡ code_of self.now }
    {
        match self {
            Status::Done => 0,
            Status::Usage => 1,
            Status::Rejected(_) => 2,
            Status::StoreFailed => 3,
            Status::SinkFailed => 4,
            Status::NoMemory => 5,
        }
    }
}
