// The commands and their words.

ghost use Rattle.std.specs.Prelude.{◌≡◌, ◌∷◌, [], IfOk, IfErr, IsErrOf, MatchOption};
ghost use Rattle.gos_outside.specs.Files.{SameBut};
ghost use Rattle.gos_outside.specs.Faults.{CountsFaults};
ghost use Rattle.gos_outside.specs.Calls.{AreMade};
ghost use Rattle.gos_flow.specs.Ends.{IfStopped, ending};
ghost use Rattle.gos_flow.specs.Command.{texts, Means, MeanNothing, calls_of, read_by, written_by};
ghost use Rattle.gos_flow.specs.Run.{IsDone, IsRejected, IsCall};
ghost use Rattle.gos_flow.specs.inner.CommandSeen.{meant, HasFileNames};

use crate::rewriting::{to_netlist, to_verilog};
use crate::stop::Stop;
use gos_outside::{Store, is_file_name};
use std::alloc::Global;

/// A command, with the files that its words name.
#[derive(Clone, Copy)]
pub enum Command<'a> {
    /// `verilog NET OUT`.
    Verilog { net: &'a [u8], out: &'a [u8] },
    /// `netlist VER OUT`.
    Netlist { ver: &'a [u8], out: &'a [u8] },
}

impl<'a> Command<'a> {
    /// The file that it reads.
    pub fn read(&self) -> &'a [u8]
        ensures { result.now ≡ read_by (meant self.now) }
    {
        match self {
            Command::Verilog { net, out: _ } => net,
            Command::Netlist { ver, out: _ } => ver,
        }
    }
}

/// The command that the words are.
pub fn command_of(words: &[String]) -> Option<Command<'_>>
    ensures { MatchOption result (MeanNothing (texts words.now)) (λ command. Means (texts words.now) (meant command)) }
{
    match words {
        [verb, read, written] => {
            two_files_of(verb.as_bytes(), read.as_bytes(), written.as_bytes())
        }
        _ => None,
    }
}

// A command that reads one file and writes another.
fn two_files_of<'a>(verb: &[u8], read: &'a [u8], written: &'a [u8]) -> Option<Command<'a>>
    ensures { MatchOption result (MeanNothing (verb.now ∷ read.now ∷ written.now ∷ [])) (λ command.
        Means (verb.now ∷ read.now ∷ written.now ∷ []) (meant command)) }
{
    if !is_file_name(read) || !is_file_name(written) || written == read {
        return None;
    }
    if verb == b"verilog".as_slice() {
        return Some(Command::Verilog {
            net: read,
            out: written,
        });
    }
    if verb == b"netlist".as_slice() {
        return Some(Command::Netlist {
            ver: read,
            out: written,
        });
    }
    None
}

/// Does what a command says. Gives how many cells the netlist has.
pub fn run_command<S: Store>(
    alloc: Global,
    command: Command<'_>,
    store: &mut S,
) -> Result<u64, Stop>
    requires files { HasFileNames (meant command) }
    ensures done { IfOk result (IsDone (meant command.entry) (S.contents store.old) (S.contents store.new)) }
    ensures rejected { IfErr result (λ stop. IfStopped stop (IsRejected (meant command.entry) (S.contents store.old) (S.contents store.new))) }
    ensures calls { AreMade (ending result) (calls_of (meant command.entry)) (S.calls store.old) (S.calls store.new) }
    ensures counts { CountsFaults (IsErrOf result Stop.StoreFailed) (S.faults store.old) (S.faults store.new) }
    ensures failed_call { IsErrOf result Stop.StoreFailed →
        IsCall (meant command.entry) (S.contents store.old) (S.contents store.new) (S.last_fault store.new) }
    ensures memory_files { IsErrOf result Stop.NoMemory → S.contents store.new ≡ S.contents store.old }
    ensures others { SameBut (written_by (meant command.entry)) (S.contents store.old) (S.contents store.new) }
{
    match command {
        Command::Verilog { net, out } => to_verilog(alloc, net, out, store),
        Command::Netlist { ver, out } => to_netlist(alloc, ver, out, store),
    }
}
