// The commands and their words.

ghost use Rattle.std.specs.Prelude.{◌≡◌, ◌≢◌, ◌∷◌, [], IfOk, IfErr, IsErrOf, MatchOption, codes};
ghost use Rattle.gos_outside.specs.Faults.{CountsFaults};
ghost use Rattle.gos_command.specs.Ends.{IfStopped, IsTold, ending};
ghost use Rattle.gos_tool.specs.Command.{texts, Means, MeanNothing};
ghost use Rattle.gos_tool.specs.inner.CommandSeen.{meant, HasFileNames};
ghost use Rattle.gos_tool.specs.Causes.{StopsFor};
ghost use Rattle.gos_tool.specs.Run.{IsDone, IsRejected, IsCall, IsCutShort, KeepsOthers, CallsOf, Tells, kinds_of};

use crate::build::build;
use crate::circuits::link_build;
use crate::demo::{demo, levels_of};
use crate::explained::{explain_moves, verify_moves};
use crate::netlists::{gates_of, tidy_net};
use crate::objects::{check_source, compile_source};
use crate::simulate::sim;
use gos_command::{Report, Stop};
use gos_outside::{Store, is_file_name};
use std::alloc::Global;

/// A command, with the files that its words name, or the number.
#[derive(Clone, Copy)]
pub enum Command<'a> {
    /// `check SRC`.
    Check {
        source: &'a [u8],
    },
    /// `compile SRC OBJ`.
    Compile {
        source: &'a [u8],
        object: &'a [u8],
    },
    /// `link BUILD`.
    Link {
        own: &'a [u8],
    },
    /// `sim NET PULSES TRACE`.
    Sim {
        net: &'a [u8],
        pulses: &'a [u8],
        trace: &'a [u8],
    },
    /// `build BUILD`.
    Build {
        own: &'a [u8],
    },
    /// `demo N`.
    Demo {
        levels: u64,
    },
    /// `tidy NET OUT`.
    Tidy {
        net: &'a [u8],
        out: &'a [u8],
    },
    /// `gates NET OUT`.
    Gates {
        net: &'a [u8],
        out: &'a [u8],
    },
    /// `explain BUILD MOVES`.
    Explain {
        own: &'a [u8],
        moves: &'a [u8],
    },
    /// `verify BUILD MOVES`.
    Verify {
        own: &'a [u8],
        moves: &'a [u8],
    },
}

/// The command that the words are.
pub fn command_of(words: &[String]) -> Option<Command<'_>>
    ensures { MatchOption result (MeanNothing (texts words.now)) (λ command. Means (texts words.now) (meant command)) }
{
    match words {
        [verb, net, pulses, trace] => sim_of(
            verb.as_bytes(),
            net.as_bytes(),
            pulses.as_bytes(),
            trace.as_bytes(),
        ),
        [verb, read, written] => {
            two_words_of(verb.as_bytes(), read.as_bytes(), written.as_bytes())
        }
        [verb, word] => one_word_of(verb.as_bytes(), word.as_bytes()),
        _ => None,
    }
}

fn sim_of<'a>(verb: &[u8], net: &'a [u8], pulses: &'a [u8], trace: &'a [u8]) -> Option<Command<'a>>
    ensures { MatchOption result (MeanNothing (verb.now ∷ net.now ∷ pulses.now ∷ trace.now ∷ [])) (λ command.
        Means (verb.now ∷ net.now ∷ pulses.now ∷ trace.now ∷ []) (meant command)) }
{
    if verb != b"sim".as_slice()
        || !is_file_name(net)
        || !is_file_name(pulses)
        || !is_file_name(trace)
    {
        return None;
    }
    if trace == net || trace == pulses {
        return None;
    }
    Some(Command::Sim { net, pulses, trace })
}

fn two_words_of<'a>(verb: &[u8], one: &'a [u8], other: &'a [u8]) -> Option<Command<'a>>
    ensures { MatchOption result (MeanNothing (verb.now ∷ one.now ∷ other.now ∷ [])) (λ command.
        Means (verb.now ∷ one.now ∷ other.now ∷ []) (meant command)) }
{
    if verb == b"verify".as_slice() {
        return verify_of(one, other);
    }
    two_files_of(verb, one, other)
}

// A command that reads two files, which may be one.
fn verify_of<'a>(own: &'a [u8], moves: &'a [u8]) -> Option<Command<'a>>
    ensures { MatchOption result (MeanNothing (codes "verify" ∷ own.now ∷ moves.now ∷ [])) (λ command.
        Means (codes "verify" ∷ own.now ∷ moves.now ∷ []) (meant command)) }
{
    if !is_file_name(own) || !is_file_name(moves) {
        return None;
    }
    Some(Command::Verify { own, moves })
}

// A command that reads one file, or the files of a build file, and writes another.
fn two_files_of<'a>(verb: &[u8], read: &'a [u8], written: &'a [u8]) -> Option<Command<'a>>
    requires { verb.now ≢ codes "verify" }
    ensures { MatchOption result (MeanNothing (verb.now ∷ read.now ∷ written.now ∷ [])) (λ command.
        Means (verb.now ∷ read.now ∷ written.now ∷ []) (meant command)) }
{
    if !is_file_name(read) || !is_file_name(written) || written == read {
        return None;
    }
    if verb == b"compile".as_slice() {
        return Some(Command::Compile {
            source: read,
            object: written,
        });
    }
    if verb == b"tidy".as_slice() {
        return Some(Command::Tidy {
            net: read,
            out: written,
        });
    }
    if verb == b"gates".as_slice() {
        return Some(Command::Gates {
            net: read,
            out: written,
        });
    }
    if verb == b"explain".as_slice() {
        return Some(Command::Explain {
            own: read,
            moves: written,
        });
    }
    None
}

fn one_word_of<'a>(verb: &[u8], word: &'a [u8]) -> Option<Command<'a>>
    ensures { MatchOption result (MeanNothing (verb.now ∷ word.now ∷ [])) (λ command. Means (verb.now ∷ word.now ∷ []) (meant command)) }
{
    if verb == b"demo".as_slice() {
        return demo_of(word);
    }
    one_file_of(verb, word)
}

fn demo_of<'a>(word: &[u8]) -> Option<Command<'a>>
    ensures { MatchOption result (MeanNothing (codes "demo" ∷ word.now ∷ [])) (λ command. Means (codes "demo" ∷ word.now ∷ []) (meant command)) }
{
    match levels_of(word) {
        Some(levels) => Some(Command::Demo { levels }),
        None => None,
    }
}

fn one_file_of<'a>(verb: &[u8], file: &'a [u8]) -> Option<Command<'a>>
    requires { verb.now ≢ codes "demo" }
    ensures { MatchOption result (MeanNothing (verb.now ∷ file.now ∷ [])) (λ command. Means (verb.now ∷ file.now ∷ []) (meant command)) }
{
    if !is_file_name(file) {
        return None;
    }
    if verb == b"check".as_slice() {
        return Some(Command::Check { source: file });
    }
    if verb == b"link".as_slice() {
        return Some(Command::Link { own: file });
    }
    if verb == b"build".as_slice() {
        return Some(Command::Build { own: file });
    }
    None
}

/// Does what a command says.
pub fn run_command<S: Store>(
    alloc: Global,
    command: Command<'_>,
    store: &mut S,
) -> Result<Report, Stop>
    requires files { HasFileNames (meant command) }
    ensures done { IfOk result (IsDone (meant command.entry) (S.contents store.old) (S.contents store.new)) }
    ensures rejected { IfErr result (λ stop. IfStopped stop (IsRejected (meant command.entry) (S.contents store.old) (S.contents store.new))) }
    ensures told { IfErr result (λ stop. IfStopped stop IsTold) }
    ensures tells { IfOk result (Tells (meant command.entry)) }
    ensures kind { IfErr result (StopsFor (kinds_of (meant command.entry))) }
    ensures calls { CallsOf (meant command.entry) (ending result) (S.contents store.old) (S.calls store.old) (S.calls store.new) }
    ensures counts { CountsFaults (IsErrOf result Stop.StoreFailed) (S.faults store.old) (S.faults store.new) }
    ensures failed_call { IsErrOf result Stop.StoreFailed →
        IsCall (meant command.entry) (S.contents store.old) (S.contents store.new) (S.last_fault store.new) }
    ensures memory_files { IsErrOf result Stop.NoMemory → IsCutShort (meant command.entry) (S.contents store.old) (S.contents store.new) }
    ensures others { KeepsOthers (meant command.entry) (S.contents store.old) (S.contents store.new) }
{
    match command {
        Command::Check { source } => check_source(alloc, source, store),
        Command::Compile { source, object } => compile_source(alloc, source, object, store),
        Command::Link { own } => link_build(alloc, own, store),
        Command::Sim { net, pulses, trace } => sim(alloc, net, pulses, trace, store),
        Command::Build { own } => build(alloc, own, store),
        Command::Demo { levels } => demo(alloc, levels, store),
        Command::Tidy { net, out } => tidy_net(alloc, net, out, store),
        Command::Gates { net, out } => gates_of(alloc, net, out, store),
        Command::Explain { own, moves } => explain_moves(alloc, own, moves, store),
        Command::Verify { own, moves } => verify_moves(alloc, own, moves, store),
    }
}
