// The tool: from the words of a command to its files, its line and its status.
//
// `run` is the top call. It knows the outside only as a store of files and a sink of bytes. What it promises is said in
// specs/: Command (the words), Run (how each command ends), Complete (which files are right for it). Each command has a
// folder: `check` and `compile` objects, `link` circuits, `sim` simulate, `build` build, `demo` demo, `tidy` and `gates` netlists,
// `explain` and `verify` explained.
#![tactic(auto)]

ghost use Rattle.std.specs.Prelude.{◌≡◌, ◌≢◌, ◌⊎◌, ℕ, Some, IfSome};
ghost use Rattle.gos_outside.specs.Files.{Files};
ghost use Rattle.gos_outside.specs.Faults.{Rose};
ghost use Rattle.gos_outside.specs.Written.{appended, AppendsPrefix};
ghost use Rattle.gos_command.specs.Ends.{IfRejected, IsSaid, status_ending};
ghost use Rattle.gos_command.specs.Finish.{IsOneWrite};
ghost use Rattle.gos_lex.specs.Lines.{Word};
ghost use Rattle.gos_tool.specs.build.Headline.{Headline};
ghost use Rattle.gos_tool.specs.demo.DemoFiles.{build_file};
ghost use Rattle.gos_tool.specs.demo.Demo.{with_demo};
ghost use Rattle.gos_tool.specs.Command.{Command as Meaning, Build, Demo, texts, Means, MeanNothing, usage_line};
ghost use Rattle.gos_tool.specs.Complete.{AreRight};
ghost use Rattle.gos_tool.specs.Run.{IsCall, KeepsOthers, CallsOf, EndsDone, EndsRejected, IsUnsaid, IsUntold};

pub mod build;
pub mod circuits;
mod command;
pub mod demo;
pub mod explained;
mod laws;
pub mod netlists;
pub mod objects;
pub mod simulate;

use crate::build::headlines;
use command::{command_of, run_command};
pub use gos_command::{Cause, Fault, Status};
use gos_command::{finish, say};
pub use gos_link::FileName;
use gos_outside::{Sink, Store};
pub use laws::{right_commands, same_files, small_agreement, small_calls, small_causes};
use std::alloc::Global;

/// Does what the words of a command say, with the files of a store, and prints one line to a sink.
///
/// `check SRC` reads a source file and tells the weight of its module. `compile SRC OBJ` checks it in the same way, and
/// writes the plan of its module. `link BUILD` reads the build file and the object files of its instances, links their
/// plans, and writes the netlist of a circuit of the whole and its Verilog text. `sim NET PULSES TRACE` reads a netlist and a
/// pulse file, runs the netlist and writes the trace. `build BUILD` reads the build file, compiles the source of each instance
/// as `compile` does, links their plans and writes the circuit as `link` does, and runs it as `sim` does. `demo N` writes the
/// files of a demo of N levels, and then does what `build demo.txt` does. `tidy NET OUT` reads a netlist and writes a smaller one that
/// does the same, and `gates NET OUT` writes it as two-input gates and latches. `explain BUILD MOVES` reads the build file,
/// the source of each instance and the trace file, and writes a list of moves of the linked sources that explains the trace. `verify BUILD
/// MOVES` reads the same and a list of moves, and makes these again by the linked sources: that they explain the trace.
/// Each status but `NoMemory` has its cause; want of memory may end a command anywhere.
pub fn run<S: Store, O: Sink>(alloc: Global, words: &[String], store: &mut S, out: &mut O) -> Status
    // Other words are answered with the usage line, and no file is touched.
    ensures usage { result ≡ Status.Usage → MeanNothing (texts words.now) }
    ensures usage_exactly { MeanNothing (texts words.now) → IsSaid result Status.Usage }
    ensures usage_line { result ≡ Status.Usage → O.written out.new ≡ appended usage_line (O.written out.old) }
    ensures usage_files { MeanNothing (texts words.now) → S.contents store.new ≡ S.contents store.old }

    // Where all is done, the files are there and the line tells it. Of `build`: each object file holds the text of the plan of
    // its instance's source, the netlist file that of a circuit of the linked plans, the Verilog file its Verilog text, and the
    // trace file its run under the pulse file.
    ensures done { result ≡ Status.Done → EndsDone (texts words.now) (S.contents store.old) (S.contents store.new) (O.written out.old) (O.written out.new) }

    // The headline: where a build is done, the netlist and the Verilog text that were written are one circuit without a
    // combinational cycle, and for all inputs that keep the protocol it keeps pace with the program of the linked modules.
    ensures headline { result ≡ Status.Done → (own : Word) → Means (texts words.now) (Build own)
        → IfSome (S.contents store.old) (λ old. IfSome (S.contents store.new) (λ new. Headline old new own)) }

    // Of `demo` so too, with the files of the demo written over those before it.
    ensures headline_of_demo { result ≡ Status.Done → (levels : ℕ) → Means (texts words.now) (Demo levels)
        → IfSome (S.contents store.old) (λ old. IfSome (S.contents store.new) (λ new. Headline (with_demo levels old) new (build_file levels).name)) }

    // A file is rejected only for the first fault that is found, and its line is printed.
    ensures rejected { IfRejected result (EndsRejected (texts words.now) (S.contents store.old) (S.contents store.new)
        (O.written out.old) (O.written out.new)) }

    // Where no call fails, a command whose files are right is done, unless memory runs out: the build file is one, each source is
    // the text of a module that is accepted, no fault of linking holds, and the pulse file is one that the netlist may run under.
    ensures complete { (c : Meaning) → Means (texts words.now) c → (files : Files) → S.contents store.old ≡ Some files
        → AreRight c files (S.contents store.new)
        → (¬ (Rose (S.faults store.old) (S.faults store.new))) → (¬ (Rose (O.faults out.old) (O.faults out.new)))
        → (result ≡ Status.Done) ⊎ (result ≡ Status.NoMemory) }

    // The store is blamed where a call of it failed, and only there: the last call, which the command makes then. What the
    // command writes before that call was written.
    ensures store_failed { result ≡ Status.StoreFailed → Rose (S.faults store.old) (S.faults store.new) }
    ensures store_call { result ≡ Status.StoreFailed → (c : Meaning) × Means (texts words.now) c
        × IsCall c (S.contents store.old) (S.contents store.new) (S.last_fault store.new) }
    ensures store_count { result ≢ Status.StoreFailed → S.faults store.new ≡ S.faults store.old }
    ensures store_line { result ≡ Status.StoreFailed → O.written out.new ≡ O.written out.old }

    // The sink is blamed where the write of the one line failed, and only there. A first part of it was printed; all else is
    // as where it was printed.
    ensures sink_failed { result ≡ Status.SinkFailed → Rose (O.faults out.old) (O.faults out.new) }
    ensures sink_count { result ≢ Status.SinkFailed → O.faults out.new ≡ O.faults out.old }
    ensures sink_usage { result ≡ Status.SinkFailed → MeanNothing (texts words.now) → AppendsPrefix usage_line (O.written out.old) (O.written out.new) }
    ensures sink_line { result ≡ Status.SinkFailed → (c : Meaning) → Means (texts words.now) c
        → IsUnsaid c (S.contents store.old) (S.contents store.new) (O.written out.old) (O.written out.new) }

    // Where memory runs out nothing is printed. What was written so far is as where all is done.
    ensures memory_line { result ≡ Status.NoMemory → O.written out.new ≡ O.written out.old }
    ensures memory_files { result ≡ Status.NoMemory → (c : Meaning) → Means (texts words.now) c
        → IsUntold c (S.contents store.old) (S.contents store.new) }

    // Where the store tells its calls and the sink its writes: the calls are the command's own list, up to where it ended, each file is
    // read by one call of its limit and one byte more, after a call that failed there is none, and the line is printed by one write.
    ensures calls { (c : Meaning) → Means (texts words.now) c
        → CallsOf c (status_ending result) (S.contents store.old) (S.calls store.old) (S.calls store.new) }
    ensures no_calls { MeanNothing (texts words.now) → S.calls store.new ≡ S.calls store.old }
    ensures one_write { IsOneWrite result (O.writes out.old) (O.writes out.new) }

    // No file changes but those that the command writes.
    ensures others { (c : Meaning) → Means (texts words.now) c → KeepsOthers c (S.contents store.old) (S.contents store.new) }
{
    match command_of(words) {
        Some(command) => {
            headlines();
            right_commands();
            let ended = run_command(alloc, command, store);
            finish(alloc, ended, out)
        }
        None => say(
            alloc,
            b"usage: gos check SRC | compile SRC OBJ | link BUILD | sim NET PULSES TRACE | build BUILD | demo N | tidy NET OUT | gates NET OUT | explain BUILD MOVES | verify BUILD MOVES\n",
            Status::Usage,
            out,
        ),
    }
}
