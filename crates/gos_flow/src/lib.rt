// From a netlist to its other form, and back: from the words of a command to its file, its line and its status.
//
// `flow` is the top call of the program gos_flow. It knows the outside only as a store of files and a sink of bytes. What it promises is
// said in specs/: Command (the words), Texts (what files say), Run (how each command ends), Complete (which files are right for it).
#![tactic(auto)]

ghost use Rattle.std.specs.Prelude.{◌≡◌, ◌≢◌, ◌⊎◌, Some};
ghost use Rattle.gos_outside.specs.Files.{Files, SameBut};
ghost use Rattle.gos_outside.specs.Faults.{Rose};
ghost use Rattle.gos_outside.specs.Calls.{AreMade};
ghost use Rattle.gos_outside.specs.Written.{appended, AppendsPrefix};
ghost use Rattle.gos_flow.specs.Ends.{IfRejected, IsSaid, status_ending};
ghost use Rattle.gos_flow.specs.Finish.{IsOneWrite};
ghost use Rattle.gos_flow.specs.Command.{Command as Meaning, texts, Means, MeanNothing, usage_line, calls_of, written_by};
ghost use Rattle.gos_flow.specs.Run.{IsCall, EndsDone, EndsRejected, IsUnsaid, IsUntold};
ghost use Rattle.gos_flow.specs.Complete.{IsRight};

mod command;
mod ending;
mod fault_text;
mod files;
mod laws;
mod reading;
mod rewriting;
mod status;
mod stop;

use command::{command_of, run_command};
use ending::{finish, say};
use gos_outside::{Sink, Store};
pub use laws::{right_files, same_file, small_runs, way_back};
pub use status::{Cause, Status};
use std::alloc::Global;

/// Does what the words of a command say, with the files of a store, and prints one line to a sink.
///
/// `verilog NET OUT` reads a netlist and accepts it, and writes its Verilog text. `netlist VER OUT` reads a Verilog text, accepts the
/// netlist whose text it is, and writes that as a netlist. Each status but `NoMemory` has its cause; want of memory may end a command
/// anywhere.
pub fn flow<S: Store, O: Sink>(
    alloc: Global,
    words: &[String],
    store: &mut S,
    out: &mut O,
) -> Status
    // Other words are answered with the usage line, and no file is touched.
    ensures usage { result ≡ Status.Usage → MeanNothing (texts words.now) }
    ensures usage_exactly { MeanNothing (texts words.now) → IsSaid result Status.Usage }
    ensures usage_line { result ≡ Status.Usage → O.written out.new ≡ appended usage_line (O.written out.old) }
    ensures usage_files { MeanNothing (texts words.now) → S.contents store.new ≡ S.contents store.old }

    // Where all is done, the file that was read is the text of one accepted netlist, the file that was written holds its text in the
    // other form, and the line tells how many cells it has.
    ensures done { result ≡ Status.Done → EndsDone (texts words.now) (S.contents store.old) (S.contents store.new) (O.written out.old) (O.written out.new) }

    // The file is rejected only for the first fault that is found, and its line is printed.
    ensures rejected { IfRejected result (EndsRejected (texts words.now) (S.contents store.old) (S.contents store.new)
        (O.written out.old) (O.written out.new)) }

    // Where no call fails, a command whose file is right is done, unless memory runs out.
    ensures complete { (c : Meaning) → Means (texts words.now) c → (files : Files) → S.contents store.old ≡ Some files → IsRight c files
        → (¬ (Rose (S.faults store.old) (S.faults store.new))) → (¬ (Rose (O.faults out.old) (O.faults out.new)))
        → (result ≡ Status.Done) ⊎ (result ≡ Status.NoMemory) }

    // The store is blamed where a call of it failed, and only there: the last call, which the command makes then.
    ensures store_failed { result ≡ Status.StoreFailed → Rose (S.faults store.old) (S.faults store.new) }
    ensures store_call { result ≡ Status.StoreFailed → (c : Meaning) × Means (texts words.now) c
        × IsCall c (S.contents store.old) (S.contents store.new) (S.last_fault store.new) }
    ensures store_count { result ≢ Status.StoreFailed → S.faults store.new ≡ S.faults store.old }
    ensures store_line { result ≡ Status.StoreFailed → O.written out.new ≡ O.written out.old }

    // The sink is blamed where the write of the one line failed, and only there. A first part of it was printed; all else is
    // as where it was printed.
    ensures sink_failed { result ≡ Status.SinkFailed → Rose (O.faults out.old) (O.faults out.new) }
    ensures sink_count { result ≢ Status.SinkFailed → O.faults out.new ≡ O.faults out.old }
    ensures sink_usage { result ≡ Status.SinkFailed → MeanNothing (texts words.now) → AppendsPrefix usage_line (O.written out.old) (O.written out.new) }
    ensures sink_line { result ≡ Status.SinkFailed → (c : Meaning) → Means (texts words.now) c
        → IsUnsaid c (S.contents store.old) (S.contents store.new) (O.written out.old) (O.written out.new) }

    // Where memory runs out nothing is printed. The file is written as where all is done, or no file is changed.
    ensures memory_line { result ≡ Status.NoMemory → O.written out.new ≡ O.written out.old }
    ensures memory_files { result ≡ Status.NoMemory → (c : Meaning) → Means (texts words.now) c
        → IsUntold c (S.contents store.old) (S.contents store.new) }

    // Where the store tells its calls and the sink its writes: the calls are the command's own list, up to where it ended, and the
    // line is printed by one write.
    ensures calls { (c : Meaning) → Means (texts words.now) c → AreMade (status_ending result) (calls_of c) (S.calls store.old) (S.calls store.new) }
    ensures no_calls { MeanNothing (texts words.now) → S.calls store.new ≡ S.calls store.old }
    ensures one_write { IsOneWrite result (O.writes out.old) (O.writes out.new) }

    // No file changes but the one that the command writes.
    ensures others { (c : Meaning) → Means (texts words.now) c → SameBut (written_by c) (S.contents store.old) (S.contents store.new) }
{
    match command_of(words) {
        Some(command) => {
            right_files();
            let ended = run_command(alloc, command, store);
            finish(alloc, command.read(), ended, out)
        }
        None => say(
            alloc,
            b"usage: gos_flow verilog NET OUT | netlist VER OUT\n",
            Status::Usage,
            out,
        ),
    }
}
