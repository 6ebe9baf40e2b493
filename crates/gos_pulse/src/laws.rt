// The laws of pulse files and of driven runs: each has one answer at most, and runs go on.
ghost use Rattle.std.specs.Prelude.{ℕ, List};
ghost use Rattle.gos_netlist.specs.Nets.{Netlist};
ghost use Rattle.gos_netcheck.specs.Accepted.{IsAccepted};
ghost use Rattle.gos_pulse.specs.declared.entries.Entry.{Entry};
ghost use Rattle.gos_pulse.specs.Silence.{NothingIsARun, SilenceIsARun};
ghost use Rattle.gos_pulse.specs.OneAnswer.{
  IsOneFile,
  FilesAreNotRefused,
  HasOneFault,
  HasOneRun,
  HasOneTrace,
  DrivenIsNotBroken,
  BreaksOnce,
};

/// For an accepted netlist a text has one answer at most: its cycles and entries, or one fault. So has a run under
/// entries: all its cycles, or one place at which it is broken. The function does nothing; its contract is the law.
pub fn one_answer()
    ensures file { (net : Netlist) (text : List ℕ) → IsAccepted net → IsOneFile net text }
    ensures read { (net : Netlist) (text : List ℕ) → IsAccepted net → FilesAreNotRefused net text }
    ensures fault { (net : Netlist) (text : List ℕ) → IsAccepted net → HasOneFault net text }
    ensures run { (net : Netlist) (cycles : ℕ) (file : List Entry) → IsAccepted net → HasOneRun net cycles file }
    ensures trace { (net : Netlist) (cycles : ℕ) (file : List Entry) → IsAccepted net → HasOneTrace net cycles file }
    ensures driven { (net : Netlist) (cycles : ℕ) (file : List Entry) → IsAccepted net → DrivenIsNotBroken net cycles file }
    ensures broken { (net : Netlist) (cycles : ℕ) (file : List Entry) → IsAccepted net → BreaksOnce net cycles file }
{}

/// A netlist that is accepted has runs of every length whose inputs are in range and keep the protocol: behind each such
/// run there may come a cycle without inputs.
pub fn runs_go_on()
    ensures nothing { (net : Netlist) → NothingIsARun net }
    ensures silence { (net : Netlist) → IsAccepted net → SilenceIsARun net }
{}
