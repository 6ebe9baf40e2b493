// What a command tells when it is done.

ghost use Rattle.std.specs.Prelude.{◌≡◌, ◌++◌, IfOk, OnOk};
ghost use Rattle.gos_command.specs.Lines.{run_text, report_text, report_line};
ghost use Rattle.gos_command.specs.declared.report.Report.TheVariants as reports;

use crate::fault_text::{add_count, counted};
use gos_types::NoMemory;
use std::alloc::Global;

/// The numbers of a run.
#[derive(Debug, Clone, Copy, PartialEq, Eq)]
pub struct Counts {
    /// How many cycles it has.
    pub cycles: u64,
    /// How many pulses its trace has.
    pub pulses: u64,
    /// How many `next` entries of the pulse file were never given.
    pub unused: u64,
}

/// The numbers of a circuit of two-input gates and latches, as the header of an AIGER file has them.
#[derive(Debug, Clone, Copy, PartialEq, Eq)]
pub struct GateCounts {
    /// How many input bits it has.
    pub inputs: u64,
    /// How many latches.
    pub latches: u64,
    /// How many output bits.
    pub outputs: u64,
    /// How many two-input gates.
    pub ands: u64,
}

/// What a command tells when it is done.
#[derive(Debug, Clone, Copy, PartialEq, Eq)]
pub enum Report {
    /// The weight of a module, or of all modules of a circuit.
    Weight(u64),
    /// The numbers of a run.
    Run(Counts),
    /// The weight of all modules of a circuit, and the numbers of its run.
    Build { weight: u64, run: Counts },
    /// How many cells a netlist had, and how many are left of it.
    Cells { before: u64, after: u64 },
    /// The numbers of a circuit of gates.
    Gates(GateCounts),
    /// How many lines of moves explain a trace, and how many labels it has.
    Explained { lines: u64, labels: u64 },
}

/// The line of a command that is done.
pub fn report_text(alloc: Global, report: Report) -> Result<Vec<u8>, NoMemory>
    ensures { IfOk result (λ text. text.items ≡ report_line report) }
{
    let mut text = told_text(alloc, report)?;
    text.push(b'\n')?;
    Ok(text)
}

// What the line tells, without its line feed.
fn told_text(alloc: Global, report: Report) -> Result<Vec<u8>, NoMemory>
    ensures { IfOk result (λ text. text.items ≡ report_text report) }
{
    match report {
        Report::Weight(weight) => counted(alloc, b"ok weight ", weight),
        Report::Run(run) => run_text(alloc, b"ok".to_vec(alloc)?, run),
        Report::Build { weight, run } => run_text(
            alloc,
            counted(alloc, b"ok weight ", weight)?,
            run,
        ),
        Report::Cells { before, after } => cells_text(alloc, before, after),
        Report::Gates(counts) => gate_counts_text(alloc, counts),
        Report::Explained { lines, labels } => explained_text(alloc, lines, labels),
    }
}

// A beginning, and the numbers of a run behind it.
fn run_text(alloc: Global, beginning: Vec<u8>, run: Counts) -> Result<Vec<u8>, NoMemory>
    ensures { IfOk result (λ text. text.items ≡ beginning.items ++ run_text run) }
{
    let mut text = beginning;
    add_count(alloc, &mut text, b" cycles ", run.cycles)?;
    add_count(alloc, &mut text, b" pulses ", run.pulses)?;
    add_count(alloc, &mut text, b" unused ", run.unused)?;
    Ok(text)
}

fn cells_text(alloc: Global, before: u64, after: u64) -> Result<Vec<u8>, NoMemory>
    ensures { IfOk result (λ text. text.items ≡ report_text (reports.Cells before after)) }
{
    let mut text = counted(alloc, b"ok cells ", before)?;
    add_count(alloc, &mut text, b" to ", after)?;
    Ok(text)
}

fn explained_text(alloc: Global, lines: u64, labels: u64) -> Result<Vec<u8>, NoMemory>
    ensures { IfOk result (λ text. text.items ≡ report_text (reports.Explained lines labels)) }
{
    let mut text = counted(alloc, b"ok lines ", lines)?;
    add_count(alloc, &mut text, b" labels ", labels)?;
    Ok(text)
}

fn gate_counts_text(alloc: Global, counts: GateCounts) -> Result<Vec<u8>, NoMemory>
    ensures { IfOk result (λ text. text.items ≡ report_text (reports.Gates counts)) }
{
    let mut text = counted(alloc, b"ok inputs ", counts.inputs)?;
    add_count(alloc, &mut text, b" latches ", counts.latches)?;
    add_count(alloc, &mut text, b" outputs ", counts.outputs)?;
    add_count(alloc, &mut text, b" ands ", counts.ands)?;
    Ok(text)
}
