// Reading the labels of a trace from its text.
ghost use Rattle.std.specs.Prelude.{◌≡◌, ◌≤◌, [], List, IfOk, IfErr, length};
ghost use Rattle.gos_witness.specs.declared.labels.Label as seen;
ghost use Rattle.gos_witness.specs.Ports.{AreOfPorts, ArePorts};
ghost use Rattle.gos_witness.specs.TextFaults.{IsFormFault};
ghost use Rattle.gos_witness.specs.TraceText.{IsTraceText, IsTraceTextOf};
ghost use Rattle.gos_witness.specs.inner.Left.{HasLeft, End, Leads};
ghost use Rattle.gos_witness.specs.inner.Parts.{BreaksOff};
ghost use Rattle.gos_witness.specs.inner.TraceParts.{names_of, TraceLeft};

use crate::entry::{Entry, next_line};
use crate::fault::ExplainFault;
use crate::labels::Label;
use crate::port_table::PortTable;
use crate::program::ProgramPort;
use gos_lex::Cursor;
use std::alloc::Global;

/// The labels of the trace of these ports whose text this is. There is no limit on the text.
pub fn read_labels(
    alloc: Global,
    text: &[u8],
    ports: &[ProgramPort],
) -> Result<Vec<Label>, ExplainFault>
    requires { ArePorts ports.now }
    ensures read { IfOk result (λ labels. IsTraceTextOf ports.now text.now labels.items) }
    ensures of_ports { IfOk result (λ labels. AreOfPorts ports.now labels.items) }
    ensures fault { IfErr result (IsFormFault (IsTraceText ports.now) text.now) }
{
    let mut cursor = Cursor::new(text);
    let labels = all_labels(alloc, &mut cursor, ports)?;
    let at = cursor.at();
    if cursor.finished() {
        Ok(labels)
    } else {
        Err(ExplainFault::Form { at })
    }
}

// Passes the whole text of a trace, and gives the labels.
fn all_labels(
    alloc: Global,
    cursor: &mut Cursor,
    ports: &[ProgramPort],
) -> Result<Vec<Label>, ExplainFault>
    requires ports { ArePorts ports.now }
    requires within { cursor.now.at ≤ length cursor.now.text }
    ensures passed { IfOk result (λ labels. Leads (List seen.Label) (TraceLeft ports.now 0 []) (End (List seen.Label) labels.items) cursor.old cursor.new) }
    ensures wrong { IfErr result (BreaksOff (HasLeft (List seen.Label) (TraceLeft ports.now 0 [])) cursor.old) }
{
    let table = PortTable::new(alloc, ports)?;
    let labels = labels(alloc, cursor, &table, ports)?;
    Ok(labels)
}

// Passes all lines, and gives the labels.
fn labels(
    alloc: Global,
    cursor: &mut Cursor,
    table: &PortTable,
    ports: &[ProgramPort],
) -> Result<Vec<Label>, ExplainFault>
    requires ports { ArePorts ports.now }
    requires table { table.now.names.items ≡ names_of ports.now }
    requires within { cursor.now.at ≤ length cursor.now.text }
    ensures passed { IfOk result (λ labels. Leads (List seen.Label) (TraceLeft ports.now 0 []) (End (List seen.Label) labels.items) cursor.old cursor.new) }
    ensures wrong { IfErr result (BreaksOff (HasLeft (List seen.Label) (TraceLeft ports.now 0 [])) cursor.old) }
{
    let mut labels = Vec::new(alloc);
    let mut from = 0;
    loop {
        let line = match next_line(cursor, table, ports, from) {
            Ok(line) => line,
            Err(at) => return Err(ExplainFault::Form { at }),
        };
        match line {
            Entry::Pulse(cycle, label) => {
                labels.push(label)?;
                from = cycle;
            }
            Entry::Last(_) => return Ok(labels),
        }
    }
}
