// The lines of a trace, as they are read.
ghost use Rattle.std.specs.Prelude.{◌≡◌, ◌<◌, ◌≤◌, [], ◌↔◌, IsTrue, IfOk, IfErr, length, get_or};
ghost use Rattle.gos_types.specs.Types.{Com, Exp, Var};
ghost use Rattle.gos_netlist.specs.Seen.{ground_type};
ghost use Rattle.gos_netlist.specs.Writable.{IsPortType};
ghost use Rattle.gos_lex.specs.Items.{Misses};
ghost use Rattle.gos_lex.specs.ItemTexts.{Passed, IsAmong};
ghost use Rattle.gos_witness.specs.declared.entry.Entry as seen;
ghost use Rattle.gos_witness.specs.declared.labels.Label as labels;
ghost use Rattle.gos_witness.specs.Ports.{ArePorts};
ghost use Rattle.gos_witness.specs.inner.Left.{End, Leads, Breaks};
ghost use Rattle.gos_witness.specs.inner.TraceParts.{names_of, type_at, event_heads, head_at, value_width, IsValue, value_text, IsValueText, LabelLeft, PulseLeft, LastLeft, IsEntry, IsEntryText, entry_text};

use crate::labels::Label;
use crate::port_table::PortTable;
use crate::program::ProgramPort;
use gos_lex::{Cursor, one_of};
use gos_netlist::Ground;
use gos_types::greatest;

// The last cycle that a label can have, and the most cycles.
const LAST_CYCLE: u64 = 999_999;

const MOST_CYCLES: u64 = 1_000_000;

/// A line of a trace.
#[derive(Debug, Clone, Copy)]
pub enum Entry {
    /// A label in this cycle.
    Pulse(u64, Label),
    /// The last line, with the number of cycles.
    Last(u64),
}

/// Passes a line of a trace over these ports, in which cycles go on with `from`.
pub fn next_line(
    cursor: &mut Cursor,
    table: &PortTable,
    ports: &[ProgramPort],
    from: u64,
) -> Result<Entry, usize>
    requires ports { ArePorts ports.now }
    requires table { table.now.names.items ≡ names_of ports.now }
    requires from { from ≤ 999999 }
    requires within { cursor.now.at ≤ length cursor.now.text }
    ensures is { IfOk result (IsEntry ports.now from) }
    ensures passed { IfOk result (λ entry. Passed cursor.old cursor.new (entry_text ports.now entry)) }
    ensures wrong { IfErr result (Misses (IsEntryText ports.now from) cursor.old.text cursor.old.at) }
{
    if begins_last(cursor) {
        let end = last(cursor, from)?;
        return Ok(end);
    }
    let line = pulse(cursor, table, ports, from)?;
    Ok(line)
}

// Whether a `c` stands at the cursor.
fn begins_last(cursor: &Cursor) -> bool
    ensures { IsTrue result ↔ ((cursor.now.at < length cursor.now.text) × (get_or cursor.now.text cursor.now.at 0 ≡ 99)) }
{
    match cursor.rest() {
        [b'c', ..] => true,
        _ => false,
    }
}

// Passes the last line, where the last label was in cycle `from`.
fn last(cursor: &mut Cursor, from: u64) -> Result<Entry, usize>
    requires { from ≤ 999999 }
    ensures passed { IfOk result (λ entry. Leads seen.Entry (LastLeft from) (End seen.Entry entry) cursor.old cursor.new) }
    ensures wrong { IfErr result (Breaks seen.Entry (LastLeft from) cursor.old) }
{
    cursor.word(b"cycles ")?;
    let cycles = cursor.ended_number(from + 1, MOST_CYCLES, b'\n')?;
    Ok(Entry::Last(cycles))
}

// Passes the line of a label.
fn pulse(
    cursor: &mut Cursor,
    table: &PortTable,
    ports: &[ProgramPort],
    from: u64,
) -> Result<Entry, usize>
    requires ports { ArePorts ports.now }
    requires table { table.now.names.items ≡ names_of ports.now }
    requires from { from ≤ 999999 }
    ensures passed { IfOk result (λ entry. Leads seen.Entry (PulseLeft ports.now from) (End seen.Entry entry) cursor.old cursor.new) }
    ensures wrong { IfErr result (Breaks seen.Entry (PulseLeft ports.now from) cursor.old) }
{
    let cycle = cursor.ended_number(from, LAST_CYCLE, b' ')?;
    let label = label_line(cursor, table, ports)?;
    Ok(Entry::Pulse(cycle, label))
}

// Passes a label and the line feed behind it.
fn label_line(cursor: &mut Cursor, table: &PortTable, ports: &[ProgramPort]) -> Result<Label, usize>
    requires ports { ArePorts ports.now }
    requires table { table.now.names.items ≡ names_of ports.now }
    ensures passed { IfOk result (λ label. Leads labels.Label (LabelLeft ports.now) (End labels.Label label) cursor.old cursor.new) }
    ensures wrong { IfErr result (Breaks labels.Label (LabelLeft ports.now) cursor.old) }
{
    let port = table.port(cursor)?;
    let ground = ground_at(ports, port);
    let place = event(cursor, ground)?;
    let value = value(cursor, ground, place)?;
    Ok(label_of(port, place, value))
}

// The label of these numbers.
fn label_of(port: usize, place: usize, value: u64) -> Label
    requires port { port < 4294967296 }
    requires place { place < 4294967296 }
    ensures { result ≡ record { port = port; place = place; value = value } }
{
    Label {
        port: port as u32,
        place: place as u32,
        value,
    }
}

// What the port of this number carries.
fn ground_at(ports: &[ProgramPort], port: usize) -> Ground
    requires there { port < length ports.now }
    requires ports { ArePorts ports.now }
    ensures { ground_type result ≡ type_at ports.now port }
{
    ports[port].ground
}

// Passes the name of an event and the byte behind it, and gives its place.
fn event(cursor: &mut Cursor, ground: Ground) -> Result<usize, usize>
    ensures inside { IfOk result (λ place. place < length (event_heads (ground_type ground))) }
    ensures passed { IfOk result (λ place. Passed cursor.old cursor.new (head_at (ground_type ground) place)) }
    ensures wrong { IfErr result (Misses (IsAmong (event_heads (ground_type ground))) cursor.old.text cursor.old.at) }
{
    match ground {
        Ground::Com => com_event(cursor),
        Ground::Exp(_) => exp_event(cursor),
        Ground::Var(_) => var_event(cursor),
    }
}

// Passes an event of a command.
fn com_event(cursor: &mut Cursor) -> Result<usize, usize>
    ensures inside { IfOk result (λ place. place < length (event_heads Com)) }
    ensures passed { IfOk result (λ place. Passed cursor.old cursor.new (head_at Com place)) }
    ensures wrong { IfErr result (Misses (IsAmong (event_heads Com)) cursor.old.text cursor.old.at) }
{
    let words = [b"run\n".as_slice(), b"done\n".as_slice()];
    match one_of(cursor, &words) {
        Ok(place) => Ok(place),
        Err(at) => Err(at),
    }
}

// Passes an event of an expression.
fn exp_event(cursor: &mut Cursor) -> Result<usize, usize>
    ensures inside { IfOk result (λ place. place < length (event_heads (Exp 1))) }
    ensures passed { IfOk result (λ place. Passed cursor.old cursor.new (head_at (Exp 1) place)) }
    ensures wrong { IfErr result (Misses (IsAmong (event_heads (Exp 1))) cursor.old.text cursor.old.at) }
{
    let words = [b"ask\n".as_slice(), b"ans ".as_slice()];
    match one_of(cursor, &words) {
        Ok(place) => Ok(place),
        Err(at) => Err(at),
    }
}

// Passes an event of a variable.
fn var_event(cursor: &mut Cursor) -> Result<usize, usize>
    ensures inside { IfOk result (λ place. place < length (event_heads (Var 1))) }
    ensures passed { IfOk result (λ place. Passed cursor.old cursor.new (head_at (Var 1) place)) }
    ensures wrong { IfErr result (Misses (IsAmong (event_heads (Var 1))) cursor.old.text cursor.old.at) }
{
    let words = [
        b"read\n".as_slice(),
        b"ans ".as_slice(),
        b"write ".as_slice(),
        b"done\n".as_slice(),
    ];
    match one_of(cursor, &words) {
        Ok(place) => Ok(place),
        Err(at) => Err(at),
    }
}

// Passes the value of an event, where it has one.
fn value(cursor: &mut Cursor, ground: Ground, place: usize) -> Result<u64, usize>
    requires ground { IsPortType (ground_type ground) }
    requires within { cursor.now.at ≤ length cursor.now.text }
    ensures is { IfOk result (IsValue (value_width (ground_type ground) place)) }
    ensures passed { IfOk result (λ value. Passed cursor.old cursor.new (value_text (value_width (ground_type ground) place) value)) }
    ensures wrong { IfErr result (Misses (IsValueText (value_width (ground_type ground) place)) cursor.old.text cursor.old.at) }
{
    match value_width(ground, place) {
        None => Ok(0),
        Some(width) => cursor.ended_number(0, greatest(width), b'\n'),
    }
}

// How many bits the value of an event has, where it has one.
fn value_width(ground: Ground, place: usize) -> Option<u32>
    ensures { result ≡ value_width (ground_type ground) place }
{
    match ground {
        Ground::Com => None,
        Ground::Exp(width) => match place {
            1 => Some(width),
            _ => None,
        },
        Ground::Var(width) => match place {
            1 | 2 => Some(width),
            _ => None,
        },
    }
}
