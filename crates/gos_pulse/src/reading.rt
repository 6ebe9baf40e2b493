// The reader of pulse files.

ghost use Rattle.std.specs.Prelude.{◌≡◌, ◌≢◌, ◌<◌, ◌+◌, ◌^◌, ℕ, Some, None, All, map, length, IfOk, IfErr, MatchOption, IsTrue, ◌↔◌};
ghost use Rattle.std.specs.Str.Lines.{lines};
ghost use Rattle.gos_lex.specs.Lines.{statements_from};
ghost use Rattle.gos_pulse.specs.Entries.{SaysCycles, IsRunLength, IsInTime, IsValue, IsEntry};
ghost use Rattle.gos_pulse.specs.PulseFile.{IsPulseFile, IsRefused, IsWrongHead, IsWrongEntry, ReadsEntries, Names};
ghost use Rattle.gos_pulse.specs.inner.Reading.{IsEntriesFault};
ghost use Rattle.gos_pulse.specs.inner.EventTable.{IsTable};
ghost use Rattle.gos_pulse.specs.Driving.{GivesInput};

use crate::entries::{Entry, Pulses};
use crate::entry_line::{Written, cycles_of, written_in};
use crate::event_table::EventTable;
use crate::fault::PulseFault;
use gos_lex::{count_lines, next_line};
use gos_netlist::Netlist;
use gos_types::fits;
use std::alloc::Global;

/// The longest pulse file, in bytes.
const MAX_TEXT: usize = 16_777_216;
/// The longest run, in cycles, and the greatest distance.
const MAX_CYCLES: u64 = 1_000_000;
/// The most entries.
const MAX_ENTRIES: usize = 100_000;

/// Reads a pulse file for a netlist. The error is the first wrong line and why it is wrong, in the order `Form`,
/// `Limit`, `NoPort`, `Value`; it is never `Broken`. A text above the limit takes no memory.
pub fn read_pulses(alloc: Global, text: &[u8], net: &Netlist) -> Result<Pulses, PulseFault>
    ensures read { IfOk result (λ pulses. IsPulseFile net.now text.now pulses.0 pulses.1) }
    ensures entries { IfOk result (λ pulses. All (GivesInput net.now) pulses.1) }
    ensures fault { IfErr result (λ fault. fault ≢ PulseFault.NoMemory → IsRefused net.now text.now fault) }
    ensures long { 16777216 < length text.now → IfErr result (λ fault. fault ≡ PulseFault.Limit 0) }
{
    if text.len() > MAX_TEXT {
        return Err(PulseFault::Limit { line: 0 });
    }
    let Some(head) = next_line(alloc, text)? else {
        return Err(PulseFault::Form {
            line: count_lines(text) + 1,
        });
    };
    let line = head.skipped + 1;
    let cycles = read_head(head.words.as_slice(), line)?;
    let table = EventTable::new(alloc, net)?;
    let entries = read_entries(alloc, head.rest, line + 1, cycles, net, &table)?;
    Ok(Pulses::new(cycles, entries))
}

// Reads the first line: `cycles N`.
fn read_head(words: &[&[u8]], line: u64) -> Result<u64, PulseFault>
    ensures read { IfOk result (λ n. SaysCycles (map (λ word. word.now) words.now) n × IsRunLength n) }
    ensures fault { IfErr result (λ fault. Names line fault × IsWrongHead (map (λ word. word.now) words.now) fault) }
{
    let Some(cycles) = cycles_of(words) else {
        return Err(PulseFault::Form { line });
    };
    if cycles == 0 || cycles > MAX_CYCLES {
        return Err(PulseFault::Limit { line });
    }
    Ok(cycles)
}

// Reads the entries of the lines from this number on.
fn read_entries(
    alloc: Global,
    text: &[u8],
    from: u64,
    cycles: u64,
    net: &Netlist,
    table: &EventTable,
) -> Result<Vec<Entry>, PulseFault>
    requires short { from + length text.now < 2 ^ 64 }
    requires table { IsTable net.now table.now }
    ensures read { IfOk result (λ entries. ReadsEntries net.now cycles 0 (statements_from from (lines text.now)) entries.items None) }
    ensures fault { IfErr result (IsEntriesFault net.now cycles (statements_from from (lines text.now))) }
{
    let mut entries = Vec::new(alloc);
    let mut line = from;
    let mut rest = text;
    loop {
        match next_line(alloc, rest)? {
            None => return Ok(entries),
            Some(next) => {
                line += next.skipped;
                let before = entries.len();
                match read_entry(next.words.as_slice(), line, cycles, before, net, table) {
                    Ok(entry) => entries.push(entry)?,
                    Err(fault) => return Err(fault),
                }
                line += 1;
                rest = next.rest;
            }
        }
    }
}

// Reads an entry with so many before it.
fn read_entry(
    words: &[&[u8]],
    line: u64,
    cycles: u64,
    before: usize,
    net: &Netlist,
    table: &EventTable,
) -> Result<Entry, PulseFault>
    requires { IsTable net.now table.now }
    ensures read { IfOk result (IsEntry net.now cycles before (map (λ word. word.now) words.now)) }
    ensures fault { IfErr result (λ fault. Names line fault × IsWrongEntry net.now cycles before (map (λ word. word.now) words.now) fault) }
{
    let Some(written) = written_in(words) else {
        return Err(PulseFault::Form { line });
    };
    if before >= MAX_ENTRIES || !is_in_time(cycles, written.at, written.number) {
        return Err(PulseFault::Limit { line });
    }
    let Some((event, bits)) = table.find(net, written.name) else {
        return Err(PulseFault::NoPort { line });
    };
    let Some(value) = value_for(bits, written.value) else {
        return Err(PulseFault::Value { line });
    };
    Ok(Entry {
        at: written.at,
        number: written.number,
        event,
        value,
    })
}

// Whether a cycle is one of the run, or a distance is in its range.
fn is_in_time(cycles: u64, at: bool, number: u64) -> bool
    ensures { IsTrue result ↔ IsInTime cycles at number }
{
    if at {
        number < cycles
    } else {
        number <= MAX_CYCLES
    }
}

// The value of a pulse whose event has so many bits, where this is written.
fn value_for(bits: u32, written: Option<u64>) -> Option<u64>
    ensures { MatchOption result ((value : ℕ) → IsValue bits written value → ⊥) (IsValue bits written) }
{
    match written {
        None if bits == 0 => Some(0),
        Some(value) if bits != 0 && fits(value, bits) => Some(value),
        _ => None,
    }
}
