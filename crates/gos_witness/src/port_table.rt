// The ports of a program by their names, as the lines of traces have them.
ghost use Rattle.std.specs.Prelude.{◌≡◌, ◌<◌, ◌≤◌, ◌⊎◌, [], IfOk, IfErr, IfSome, length, get_or};
ghost use Rattle.gos_lex.specs.Items.{Misses};
ghost use Rattle.gos_lex.specs.ItemTexts.{Passed, IsAmong, ended};
ghost use Rattle.gos_witness.specs.inner.TraceParts.{names_of};

use crate::program::ProgramPort;
use gos_lex::{Cursor, Name, NameTable};
use gos_types::NoMemory;
use std::alloc::Global;
use std::marker::Model;

/// A port's name, and the point behind it.
#[derive(Drop)]
pub struct PortName {
    bytes: Vec<u8>,
}

impl Model for PortName {
    ghost use Rattle.std.specs.Prelude.{List, ℕ};

    ghost Value = { List ℕ };

    ghost view = { λ name. name.bytes.items };
}

impl PortName {
    /// The name and a point.
    pub fn new(alloc: Global, name: &Name) -> Result<PortName, NoMemory>
        ensures { IfOk result (λ dotted. dotted ≡ ended 46 name.now) }
    {
        let mut bytes = name.bytes().to_vec(alloc)?;
        bytes.push(b'.')?;
        Ok(PortName { bytes })
    }

    /// Its bytes.
    pub fn bytes(&self) -> &[u8]
        ensures { result.now ≡ self.now }
    {
        self.bytes.as_slice()
    }
}

/// The names of ports, each with the point behind it, and their numbers.
#[derive(Drop)]
pub struct PortTable {
    pub names: Vec<PortName>,
    numbers: NameTable,
}

impl PortTable {
    /// The table of these ports.
    pub fn new(alloc: Global, ports: &[ProgramPort]) -> Result<PortTable, NoMemory>
        ensures { IfOk result (λ table. table.names.items ≡ names_of ports.now) }
    {
        let names = names_of(alloc, ports)?;
        let numbers = numbers_of(alloc, ports)?;
        Ok(PortTable { names, numbers })
    }

    /// Passes the name of a port and the point behind it, and gives the port's number.
    pub fn port(&self, cursor: &mut Cursor) -> Result<usize, usize>
        requires { 0 < length self.now.names.items }
        ensures inside { IfOk result (λ k. k < length self.now.names.items) }
        ensures passed { IfOk result (λ k. Passed cursor.old cursor.new (get_or self.now.names.items k [])) }
        ensures wrong { IfErr result (Misses (IsAmong self.now.names.items) cursor.old.text cursor.old.at) }
    {
        match self.likely(cursor.rest()) {
            Some(k) => this_or_any(cursor, self.names.as_slice(), k),
            None => any_name(cursor, self.names.as_slice()),
        }
    }

    // The number of the port whose name ends at the first point, if there is one.
    fn likely(&self, text: &[u8]) -> Option<usize>
        ensures { IfSome result (λ k. k < length self.now.names.items) }
    {
        let end = text.iter().position(|b| *b == b'.')?;
        let number = self.numbers.get(&text[..end])?;
        if number < self.names.len() {
            Some(number)
        } else {
            None
        }
    }
}

// The names of ports, each with the point behind it.
fn names_of(alloc: Global, ports: &[ProgramPort]) -> Result<Vec<PortName>, NoMemory>
    ensures { IfOk result (λ names. names.items ≡ names_of ports.now) }
{
    let mut names = Vec::new(alloc);
    for port in ports {
        let name = PortName::new(alloc, &port.name)?;
        names.push(name)?;
    }
    Ok(names)
}

/// The numbers of ports by their names.
pub fn numbers_of(alloc: Global, ports: &[ProgramPort]) -> Result<NameTable, NoMemory> {
    let mut numbers = NameTable::new(alloc);
    for (number, port) in ports.iter().enumerate() {
        let name = port.name.bytes().to_vec(alloc)?;
        numbers.add(name, number)?;
    }
    Ok(numbers)
}

// The name at this place, and the point behind it.
fn name_at(names: &[PortName], k: usize) -> &[u8]
    requires { k < length names.now }
    ensures { result.now ≡ get_or names.now k [] }
{
    names[k].bytes()
}

// Passes this name, or else whichever stands there.
fn this_or_any(cursor: &mut Cursor, names: &[PortName], k: usize) -> Result<usize, usize>
    requires { k < length names.now }
    ensures inside { IfOk result (λ k. k < length names.now) }
    ensures passed { IfOk result (λ k. Passed cursor.old cursor.new (get_or names.now k [])) }
    ensures wrong { IfErr result (Misses (IsAmong names.now) cursor.old.text cursor.old.at) }
{
    match cursor.word(name_at(names, k)) {
        Ok(()) => Ok(k),
        Err(_) => any_name(cursor, names),
    }
}

// Passes one of these names, and gives its place among them.
#[cold]
#[inline(never)]
fn any_name(cursor: &mut Cursor, names: &[PortName]) -> Result<usize, usize>
    requires { 0 < length names.now }
    ensures inside { IfOk result (λ k. k < length names.now) }
    ensures passed { IfOk result (λ k. Passed cursor.old cursor.new (get_or names.now k [])) }
    ensures wrong { IfErr result (Misses (IsAmong names.now) cursor.old.text cursor.old.at) }
{
    let mut furthest = match cursor.word(name_at(names, 0)) {
        Ok(()) => return Ok(0),
        Err(at) => at,
    };
    for k in 1..names.len() {
        match cursor.word(name_at(names, k)) {
            Ok(()) => return Ok(k),
            Err(at) => furthest = further(furthest, at),
        }
    }
    Err(furthest)
}

// The greater of two places.
fn further(one: usize, other: usize) -> usize
    ensures at_least { (one ≤ result) × (other ≤ result) }
    ensures either { (result ≡ one) ⊎ (result ≡ other) }
{
    if one < other { other } else { one }
}
