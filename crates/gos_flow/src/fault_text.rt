// The lines that commands print.

ghost use Rattle.std.specs.Prelude.{◌≡◌, ◌≢◌, ◌++◌, codes, map, IfOk, OnOk};
ghost use Rattle.gos_netlist.specs.declared.fault.NetTextFault.TheVariants as texts;
ghost use Rattle.gos_netlist.specs.NetText.{spaced};
ghost use Rattle.gos_netlist.specs.Seen.{number_of};
ghost use Rattle.gos_netcheck.specs.declared.fault.NetFault.TheVariants as nets;
ghost use Rattle.gos_verilog.specs.declared.fault.VFault.TheVariants as verilog;
ghost use Rattle.gos_flow.specs.Ends.{IsRealCause};
ghost use Rattle.gos_flow.specs.Lines.{counted, net_text, verilog_text, refusal_text, cause_text, fault_line, done_line};

use crate::status::Cause;
use gos_netcheck::NetFault;
use gos_netlist::{NetId, NetTextFault};
use gos_types::NoMemory;
use gos_verilog::VFault;
use std::alloc::Global;

/// The line of a command that is done, of a netlist of so many cells.
pub fn done_text(alloc: Global, cells: u64) -> Result<Vec<u8>, NoMemory>
    ensures { IfOk result (λ line. line.items ≡ done_line cells) }
{
    let mut line = counted(alloc, b"ok cells ", cells)?;
    line.push(b'\n')?;
    Ok(line)
}

/// The line of a file that is rejected for a cause which is not want of memory.
pub fn fault_text(alloc: Global, file: &[u8], cause: &Cause) -> Result<Vec<u8>, NoMemory>
    ensures cause { IfOk result (λ _. IsRealCause cause.now) }
    ensures line { IfOk result (λ line. line.items ≡ fault_line file.now cause.now) }
{
    let what = cause_text(alloc, cause)?;
    let mut line = file.to_vec(alloc)?;
    line.extend_from_slice(b": ")?;
    line.extend_from_slice(what.as_slice())?;
    line.push(b'\n')?;
    Ok(line)
}

// What is wrong.
fn cause_text(alloc: Global, cause: &Cause) -> Result<Vec<u8>, NoMemory>
    ensures cause { IfOk result (λ _. IsRealCause cause.now) }
    ensures text { IfOk result (λ text. text.items ≡ cause_text cause.now) }
{
    match cause {
        Cause::Net(fault) => net_text(alloc, fault),
        Cause::Verilog(fault) => verilog_text(alloc, fault),
        Cause::Refused(fault) => refusal_text(alloc, fault),
    }
}

fn net_text(alloc: Global, fault: &NetTextFault) -> Result<Vec<u8>, NoMemory>
    ensures cause { IfOk result (λ _. fault.now ≢ texts.NoMemory) }
    ensures text { IfOk result (λ text. text.items ≡ net_text fault.now) }
{
    match fault {
        NetTextFault::Form { at } => counted(alloc, b"N1 at ", *at as u64),
        NetTextFault::Limit { at } => counted(alloc, b"N2 limit at ", *at as u64),
        NetTextFault::NoMemory => Err(NoMemory),
    }
}

fn verilog_text(alloc: Global, fault: &VFault) -> Result<Vec<u8>, NoMemory>
    ensures cause { IfOk result (λ _. fault.now ≢ verilog.NoMemory) }
    ensures text { IfOk result (λ text. text.items ≡ verilog_text fault.now) }
{
    match fault {
        VFault::Form { at } => counted(alloc, b"V1 at ", *at as u64),
        VFault::NoMemory => Err(NoMemory),
    }
}

fn refusal_text(alloc: Global, fault: &NetFault) -> Result<Vec<u8>, NoMemory>
    ensures cause { IfOk result (λ _. fault.now ≢ nets.NoMemory) }
    ensures text { IfOk result (λ text. text.items ≡ refusal_text fault.now) }
{
    match fault {
        NetFault::Cycle { nets } => cycle_text(alloc, nets.as_slice()),
        NetFault::Width { cell } => counted(alloc, b"K2 cell ", u64::from(*cell)),
        NetFault::NoSuchNet { cell } => counted(alloc, b"K3 cell ", u64::from(*cell)),
        NetFault::Port { index } => counted(alloc, b"K4 port ", *index as u64),
        NetFault::NoMemory => Err(NoMemory),
    }
}

// A combinational cycle, with all its nets.
fn cycle_text(alloc: Global, nets: &[NetId]) -> Result<Vec<u8>, NoMemory>
    ensures { IfOk result (λ text. text.items ≡ codes "K1 cycle" ++ spaced (map number_of nets.now)) }
{
    let mut text = b"K1 cycle".to_vec(alloc)?;
    for net in nets {
        add_count(alloc, &mut text, b" ", u64::from(net.0))?;
    }
    Ok(text)
}

// A word and a number.
fn counted(alloc: Global, word: &[u8], count: u64) -> Result<Vec<u8>, NoMemory>
    ensures { IfOk result (λ text. text.items ≡ counted word.now count) }
{
    let mut text = Vec::new(alloc);
    add_count(alloc, &mut text, word, count)?;
    Ok(text)
}

// Adds a word and a number to a text.
fn add_count(alloc: Global, text: &mut Vec<u8>, word: &[u8], count: u64) -> Result<(), NoMemory>
    ensures { OnOk result (text.new.items ≡ text.old.items ++ counted word.now count) }
{
    text.extend_from_slice(word)?;
    let digits = count.to_string(alloc)?;
    text.extend_from_slice(digits.as_bytes())?;
    Ok(())
}
