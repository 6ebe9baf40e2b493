// The line of a fault.

ghost use Rattle.std.specs.Prelude.{◌≡◌, ◌≢◌, ◌++◌, codes, map, IfOk, OnOk};
ghost use Rattle.std.specs.Option.{option_copied};
ghost use Rattle.gos_lex.specs.declared.fault.LexFault.TheVariants as lex;
ghost use Rattle.gos_syntax.specs.declared.fault.SyntaxFault.TheVariants as syntax;
ghost use Rattle.gos_plan.specs.declared.fault.ObjectFault.TheVariants as object;
ghost use Rattle.gos_netlist.specs.declared.fault.NetTextFault.TheVariants as text;
ghost use Rattle.gos_netlist.specs.NetText.{spaced};
ghost use Rattle.gos_netlist.specs.Seen.{number_of};
ghost use Rattle.gos_netcheck.specs.declared.fault.NetFault.TheVariants as net;
ghost use Rattle.gos_pulse.specs.declared.fault.PulseFault.TheVariants as pulse;
ghost use Rattle.gos_gates.specs.declared.fault.GateFault.TheVariants as gates;
ghost use Rattle.gos_witness.specs.declared.fault.ExplainFault.TheVariants as explain;
ghost use Rattle.gos_command.specs.Ends.{IsRealCause};
ghost use Rattle.gos_command.specs.Lines.{counted, lex_text, syntax_text, object_text, net_text, refusal_text, event_name, pulse_text, gates_text, explain_text, cause_text, fault_line};

use crate::check_text::check_text;
use crate::link_text::link_text;
use crate::status::Cause;
use gos_gates::GateFault;
use gos_lex::LexFault;
use gos_netcheck::NetFault;
use gos_netlist::{NetId, NetTextFault, Netlist};
use gos_plan::ObjectFault;
use gos_pulse::{PulseFault, name_of_number};
use gos_syntax::SyntaxFault;
use gos_types::NoMemory;
use gos_witness::ExplainFault;
use std::alloc::Global;

/// The line of a fault of this file, which is not want of memory. An event is named as one of the netlist.
pub fn fault_text(
    alloc: Global,
    file: &[u8],
    cause: &Cause,
    net: Option<&Netlist>,
) -> Result<Vec<u8>, NoMemory>
    ensures cause { IfOk result (λ _. IsRealCause cause.now) }
    ensures line { IfOk result (λ line. line.items ≡ fault_line (option_copied net.entry) (record { file = file.now; cause = cause.now })) }
{
    let what = cause_text(alloc, cause, net)?;
    let mut line = file.to_vec(alloc)?;
    line.extend_from_slice(b": ")?;
    line.extend_from_slice(what.as_slice())?;
    line.push(b'\n')?;
    Ok(line)
}

// What is wrong.
fn cause_text(alloc: Global, cause: &Cause, net: Option<&Netlist>) -> Result<Vec<u8>, NoMemory>
    ensures cause { IfOk result (λ _. IsRealCause cause.now) }
    ensures text { IfOk result (λ text. text.items ≡ cause_text (option_copied net.entry) cause.now) }
{
    match cause {
        Cause::Lex(fault) => lex_text(alloc, fault),
        Cause::Syntax(fault) => syntax_text(alloc, fault),
        Cause::Check(fault) => check_text(alloc, fault),
        Cause::Object(fault) => object_text(alloc, fault),
        Cause::Link(fault) => link_text(alloc, fault),
        Cause::Net(fault) => net_text(alloc, fault),
        Cause::Refused(fault) => refusal_text(alloc, fault),
        Cause::Pulse(fault) => pulse_text(alloc, fault, net),
        Cause::Gates(fault) => gates_text(alloc, fault),
        Cause::Explain(fault) => explain_text(alloc, fault),
    }
}

fn lex_text(alloc: Global, fault: &LexFault) -> Result<Vec<u8>, NoMemory>
    ensures cause { IfOk result (λ _. fault.now ≢ lex.NoMemory) }
    ensures text { IfOk result (λ text. text.items ≡ lex_text fault.now) }
{
    match fault {
        LexFault::TooLong { len } => counted(alloc, b"L1 length ", *len as u64),
        LexFault::Byte { at } => counted(alloc, b"L2 byte at ", *at as u64),
        LexFault::Number { at } => counted(alloc, b"L3 number at ", *at as u64),
        LexFault::Name { at } => counted(alloc, b"L4 name at ", *at as u64),
        LexFault::NoMemory => Err(NoMemory),
    }
}

fn syntax_text(alloc: Global, fault: &SyntaxFault) -> Result<Vec<u8>, NoMemory>
    ensures cause { IfOk result (λ _. fault.now ≢ syntax.NoMemory) }
    ensures text { IfOk result (λ text. text.items ≡ syntax_text fault.now) }
{
    match fault {
        SyntaxFault::Unexpected { at } => counted(alloc, b"S1 at ", *at as u64),
        SyntaxFault::Depth { at } => counted(alloc, b"S2 depth at ", *at as u64),
        SyntaxFault::TooManyImports { at } => counted(alloc, b"S3 imports at ", *at as u64),
        SyntaxFault::NoMemory => Err(NoMemory),
    }
}

fn object_text(alloc: Global, fault: &ObjectFault) -> Result<Vec<u8>, NoMemory>
    ensures cause { IfOk result (λ _. fault.now ≢ object.NoMemory) }
    ensures text { IfOk result (λ text. text.items ≡ object_text fault.now) }
{
    match fault {
        ObjectFault::Form { at } => counted(alloc, b"O1 at ", *at as u64),
        ObjectFault::Joint { index } => counted(alloc, b"O2 joint ", *index as u64),
        ObjectFault::Limit { at } => counted(alloc, b"O3 limit at ", *at as u64),
        ObjectFault::NoMemory => Err(NoMemory),
    }
}

fn net_text(alloc: Global, fault: &NetTextFault) -> Result<Vec<u8>, NoMemory>
    ensures cause { IfOk result (λ _. fault.now ≢ text.NoMemory) }
    ensures text { IfOk result (λ text. text.items ≡ net_text fault.now) }
{
    match fault {
        NetTextFault::Form { at } => counted(alloc, b"N1 at ", *at as u64),
        NetTextFault::Limit { at } => counted(alloc, b"N2 limit at ", *at as u64),
        NetTextFault::NoMemory => Err(NoMemory),
    }
}

fn refusal_text(alloc: Global, fault: &NetFault) -> Result<Vec<u8>, NoMemory>
    ensures cause { IfOk result (λ _. fault.now ≢ net.NoMemory) }
    ensures text { IfOk result (λ text. text.items ≡ refusal_text fault.now) }
{
    match fault {
        NetFault::Cycle { nets } => cycle_text(alloc, nets.as_slice()),
        NetFault::Width { cell } => counted(alloc, b"K2 cell ", u64::from(*cell)),
        NetFault::NoSuchNet { cell } => counted(alloc, b"K3 cell ", u64::from(*cell)),
        NetFault::Port { index } => counted(alloc, b"K4 port ", *index as u64),
        NetFault::NoMemory => Err(NoMemory),
    }
}

// A combinational cycle, with all its nets.
fn cycle_text(alloc: Global, nets: &[NetId]) -> Result<Vec<u8>, NoMemory>
    ensures { IfOk result (λ text. text.items ≡ codes "K1 cycle" ++ spaced (map number_of nets.now)) }
{
    let mut text = b"K1 cycle".to_vec(alloc)?;
    for net in nets {
        add_count(alloc, &mut text, b" ", u64::from(net.0))?;
    }
    Ok(text)
}

fn gates_text(alloc: Global, fault: &GateFault) -> Result<Vec<u8>, NoMemory>
    ensures cause { IfOk result (λ _. fault.now ≢ gates.NoMemory) }
    ensures text { IfOk result (λ text. text.items ≡ gates_text fault.now) }
{
    match fault {
        GateFault::TooLarge { bits } => counted(alloc, b"G1 bits ", *bits),
        GateFault::NoMemory => Err(NoMemory),
    }
}

fn explain_text(alloc: Global, fault: &ExplainFault) -> Result<Vec<u8>, NoMemory>
    ensures cause { IfOk result (λ _. fault.now ≢ explain.NoMemory) }
    ensures text { IfOk result (λ text. text.items ≡ explain_text fault.now) }
{
    match fault {
        ExplainFault::Form { at } => counted(alloc, b"M1 at ", *at as u64),
        ExplainFault::Wrong { line } => counted(alloc, b"M2 line ", *line),
        ExplainFault::Labels { matched } => counted(alloc, b"M3 labels ", *matched),
        ExplainFault::Nodes { nodes } => counted(alloc, b"M4 nodes ", *nodes),
        ExplainFault::NotTrace { label } => counted(alloc, b"M5 label ", *label),
        ExplainFault::Spent { label } => counted(alloc, b"M6 label ", *label),
        ExplainFault::Taken => Ok(b"M7".to_vec(alloc)?),
        ExplainFault::NoMemory => Err(NoMemory),
    }
}

fn pulse_text(alloc: Global, fault: &PulseFault, net: Option<&Netlist>) -> Result<Vec<u8>, NoMemory>
    ensures cause { IfOk result (λ _. fault.now ≢ pulse.NoMemory) }
    ensures text { IfOk result (λ text. text.items ≡ pulse_text (option_copied net.entry) fault.now) }
{
    match fault {
        PulseFault::Form { line } => counted(alloc, b"P1 line ", *line),
        PulseFault::NoPort { line } => counted(alloc, b"P2 line ", *line),
        PulseFault::Value { line } => counted(alloc, b"P3 line ", *line),
        PulseFault::Limit { line } => counted(alloc, b"P4 line ", *line),
        PulseFault::Broken { cycle, event } => broken_text(alloc, *cycle, *event, net),
        PulseFault::NoMemory => Err(NoMemory),
    }
}

// An input that breaks the protocol.
fn broken_text(
    alloc: Global,
    cycle: u64,
    event: usize,
    net: Option<&Netlist>,
) -> Result<Vec<u8>, NoMemory>
    ensures { IfOk result (λ text. text.items ≡ codes "P5 " ++ event_name (option_copied net.entry) event ++ counted (codes " at cycle ") cycle) }
{
    let mut text = b"P5 ".to_vec(alloc)?;
    if let Some(net) = net {
        let name = name_of_number(alloc, net, event)?;
        text.extend_from_slice(name.as_slice())?;
    }
    add_count(alloc, &mut text, b" at cycle ", cycle)?;
    Ok(text)
}

/// A word and a number.
pub fn counted(alloc: Global, word: &[u8], count: u64) -> Result<Vec<u8>, NoMemory>
    ensures { IfOk result (λ text. text.items ≡ counted word.now count) }
{
    let mut text = Vec::new(alloc);
    add_count(alloc, &mut text, word, count)?;
    Ok(text)
}

/// Adds a word and a number to a text.
pub fn add_count(alloc: Global, text: &mut Vec<u8>, word: &[u8], count: u64) -> Result<(), NoMemory>
    ensures { OnOk result (text.new.items ≡ text.old.items ++ counted word.now count) }
{
    text.extend_from_slice(word)?;
    let digits = count.to_string(alloc)?;
    text.extend_from_slice(digits.as_bytes())?;
    Ok(())
}
