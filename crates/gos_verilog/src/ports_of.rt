// The ports whose nets these are.
ghost use Rattle.std.specs.Prelude.{◌≡◌, ◌≤◌, ◌<◌, ◌↔◌, ◌++◌, ℕ, List, IfOk, IfSome, IsTrue, MatchOption, length, map};
ghost use Rattle.std.specs.List.{AllByRecursion};
ghost use Rattle.gos_lex.specs.Names.{IsNameOrWord};
ghost use Rattle.gos_netlist.specs.Seen.{ground_type, number_of};
ghost use Rattle.gos_netlist.specs.Writable.{IsNumber, IsPortType, IsWritablePort};
ghost use Rattle.gos_netlist.specs.Events.{net_count};
ghost use Rattle.gos_netlist.specs.Nets.{NetPort};
ghost use Rattle.gos_verilog.specs.PortNets.{PortNet as Net, nets_of_port, port_nets};
ghost use Rattle.gos_verilog.specs.inner.Stages.{suffix_length};

use crate::port_net::PortNet;
use gos_lex::{Name, is_name_or_word};
use gos_netlist::{Ground, NetId, Port, Side};
use gos_types::{NoMemory, is_width};
use std::alloc::Global;

/// The ports whose nets these are, one behind the other; none where there are no such ports.
#[tactic(auto, using(crate::proofs::ListLemmas::all_snoc))]
pub fn ports_of(alloc: Global, nets: &[PortNet]) -> Result<Option<Vec<Port>>, NoMemory>
    ensures writable { IfOk result (λ found. IfSome found (λ ports. AllByRecursion IsWritablePort ports.items)) }
    ensures stands { IfOk result (λ found. (ports : List NetPort) → AllByRecursion IsWritablePort ports → nets.now ≡ port_nets ports
        → MatchOption found ⊥ (λ list. list.items ≡ ports)) }
{
    let mut ports = Vec::new(alloc);
    let mut at = 0;
    while at < nets.len() {
        match port_at(alloc, &nets[at..])? {
            Some((port, count)) => {
                at += count;
                ports.push(port)?;
            }
            None => return Ok(None),
        }
    }
    Ok(Some(ports))
}

// The port whose nets stand first, with how many these are.
fn port_at(alloc: Global, nets: &[PortNet]) -> Result<Option<(Port, usize)>, NoMemory>
    ensures writable { IfOk result (λ found. IfSome found (λ both. IsWritablePort both.0)) }
    ensures count { IfOk result (λ found. IfSome found (λ both. (0 < both.1) × (both.1 ≤ length nets.now))) }
    ensures stands { IfOk result (λ found. (p : NetPort) (behind : List Net) → IsWritablePort p → nets.now ≡ nets_of_port p ++ behind
        → MatchOption found ⊥ (λ both. (both.0 ≡ p) × (both.1 ≡ net_count p.ty))) }
{
    match ground_of(nets) {
        Some(ground) => {
            let count = ground.net_count();
            match port(alloc, &nets[..count], ground)? {
                Some(port) => Ok(Some((port, count))),
                None => Ok(None),
            }
        }
        None => Ok(None),
    }
}

// The type of the port whose nets stand first, by the name of the first.
fn ground_of(nets: &[PortNet]) -> Option<Ground>
    ensures count { IfSome result (λ carried. net_count (ground_type carried) ≤ length nets.now) }
    ensures stands { (p : NetPort) (behind : List Net) → IsWritablePort p → nets.now ≡ nets_of_port p ++ behind
        → MatchOption result ⊥ (λ carried. ground_type carried ≡ p.ty) }
{
    if nets.len() < 2 {
        return None;
    }
    let first = &nets[0];
    if ends_with(&first.name, b"__run") {
        return Some(Ground::Com);
    }
    if nets.len() < 3 {
        return None;
    }
    let value = &nets[2];
    if ends_with(&first.name, b"__ask") {
        Some(Ground::Exp(value.width))
    } else if nets.len() >= 6 && ends_with(&first.name, b"__read") {
        Some(Ground::Var(value.width))
    } else {
        None
    }
}

// How many bytes stand behind the name of a port of this type in that of its first net.
fn suffix(ground: Ground) -> usize
    ensures { result ≡ suffix_length (ground_type ground) }
{
    match ground {
        Ground::Com | Ground::Exp(_) => 5,
        Ground::Var(_) => 6,
    }
}

/// Whether the bytes end with these.
pub fn ends_with(bytes: &[u8], end: &[u8]) -> bool
    ensures is { (front : List ℕ) → bytes.now ≡ front ++ end.now → IsTrue result }
    ensures only { IsTrue result → (front : List ℕ) × (bytes.now ≡ front ++ end.now) }
{
    bytes.len() >= end.len() && &bytes[bytes.len() - end.len()..] == end
}

// The port of this type whose nets these are. None where it has no right name or no right type.
fn port(alloc: Global, nets: &[PortNet], ground: Ground) -> Result<Option<Port>, NoMemory>
    requires { length nets.now ≡ net_count (ground_type ground) }
    ensures writable { IfOk result (λ found. IfSome found IsWritablePort) }
    ensures stands { IfOk result (λ found. (p : NetPort) → IsWritablePort p → nets.now ≡ nets_of_port p → ground_type ground ≡ p.ty
        → MatchOption found ⊥ (λ port. port ≡ p)) }
{
    let first = &nets[0];
    let name = &first.name[..first.name.len().saturating_sub(suffix(ground))];
    if !is_name_or_word(name) || !is_port_type(ground) {
        return Ok(None);
    }
    let side = if first.input { Side::Give } else { Side::Take };
    let port = Port {
        name: new_name(alloc, name)?,
        side,
        ground,
        nets: listed(alloc, nets)?,
    };
    Ok(Some(port))
}

// The cells that the nets are.
fn listed(alloc: Global, nets: &[PortNet]) -> Result<Vec<NetId>, NoMemory>
    ensures count { IfOk result (λ list. length list.items ≡ length nets.now) }
    ensures numbers { IfOk result (λ list. AllByRecursion IsNumber (map number_of list.items)) }
    ensures cells { IfOk result (λ list. map number_of list.items ≡ map (λ (net : Net). net.cell) nets.now) }
{
    let mut list = Vec::new(alloc);
    for net in nets {
        list.push(net_id(net.cell.0))?;
    }
    Ok(list)
}

// The net of this number.
fn net_id(number: u32) -> NetId
    ensures same { result.0 ≡ number }
    ensures number { IsNumber result.0 }
{
    NetId(number)
}

// The name of these bytes.
fn new_name(alloc: Global, bytes: &[u8]) -> Result<Name, NoMemory>
    requires { IsNameOrWord bytes.now }
    ensures { IfOk result (λ name. name ≡ bytes.now) }
{
    match Name::new(alloc, bytes) {
        Ok(name) => Ok(name),
        Err(_) => Err(NoMemory),
    }
}

// Whether a port may have this type.
fn is_port_type(ground: Ground) -> bool
    ensures { IsTrue result ↔ IsPortType (ground_type ground) }
{
    match ground {
        Ground::Com => true,
        Ground::Exp(w) | Ground::Var(w) => is_width(w),
    }
}
