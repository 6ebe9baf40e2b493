// The nets of ports in a module.
ghost use Rattle.std.specs.Prelude.{◌≡◌, ◌++◌, ◌<◌, IfOk, OnOk};
ghost use Rattle.gos_netlist.specs.Events.{is_input};
ghost use Rattle.gos_netlist.specs.Seen.{ground_type, side_of};
ghost use Rattle.gos_verilog.specs.PortNets as nets;

use gos_netlist::{Ground, NetId, Port, Side};
use gos_types::NoMemory;
use std::alloc::Global;
use std::marker::Model;

/// What a net of a port carries: a pulse, or behind it the number that comes with it.
#[derive(Clone, Copy)]
pub enum Role {
    Run,
    Done,
    Ask,
    Ans,
    AnsValue,
    Read,
    Write,
    WriteValue,
}

impl Role {
    /// What stands behind the port's name.
    pub fn suffix(self) -> &'static [u8]
        ensures { result.now ≡ nets.suffix self }
    {
        match self {
            Role::Run => b"__run",
            Role::Done => b"__done",
            Role::Ask => b"__ask",
            Role::Ans => b"__ans",
            Role::AnsValue => b"__ansvalue",
            Role::Read => b"__read",
            Role::Write => b"__write",
            Role::WriteValue => b"__writevalue",
        }
    }

    /// Whether the net is an input of the module, at a port of this side.
    pub fn is_input(self, side: Side) -> bool
        ensures { result ≡ is_input (side_of side) (nets.direction self) }
    {
        match self {
            Role::Run | Role::Ask | Role::Read | Role::Write | Role::WriteValue => {
                matches!(side, Side::Give)
            }
            Role::Done | Role::Ans | Role::AnsValue => matches!(side, Side::Take),
        }
    }

    /// The bits of the net, at a port whose numbers have `number_bits`.
    pub fn bits(self, number_bits: u32) -> u32
        ensures { result ≡ nets.bits number_bits self }
    {
        match self {
            Role::AnsValue | Role::WriteValue => number_bits,
            _ => 1,
        }
    }
}

/// The nets of a port of this type, in order.
pub fn roles(alloc: Global, ground: Ground) -> Result<Vec<Role>, NoMemory>
    ensures { IfOk result (λ roles. roles.items ≡ nets.roles (ground_type ground)) }
{
    match ground {
        Ground::Com => listed(alloc, &[Role::Run, Role::Done]),
        Ground::Exp(_) => listed(alloc, &[Role::Ask, Role::Ans, Role::AnsValue]),
        Ground::Var(_) => {
            let roles = [
                Role::Read,
                Role::Ans,
                Role::AnsValue,
                Role::Write,
                Role::WriteValue,
                Role::Done,
            ];
            listed(alloc, &roles)
        }
    }
}

// A vector of these.
fn listed(alloc: Global, roles: &[Role]) -> Result<Vec<Role>, NoMemory>
    ensures { IfOk result (λ list. list.items ≡ roles.now) }
{
    Ok(roles.to_vec(alloc)?)
}

// The bits of a port's numbers; 1 where it has none.
fn number_bits(ground: Ground) -> u32
    ensures { result ≡ nets.number_bits (ground_type ground) }
{
    match ground {
        Ground::Com => 1,
        Ground::Exp(w) | Ground::Var(w) => w,
    }
}

/// A net of a port in the module.
#[derive(Drop)]
pub struct PortNet {
    /// Its name.
    pub name: Vec<u8>,
    /// Whether it is an input of the module.
    pub input: bool,
    /// Its bits.
    pub width: u32,
    /// The cell that it is.
    pub cell: NetId,
}

impl Model for PortNet {
    ghost Value = { nets.PortNet };

    ghost view = { λ net. record { name = net.name.items; input = net.input; width = net.width; cell = net.cell.0 } };
}

/// The nets of ports.
pub fn port_nets(alloc: Global, ports: &[Port]) -> Result<Vec<PortNet>, NoMemory>
    ensures { IfOk result (λ list. list.items ≡ nets.port_nets ports.now) }
{
    let mut list = Vec::new(alloc);
    for port in ports {
        add_nets(alloc, &mut list, port)?;
    }
    Ok(list)
}

// Adds the nets of a port.
fn add_nets(alloc: Global, list: &mut Vec<PortNet>, port: &Port) -> Result<(), NoMemory>
    ensures { OnOk result (list.new.items ≡ list.old.items ++ nets.nets_of_port port.now) }
{
    let roles = roles(alloc, port.ground)?;
    let width = number_bits(port.ground);
    for (k, cell) in port.nets.iter().enumerate() {
        match roles.get(k) {
            Some(role) => list.push(net(alloc, port, width, *role, *cell)?)?,
            None => return Ok(()),
        }
    }
    Ok(())
}

// The net of a port in this role, which is this cell.
fn net(
    alloc: Global,
    port: &Port,
    number_bits: u32,
    role: Role,
    cell: NetId,
) -> Result<PortNet, NoMemory>
    ensures { IfOk result (λ net. net ≡ nets.net_in_role port.now.name port.now.side number_bits role cell.0) }
{
    let mut name = port.name.bytes().to_vec(alloc)?;
    name.extend_from_slice(role.suffix())?;
    Ok(PortNet {
        name,
        input: role.is_input(port.side),
        width: role.bits(number_bits),
        cell,
    })
}
