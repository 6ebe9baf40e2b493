// The worked ring, and a netlist for each fault. The expected answers are written by hand.
ghost use Rattle.std.specs.Prelude.{◌<◌, ◌^◌, length};

use crate::samples::{bit, latch, main_port, port};
use gos_netcheck::{NetFault, accept, one_answer};
use gos_netlist::{Cell, Gate, Ground, NetId, Netlist, Port, Side};
use std::alloc::{AllocError, Global};
use std::test::Fail;

// The fault of these cells with these ports.
fn fault_of(alloc: Global, cells: &[Cell], ports: Vec<Port>) -> Result<Option<NetFault>, AllocError>
    requires { length cells.now < 2 ^ 32 }
{
    let cells = cells.to_vec(alloc)?;
    match accept(alloc, Netlist { cells, ports }) {
        Ok(_) => Ok(None),
        Err(refused) => Ok(Some(refused.fault)),
    }
}

// Whether the fault is a cycle of these two nets, in this order.
fn is_ring(fault: &NetFault, first: u32, second: u32) -> bool {
    match fault {
        NetFault::Cycle { nets } => match nets.as_slice() {
            [a, b] => a.0 == first && b.0 == second,
            _ => false,
        },
        _ => false,
    }
}

#[test]
fn a_latch_is_accepted(rt: HostRuntime) -> Result<(), Fail> {
    let alloc = rt.alloc();
    match accept(alloc, latch(alloc)?) {
        Ok(checked) => {
            assert!(rt; checked.schedule().len() == 4 && checked.netlist().ports.len() == 1);
            assert!(rt; checked.into_netlist().cells.len() == 4);
        }
        Err(_) => assert!(rt; false, "the latch was refused"),
    }
    Ok(())
}

// The gate stands above its pins, and registers stand with the inputs.
#[test]
fn a_latch_has_levels(rt: HostRuntime) -> Result<(), Fail> {
    let alloc = rt.alloc();
    let checked = accept(alloc, latch(alloc)?)?;
    let levels = checked.levels(alloc)?;
    assert!(rt; levels.as_slice() == [0, 1, 0, 0].as_slice());
    Ok(())
}

// With a gate in place of the first register, the nets 1 and 2 feed each other.
#[test]
fn a_ring_is_handed_back(rt: HostRuntime) -> Result<(), Fail> {
    let alloc = rt.alloc();
    let cells = [
        bit(Gate::Input),
        bit(Gate::Or(NetId(0), NetId(2))),
        bit(Gate::And(NetId(1), NetId(0))),
        bit(Gate::Reg(NetId(1))),
    ];
    let cells = cells.to_vec(alloc)?;
    let ports = vec![in alloc; main_port(alloc, 0, 3)?]?;
    match accept(alloc, Netlist { cells, ports }) {
        Ok(_) => assert!(rt; false, "the ring was accepted"),
        Err(refused) => {
            assert!(rt; refused.net.cells.len() == 4 && is_ring(&refused.fault, 1, 2));
        }
    }
    Ok(())
}

// Whether these cells with the port of `main` are refused with this text.
fn is_refused(alloc: Global, cells: &[Cell], wanted: &str) -> Result<bool, Fail>
    requires { length cells.now < 2 ^ 32 }
{
    let ports = vec![in alloc; main_port(alloc, 0, 1)?]?;
    match fault_of(alloc, cells, ports)? {
        Some(fault) => Ok(format!(in alloc; "{fault}")?.as_str() == wanted),
        None => Ok(false),
    }
}

const INPUT: Cell = Cell {
    width: 1,
    gate: Gate::Input,
};

const REGISTER: Cell = Cell {
    width: 1,
    gate: Gate::Reg(NetId(0)),
};

// A constant of more bits than it has.
const WIDE: Cell = Cell {
    width: 2,
    gate: Gate::Const(4),
};

// Of two faults the first is told.
#[test]
fn pins_and_widths_are_told_in_turn(rt: HostRuntime) -> Result<(), Fail> {
    let pin = [INPUT, REGISTER, WIDE, bit(Gate::Not(NetId(9)))];
    assert!(rt; is_refused(rt.alloc(), &pin, "cell 3 names a net that is not there")?);
    let width = [INPUT, INPUT, WIDE, bit(Gate::Not(NetId(3)))];
    assert!(rt; is_refused(rt.alloc(), &width, "cell 2 has a wrong width")?);
    Ok(())
}

// 64 bits are the most.
#[test]
fn a_cell_of_65_bits_is_refused(rt: HostRuntime) -> Result<(), Fail> {
    let wide = Cell {
        width: 65,
        gate: Gate::Const(0),
    };
    assert!(rt;
        is_refused(
            rt.alloc(),
            &[INPUT, REGISTER, wide],
            "cell 2 has a wrong width"
        )?
    );
    Ok(())
}

#[test]
fn ports_and_inputs_are_told_in_turn(rt: HostRuntime) -> Result<(), Fail> {
    let port = [INPUT, bit(Gate::Not(NetId(1))), REGISTER, REGISTER];
    assert!(rt; is_refused(rt.alloc(), &port, "port 0 is wrong")?);
    let input = [INPUT, REGISTER, INPUT, REGISTER];
    assert!(rt; is_refused(rt.alloc(), &input, "port 1 is wrong")?);
    Ok(())
}

#[test]
fn a_cycle_is_told_last(rt: HostRuntime) -> Result<(), Fail> {
    let cells = [
        INPUT,
        REGISTER,
        bit(Gate::Not(NetId(3))),
        bit(Gate::Not(NetId(2))),
    ];
    assert!(rt; is_refused(rt.alloc(), &cells, "there is a combinational cycle")?);
    Ok(())
}

// Two ports of one name, of which the second is wrong; and none at all.
#[test]
fn ports_are_counted(rt: HostRuntime) -> Result<(), Fail> {
    let alloc = rt.alloc();
    let input = bit(Gate::Input);
    let register = bit(Gate::Reg(NetId(0)));
    let first = main_port(alloc, 0, 1)?;
    let nets = [NetId(1), NetId(2)];
    let second = port(alloc, b"main", Side::Take, Ground::Com, &nets)?;
    let ports = vec![in alloc; first, second]?;
    let twice = fault_of(alloc, &[input, register, input], ports)?;
    assert!(rt; matches!(&twice, Some(NetFault::Port { index: 1 })));
    let none = fault_of(alloc, &[register], Vec::new(alloc))?;
    assert!(rt; matches!(&none, Some(NetFault::Port { index: 0 })));
    Ok(())
}

#[test]
fn the_law_returns() {
    one_answer();
}
