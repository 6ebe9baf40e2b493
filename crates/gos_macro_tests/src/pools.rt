// The calls of a pool, in their order.
use gos_netlist::{Cell, Gate, NetId};
use gos_pool::{NetPool, marks_stay};
use std::test::Fail;

// A bit that is what another net was in the cycle before.
fn register(pin: u32) -> Cell {
    Cell {
        width: 1,
        gate: Gate::Reg(NetId(pin)),
    }
}

// Whether the cells are registers of these pins.
fn are_registers(cells: &[Cell], pins: &[u32]) -> bool {
    cells.len() == pins.len()
        && cells.iter().zip(pins).all(|(
            cell,
            pin,
        )| matches!(cell.gate, Gate::Reg(net) if net.0 == *pin))
}

#[test]
fn places_after_one_reserve(rt: HostRuntime) -> Result<(), Fail> {
    let mut pool = NetPool::new(rt.alloc());
    pool.reserve(4)?;
    let mut region = pool.begin();
    let first = pool.place(&mut region, register(2));
    let second = pool.place(&mut region, register(0));
    let third = pool.place(&mut region, register(1));
    pool.finish(region);
    assert!(rt; first.0 == 0 && second.0 == 1 && third.0 == 2);
    assert!(rt; are_registers(&pool.into_cells(), &[2, 0, 1]));
    Ok(())
}

// The first region stays as the second is cut off, and the numbers go on from its end.
#[test]
fn cuts_back_to_a_mark(rt: HostRuntime) -> Result<(), Fail> {
    let mut pool = NetPool::new(rt.alloc());
    pool.reserve(6)?;
    let mut first = pool.begin();
    pool.place(&mut first, register(0));
    pool.finish(first);
    let mark = pool.mark();
    let mut second = pool.begin();
    pool.place(&mut second, register(7));
    pool.place(&mut second, register(8));
    pool.cut_back(mark);
    let mut third = pool.begin();
    let net = pool.place(&mut third, register(9));
    pool.finish(third);
    assert!(rt; net.0 == 1);
    assert!(rt; are_registers(&pool.into_cells(), &[0, 9]));
    Ok(())
}

#[test]
fn laws_return() {
    marks_stay();
}
