// A Share of each sort of type, alone in a pool with room for exactly its cells and one region.
use crate::trial::place_alone;
use gos_share::Sharing;
use gos_types::Ty;
use std::test::Fail;

// The nets that come in at three handshakes and at six.
const THREE: [(u32, u32); 3] = [(100, 101), (102, 103), (104, 105)];

const SIX: [(u32, u32); 6] = [
    (100, 101),
    (102, 103),
    (104, 105),
    (106, 107),
    (108, 109),
    (110, 111),
];

#[test]
fn a_shared_command_has_two_registers(rt: HostRuntime) -> Result<(), Fail> {
    let share = place_alone(rt.alloc(), &Sharing(&Ty::Com), &THREE)?;
    assert!(rt; share.cells.len() == 10 && share.registers() == 2);
    assert!(rt; share.pulse_at(0) == 6 && share.pulse_at(1) == 7 && share.pulse_at(2) == 8);
    Ok(())
}

#[test]
fn a_shared_expression_gives_its_number_to_each_caller(rt: HostRuntime) -> Result<(), Fail> {
    let share = place_alone(rt.alloc(), &Sharing(&Ty::Exp(8)), &THREE)?;
    assert!(rt; share.cells.len() == 12);
    assert!(rt; share.number_at(1) == 9 && share.number_at(2) == 10);
    assert!(rt; share.cells[9].width == 8 && share.cells[10].width == 8);
    Ok(())
}

#[test]
fn a_shared_variable_holds_a_write_for_a_cycle(rt: HostRuntime) -> Result<(), Fail> {
    let share = place_alone(rt.alloc(), &Sharing(&Ty::Var(8)), &SIX)?;
    assert!(rt; share.cells.len() == 21 && share.registers() == 4);
    Ok(())
}

#[test]
fn a_shared_product_has_one_branch(rt: HostRuntime) -> Result<(), Fail> {
    let ty = Ty::Pair(
        Box::new(rt.alloc(), Ty::Com)?,
        Box::new(rt.alloc(), Ty::Com)?,
    );
    let share = place_alone(rt.alloc(), &Sharing(&ty), &SIX)?;
    assert!(rt; share.cells.len() == 16 && share.registers() == 3);
    Ok(())
}

#[test]
fn a_shared_function_holds_what_it_asks_for_each_caller(rt: HostRuntime) -> Result<(), Fail> {
    let ty = Ty::Fun(
        Box::new(rt.alloc(), Ty::Exp(8))?,
        Box::new(rt.alloc(), Ty::Com)?,
    );
    let share = place_alone(rt.alloc(), &Sharing(&ty), &SIX)?;
    assert!(rt; share.cells.len() == 17 && share.registers() == 4);
    Ok(())
}
