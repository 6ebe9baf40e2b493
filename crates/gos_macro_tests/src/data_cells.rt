// Each kind that gives, computes, reads or writes numbers, alone in a pool with room for exactly its cells and one region.
use crate::trial::place_alone;
use gos_data::Arith;
use gos_netlist::{Gate, NetId};
use gos_plan::{Kind, Op2};
use std::test::Fail;

#[test]
fn literal_is_placed(rt: HostRuntime) -> Result<(), Fail> {
    let literal = place_alone(rt.alloc(), &Arith(Kind::Lit { w: 4, k: 9 }), &[(70, 0)])?;
    assert!(rt; literal.cells.len() == 3 && literal.shows(0, 0, 2));
    assert!(rt;
        matches!(literal.cells[1].gate, Gate::Const(9)),
        "the number is another"
    );
    Ok(())
}

// The nets that come in at the two operands and at the outcome of an operator.
const OPERANDS: [(u32, u32); 3] = [(70, 71), (72, 73), (74, 0)];

#[test]
fn subtraction_is_placed(rt: HostRuntime) -> Result<(), Fail> {
    let part = Arith(Kind::Op { op: Op2::Sub, w: 8 });
    let subtraction = place_alone(rt.alloc(), &part, &OPERANDS)?;
    assert!(rt;
        subtraction.cells.len() == 12 && subtraction.registers() == 2 && subtraction.shows(2, 5, 11)
    );
    assert!(rt;
        matches!(subtraction.cells[10].gate, Gate::Sub(NetId(9), NetId(73))),
        "it is no subtraction"
    );
    assert!(rt;
        matches!(
            subtraction.cells[9].gate,
            Gate::Mux(NetId(6), NetId(2), NetId(71))
        ),
        "the left number is another"
    );
    Ok(())
}

#[test]
fn comparison_has_one_bit(rt: HostRuntime) -> Result<(), Fail> {
    let part = Arith(Kind::Op {
        op: Op2::Less,
        w: 8,
    });
    let comparison = place_alone(rt.alloc(), &part, &OPERANDS)?;
    let cells = &comparison.cells;
    assert!(rt; cells.len() == 12);
    assert!(rt;
        cells[2].width == 8 && cells[9].width == 8 && cells[10].width == 1 && cells[11].width == 1
    );
    Ok(())
}

#[test]
fn complement_is_placed(rt: HostRuntime) -> Result<(), Fail> {
    let part = Arith(Kind::Not { w: 32 });
    let complement = place_alone(rt.alloc(), &part, &[(70, 71), (72, 0)])?;
    assert!(rt; complement.cells.len() == 4 && complement.shows(1, 1, 3));
    Ok(())
}

#[test]
fn assignment_is_placed(rt: HostRuntime) -> Result<(), Fail> {
    let part = Arith(Kind::Assign { w: 1 });
    let assignment = place_alone(rt.alloc(), &part, &[(70, 71), (72, 0), (74, 0)])?;
    assert!(rt; assignment.cells.len() == 4 && assignment.shows(1, 1, 2));
    Ok(())
}

#[test]
fn read_is_placed(rt: HostRuntime) -> Result<(), Fail> {
    let part = Arith(Kind::Deref { w: 16 });
    let read = place_alone(rt.alloc(), &part, &[(70, 71), (72, 0)])?;
    assert!(rt; read.cells.len() == 3 && read.shows(1, 1, 2));
    Ok(())
}

#[test]
fn local_of_a_command_is_placed(rt: HostRuntime) -> Result<(), Fail> {
    let part = Arith(Kind::Local { w: 8, v: 0 });
    let local = place_alone(rt.alloc(), &part, &[(70, 0), (72, 0), (74, 75), (76, 0)])?;
    assert!(rt; local.cells.len() == 9 && local.shows(3, 8, 0));
    Ok(())
}

#[test]
fn local_of_an_expression_is_placed(rt: HostRuntime) -> Result<(), Fail> {
    let part = Arith(Kind::Local { w: 8, v: 5 });
    let local = place_alone(rt.alloc(), &part, &[(70, 71), (72, 0), (74, 75), (76, 0)])?;
    assert!(rt; local.cells.len() == 10 && local.shows(3, 8, 9));
    assert!(rt; local.cells[7].width == 8 && local.cells[9].width == 5);
    Ok(())
}

// The nets that come in at the five handshakes of an array.
const OF_ARRAY: [(u32, u32); 5] = [(170, 171), (172, 173), (174, 0), (175, 176), (177, 0)];

#[test]
fn array_of_a_command_is_placed(rt: HostRuntime) -> Result<(), Fail> {
    let part = Arith(Kind::Array { w: 8, n: 2, v: 0 });
    let array = place_alone(rt.alloc(), &part, &OF_ARRAY)?;
    assert!(rt; array.cells.len() == 33 && array.registers() == 9);
    assert!(rt; array.shows(2, 12, 15) && array.shows(4, 18, 0));
    Ok(())
}

#[test]
fn array_of_an_expression_is_placed(rt: HostRuntime) -> Result<(), Fail> {
    let part = Arith(Kind::Array { w: 8, n: 16, v: 5 });
    let array = place_alone(rt.alloc(), &part, &OF_ARRAY)?;
    assert!(rt; array.cells.len() == 132 && array.shows(4, 18, 131));
    assert!(rt; array.cells[19].width == 4 && array.cells[131].width == 5);
    Ok(())
}
