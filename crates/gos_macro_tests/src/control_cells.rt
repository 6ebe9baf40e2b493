// Each kind that passes control on, alone in a pool with room for exactly its cells and one region.
use crate::trial::place_alone;
use gos_control::Control;
use gos_netlist::{Gate, NetId};
use gos_plan::Kind;
use std::test::Fail;

// The nets that come in at three handshakes and at four.
const THREE: [(u32, u32); 3] = [(100, 101), (102, 103), (104, 105)];

const FOUR: [(u32, u32); 4] = [(100, 101), (102, 103), (104, 105), (106, 107)];

#[test]
fn a_skip_is_one_cell(rt: HostRuntime) -> Result<(), Fail> {
    let skip = place_alone(rt.alloc(), &Control(Kind::Skip), &[(100, 101)])?;
    assert!(rt; skip.cells.len() == 1 && skip.pulse_at(0) == 0);
    Ok(())
}

#[test]
fn a_sequence_of_commands_has_no_register(rt: HostRuntime) -> Result<(), Fail> {
    let seq = place_alone(rt.alloc(), &Control(Kind::Seq), &THREE)?;
    assert!(rt; seq.cells.len() == 3);
    for cell in seq.cells.iter() {
        assert!(rt; matches!(cell.gate, Gate::Or(_, _)), "it is no buffer");
    }
    Ok(())
}

#[test]
fn a_sequence_passes_a_number_on(rt: HostRuntime) -> Result<(), Fail> {
    let seq = place_alone(rt.alloc(), &Control(Kind::SeqExp { w: 32 }), &THREE)?;
    assert!(rt; seq.cells.len() == 4 && seq.number_at(2) == 3);
    assert!(rt; seq.cells[3].width == 32);
    assert!(rt;
        matches!(seq.cells[3].gate, Gate::Gate(NetId(102), NetId(103))),
        "a number without its pulse"
    );
    Ok(())
}

#[test]
fn commands_side_by_side_take_eleven_cells(rt: HostRuntime) -> Result<(), Fail> {
    let par = place_alone(rt.alloc(), &Control(Kind::Par), &THREE)?;
    assert!(rt; par.cells.len() == 11);
    assert!(rt; par.pulse_at(0) == 0 && par.pulse_at(1) == 1 && par.pulse_at(2) == 6);
    Ok(())
}

#[test]
fn a_choice_of_commands_takes_five_cells(rt: HostRuntime) -> Result<(), Fail> {
    let choice = place_alone(rt.alloc(), &Control(Kind::If), &FOUR)?;
    assert!(rt; choice.cells.len() == 5 && choice.registers() == 0);
    assert!(rt; choice.pulse_at(3) == 4 && choice.number_at(3) == 0);
    Ok(())
}

#[test]
fn a_choice_answers_one_of_two_numbers(rt: HostRuntime) -> Result<(), Fail> {
    let choice = place_alone(rt.alloc(), &Control(Kind::IfExp { w: 8 }), &FOUR)?;
    assert!(rt; choice.cells.len() == 7 && choice.registers() == 0 && choice.number_at(3) == 6);
    assert!(rt; choice.cells[6].width == 8);
    assert!(rt;
        matches!(
            choice.cells[6].gate,
            Gate::Mux(NetId(104), NetId(105), NetId(5))
        ),
        "it chooses no number"
    );
    Ok(())
}

#[test]
fn a_repeated_command_has_one_register(rt: HostRuntime) -> Result<(), Fail> {
    let repeat = place_alone(rt.alloc(), &Control(Kind::While), &THREE)?;
    assert!(rt; repeat.cells.len() == 5 && repeat.registers() == 1);
    assert!(rt; repeat.pulse_at(0) == 1);
    Ok(())
}
