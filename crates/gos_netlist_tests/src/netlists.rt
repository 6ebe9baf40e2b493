// The programs on the latch: a circuit that shows `done` from the cycle after `run` on.
use crate::samples::{bit, latch};
use gos_netlist::{
    Event, Gate, NetId, NetTextFault, Netlist, SettleFault, events, one_answer, print_net,
    read_net, settle, settlings, small_nets,
};
use std::alloc::Global;
use std::test::Fail;

// The text of the latch.
const LATCH: &str =
    "gosnet 1\ncells 4\ninput 1\nor 1 0 2\nreg 1 1\nreg 1 1\nports 1\ngive main com 0 3\nend\n";

#[test]
fn prints_the_latch(rt: HostRuntime) -> Result<(), Fail> {
    let alloc = rt.alloc();
    let net = latch(alloc)?;
    let text = print_net(alloc, &net)?;
    assert!(rt; text.as_slice() == LATCH.as_bytes());
    Ok(())
}

// `run` in cycle 0 alone; the registers of a cycle are the values of their pins in the cycle before.
#[test]
fn settles_the_latch(rt: HostRuntime) -> Result<(), Fail> {
    let alloc = rt.alloc();
    let net = latch(alloc)?;
    let rows = [
        ([0u64, 0, 0, 0], 1u64, [1u64, 1, 0, 0]),
        ([0, 0, 1, 1], 0, [0, 1, 1, 1]),
    ];
    for (registers, input, want) in rows {
        let values = settle(alloc, &net, &registers, &[input])?;
        assert!(rt; values.as_slice() == want.as_slice());
    }
    Ok(())
}

// A gate that turns its own net never settles.
#[test]
fn a_ring_does_not_settle(rt: HostRuntime) -> Result<(), Fail> {
    let alloc = rt.alloc();
    let cells = vec![in alloc; bit(Gate::Not(NetId(0)))]?;
    let net = Netlist {
        cells,
        ports: Vec::new(alloc),
    };
    match settle(alloc, &net, &[], &[]) {
        Err(SettleFault::Unsettled) => {}
        Err(SettleFault::NoMemory) => assert!(rt; false, "out of memory"),
        Ok(_) => assert!(rt; false, "it settled"),
    }
    Ok(())
}

#[test]
fn reads_the_latch_and_prints_it_again(rt: HostRuntime) -> Result<(), Fail> {
    let alloc = rt.alloc();
    let net = read_net(alloc, LATCH.as_bytes())?;
    assert!(rt; net.cells.len() == 4);
    let text = print_net(alloc, &net)?;
    assert!(rt; text.as_slice() == LATCH.as_bytes());
    Ok(())
}

#[test]
fn the_latch_has_two_events(rt: HostRuntime) -> Result<(), Fail> {
    let alloc = rt.alloc();
    let net = latch(alloc)?;
    let all = events(alloc, &net)?;
    let want = [
        Event {
            port: 0,
            place: 0,
            input: true,
            bits: 0,
        },
        Event {
            port: 0,
            place: 1,
            input: false,
            bits: 0,
        },
    ];
    assert_eq!(rt; all.as_slice(), want.as_slice());
    Ok(())
}

// Whether a text is refused at this place, for a limit or for its form.
fn is_refused(alloc: Global, text: &str, limit: bool, place: usize) -> bool {
    match read_net(alloc, text.as_bytes()) {
        Err(NetTextFault::Form { at }) => !limit && at == place,
        Err(NetTextFault::Limit { at }) => limit && at == place,
        Err(NetTextFault::NoMemory) | Ok(_) => false,
    }
}

// Texts, whether each is refused for a limit, and where.
const REFUSED: [(&str, bool, usize); 12] = [
    ("", false, 0),
    ("gosnet 1\ncells 5000001\n", true, 15),
    ("gosnet 1\ncells 4294967296\n", true, 15),
    ("gosnet 1\ncells 04\n", false, 16),
    ("gosnet 1\ncells 1\ninput", false, 22),
    ("gosnet 1\ncells 1\nnand 1 0 0\n", false, 18),
    ("gosnet 1\ncells 1\nconst 1 2\n", false, 25),
    ("gosnet 1\ncells 1\ninput 65\n", false, 24),
    ("gosnet 1\ncells 0\nports 65537\n", true, 23),
    (
        "gosnet 1\ncells 0\nports 1\ngive 2 com 0 3\nend\n",
        false,
        30,
    ),
    ("gosnet 1\ncells 0\nports 0\nend", false, 28),
    ("gosnet 1\ncells 0\nports 0\nend\n\n", false, 29),
];

#[test]
fn refuses_other_texts_at_their_places(rt: HostRuntime) {
    for (text, limit, place) in REFUSED.iter() {
        assert!(rt; is_refused(rt.alloc(), text, *limit, *place));
    }
}

#[test]
fn laws_return() {
    small_nets();
    settlings();
    one_answer();
}
