// The latch, cycle by cycle: it shows `done` from the cycle after `run` on. And how many levels its cycles visit, and after
// which cycles it repeats.
use crate::bench::Bench;
use crate::samples::latch;
use gos_netcheck::{accept, cell_levels};
use gos_sim::{repeats, runs, visits_counted};
use std::alloc::Global;
use std::test::Fail;

// The latch at reset.
fn at_reset(alloc: Global) -> Result<Bench, Fail> {
    Bench::new(alloc, accept(alloc, latch(alloc)?)?)
}

// Whether cycles, with a request or without one, show `done` or not.
fn show(bench: &mut Bench, cycles: &[(bool, bool)]) -> bool {
    for (on, done) in cycles {
        if !bench.cycle(*on) || !bench.shows(*done) {
            return false;
        }
    }
    true
}

#[test]
fn shows_done_from_the_cycle_after_run(rt: HostRuntime) -> Result<(), Fail> {
    let mut bench = at_reset(rt.alloc())?;
    assert!(rt; bench.peeks(false));
    assert!(rt; show(&mut bench, &[(true, false), (false, true), (false, true)]));
    bench.sim.reset();
    assert!(rt; bench.peeks(false));
    Ok(())
}

// Whether cycles, with a request or without one, visit so many levels.
fn visit(bench: &mut Bench, cycles: &[(bool, u64)]) -> bool {
    for (on, levels) in cycles {
        if !bench.cycle(*on) || bench.sim.visited() != *levels {
            return false;
        }
    }
    true
}

// Its request comes in the first cycle and goes in the second one: in both the gate reads another value. Then nothing
// changes, and after a reset it is as new.
#[test]
fn visits_the_gate_where_its_request_changes(rt: HostRuntime) -> Result<(), Fail> {
    let mut bench = at_reset(rt.alloc())?;
    assert!(rt; bench.sim.visited() == 0);
    assert!(rt; visit(&mut bench, &[(true, 1), (false, 1), (false, 0)]));
    bench.sim.reset();
    assert!(rt; bench.sim.visited() == 0 && visit(&mut bench, &[(false, 0)]));
    Ok(())
}

// Whether it repeats after cycles, with a request or without one.
fn repeat(bench: &mut Bench, cycles: &[(bool, bool)]) -> bool {
    for (on, repeats) in cycles {
        if !bench.cycle(*on) || bench.sim.repeats() != *repeats {
            return false;
        }
    }
    true
}

// Its request comes and goes, and one cycle later it is at rest. Where the request comes again its inputs change once more.
#[test]
fn repeats_where_nothing_changes(rt: HostRuntime) -> Result<(), Fail> {
    let mut bench = at_reset(rt.alloc())?;
    assert!(rt; !bench.sim.repeats());
    assert!(rt; repeat(&mut bench, &[(true, false), (false, false), (false, true)]));
    assert!(rt; repeat(&mut bench, &[(true, false), (true, true)]));
    bench.sim.reset();
    assert!(rt; !bench.sim.repeats());
    Ok(())
}

#[test]
fn laws_return(rt: HostRuntime) {
    runs();
    visits_counted();
    repeats();
    cell_levels();
    assert!(rt; true);
}
