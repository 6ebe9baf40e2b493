// A schedule of the nets, or a combinational cycle.
//
// The search keeps a path of nets, each of which is fed by the next one, and the last of which it looks at. Where all
// that feeds that net has its place in the order, so has the net. Else it goes on to a net that feeds it and has no
// place yet. If that one stands on the path, the nets from it on are a cycle. A net is gone on to once, and
// its pins, three at most, are looked at again behind each of them, so the search takes time in proportion to cells.
ghost use Rattle.std.specs.Prelude.{
  ◌≡◌,
  ◌↔◌,
  ◌<◌,
  ◌≤◌,
  ◌^◌,
  ◌++◌,
  ◌∷◌,
  ◌-◌,
  ℕ,
  [],
  IsTrue,
  IfOk,
  IfErr,
  IfSome,
  IsNone,
  OnOk,
  All,
  Contains,
  MatchOption,
  MatchBool,
  map,
  length,
  replicate,
  take,
  vec_len,
  slice_get,
  slice_set,
};
ghost use Rattle.gos_netlist.specs.Nets.{pins};
ghost use Rattle.gos_netlist.specs.Seen.{cell_of, function_of, number_of};
ghost use Rattle.gos_netlist.specs.Cycles.{IsRegister};
ghost use Rattle.gos_netcheck.specs.Rules.{Kept};
ghost use Rattle.gos_netcheck.specs.CellRules.{NetsExist};
ghost use Rattle.gos_netcheck.specs.Schedule.{IsSchedule};
ghost use Rattle.gos_netcheck.specs.inner.Search.{Stands, IsLater, IsBegun, IsDone, IsUndone, IsWaiting, IsReady, IsCycleFault, nets_of, steps_left};

use crate::cycle::cycle_at;
use crate::fault::NetFault;
use gos_netlist::{Cell, Gate, NetId};
use std::alloc::{AllocError, Global};

// Where the search stands with a net.
#[derive(Clone, Copy)]
enum Mark {
    // It has not been gone on to.
    New,
    // It is on the path.
    Open,
    // It has its place in the order.
    Placed,
}

// The nets that a cell names, in written order.
#[derive(Clone, Copy)]
enum Named {
    None,
    One(NetId),
    Two(NetId, NetId),
    Three(NetId, NetId, NetId),
}

// Where the search stands.
#[derive(Drop)]
struct Search {
    marks: Vec<Mark>,
    path: Vec<NetId>,
    order: Vec<NetId>,
}

// The nets, each behind all that feeds its cell; or a combinational cycle.
pub(crate) fn schedule(alloc: Global, cells: &[Cell]) -> Result<Vec<NetId>, NetFault>
    requires few { length cells.now < 2 ^ 32 }
    requires nets { NetsExist (map cell_of cells.now) }
    ensures order { IfOk result (λ order. IsSchedule (map cell_of cells.now) (map number_of order.items)) }
    ensures cycle { IfErr result (IsCycleFault (map cell_of cells.now)) }
{
    let mut search = begun(alloc, cells.len())?;
    let mut next = 0;
    loop {
        if search.path.is_empty() {
            if next == cells.len() {
                return Ok(search.order);
            }
            search.go_on_to_new(cells, next)?;
            next += 1;
        } else {
            search.step(alloc, cells)?;
        }
    }
}

// The search among so many nets, where none has been gone on to.
fn begun(alloc: Global, count: usize) -> Result<Search, AllocError>
    ensures marks { IfOk result (λ search. search.marks.items ≡ replicate count Mark.New) }
    ensures path { IfOk result (λ search. search.path.items ≡ []) }
    ensures order { IfOk result (λ search. search.order.items ≡ []) }
{
    Ok(Search {
        marks: vec![in alloc; Mark::New; count]?,
        path: Vec::new(alloc),
        order: Vec::new(alloc),
    })
}

impl Search {
    // Looks at the last net of the path: goes on to a net that it waits for, or gives it its place.
    fn step(&mut self, alloc: Global, cells: &[Cell]) -> Result<(), NetFault>
        requires stands { Stands (map cell_of cells.now) self.old }
        requires some { 0 < vec_len self.old.path }
        requires nets { NetsExist (map cell_of cells.now) }
        ensures stands { OnOk result (Stands (map cell_of cells.now) self.new) }
        ensures later { OnOk result (IsLater self.old.marks.items self.new.marks.items) }
        ensures cycle { IfErr result (IsCycleFault (map cell_of cells.now)) }
    {
        let net = self.path[self.path.len() - 1];
        match first_waited_for(cells, &self.marks, net) {
            None => self.place(net)?,
            Some(pin) => {
                if is_open(self.marks[pin.0 as usize]) {
                    return Err(NetFault::Cycle {
                        nets: cycle_at(alloc, &self.path, pin)?,
                    });
                }
                self.go_on_to(pin)?;
            }
        }
        Ok(())
    }

    // Where the path is empty, goes on to a net if it is new, or gives it its place at once if it waits for none.
    fn go_on_to_new(&mut self, cells: &[Cell], n: usize) -> Result<(), AllocError>
        requires stands { Stands (map cell_of cells.now) self.old }
        requires none { vec_len self.old.path ≡ 0 }
        requires nets { NetsExist (map cell_of cells.now) }
        requires within { n < length cells.now }
        requires few { length cells.now < 2 ^ 32 }
        ensures stands { OnOk result (Stands (map cell_of cells.now) self.new) }
        ensures steps { OnOk result (steps_left self.new.marks.items ≤ steps_left self.old.marks.items) }
        ensures begun { OnOk result (IsBegun (slice_get self.new.marks.items n)) }
        ensures others { OnOk result ((k : ℕ) → IsBegun (slice_get self.old.marks.items k) → IsBegun (slice_get self.new.marks.items k)) }
    {
        if !is_new(self.marks[n]) {
            return Ok(());
        }
        let net = NetId(n as u32);
        match first_waited_for(cells, &self.marks, net) {
            None => {
                self.place(net)?;
                Ok(())
            }
            Some(_) => {
                self.go_on_to(net)?;
                Ok(())
            }
        }
    }

    // Puts a net behind the path.
    fn go_on_to(&mut self, net: NetId) -> Result<(), AllocError>
        requires { net.0 < vec_len self.old.marks }
        ensures marks { OnOk result (self.new.marks.items ≡ slice_set self.old.marks.items net.0 Mark.Open) }
        ensures path { OnOk result (self.new.path.items ≡ self.old.path.items ++ net ∷ []) }
        ensures order { OnOk result (self.new.order.items ≡ self.old.order.items) }
    {
        self.marks[net.0 as usize] = Mark::Open;
        self.path.push(net)?;
        Ok(())
    }

    // Gives the last net of the path its place in the order.
    fn place(&mut self, net: NetId) -> Result<(), AllocError>
        requires { net.0 < vec_len self.old.marks }
        ensures marks { OnOk result (self.new.marks.items ≡ slice_set self.old.marks.items net.0 Mark.Placed) }
        ensures path { OnOk result (self.new.path.items ≡ take (vec_len self.old.path - 1) self.old.path.items) }
        ensures order { OnOk result (self.new.order.items ≡ self.old.order.items ++ net ∷ []) }
    {
        self.marks[net.0 as usize] = Mark::Placed;
        self.path.pop();
        self.order.push(net)?;
        Ok(())
    }
}

// The first net that the net's cell waits for, in the order of its pins.
fn first_waited_for(cells: &[Cell], marks: &[Mark], net: NetId) -> Option<NetId>
    requires there { net.0 < length cells.now }
    requires marked { length marks.now ≡ length cells.now }
    requires nets { NetsExist (map cell_of cells.now) }
    ensures { MatchOption result (IsReady (map cell_of cells.now) marks.now net.0) (λ pin. IsWaiting (map cell_of cells.now) marks.now net.0 pin.0) }
{
    match pins_of(cells[net.0 as usize].gate) {
        Named::None => None,
        Named::One(a) => first_undone(cells, marks, &[a]),
        Named::Two(a, b) => first_undone(cells, marks, &[a, b]),
        Named::Three(a, b, c) => first_undone(cells, marks, &[a, b, c]),
    }
}

// The nets that a gate names.
fn pins_of(gate: Gate) -> Named
    ensures { nets_of result ≡ pins (function_of gate) }
{
    match gate {
        Gate::Input | Gate::Const(_) => Named::None,
        Gate::Not(a) | Gate::Reg(a) => Named::One(a),
        Gate::And(a, b)
        | Gate::Or(a, b)
        | Gate::Xor(a, b)
        | Gate::Add(a, b)
        | Gate::Sub(a, b)
        | Gate::Eq(a, b)
        | Gate::Less(a, b)
        | Gate::Gate(a, b) => Named::Two(a, b),
        Gate::Mux(s, a, b) => Named::Three(s, a, b),
    }
}

// The first of these nets that is no register and not placed.
fn first_undone(cells: &[Cell], marks: &[Mark], nets: &[NetId]) -> Option<NetId>
    requires there { All (λ net. net.0 < length cells.now) nets.now }
    requires marked { length marks.now ≡ length cells.now }
    ensures none { IsNone result → Kept (λ _ a. IsDone (map cell_of cells.now) marks.now a) (map number_of nets.now) }
    ensures among { IfSome result (λ net. Contains (map number_of nets.now) net.0) }
    ensures undone { IfSome result (λ net. IsUndone (map cell_of cells.now) marks.now net.0) }
{
    for net in nets {
        let place = net.0 as usize;
        if waits_for(&cells[place], marks[place]) {
            return Some(*net);
        }
    }
    None
}

// Whether a cell waits for one of its pins, which has this cell and this mark.
fn waits_for(cell: &Cell, mark: Mark) -> bool
    ensures { MatchBool result ((IsRegister (function_of cell.now.gate) → ⊥) × (mark ≡ Mark.Placed → ⊥))
        ((IsRegister (function_of cell.now.gate) → ⊥) → mark ≡ Mark.Placed) }
{
    !is_placed(mark) && !is_register(cell.gate)
}

fn is_register(gate: Gate) -> bool
    ensures { IsTrue result ↔ IsRegister (function_of gate) }
{
    matches!(gate, Gate::Reg(_))
}

fn is_new(mark: Mark) -> bool
    ensures { IsTrue result ↔ (mark ≡ Mark.New) }
{
    matches!(mark, Mark::New)
}

fn is_open(mark: Mark) -> bool
    ensures { IsTrue result ↔ (mark ≡ Mark.Open) }
{
    matches!(mark, Mark::Open)
}

fn is_placed(mark: Mark) -> bool
    ensures { IsTrue result ↔ (mark ≡ Mark.Placed) }
{
    matches!(mark, Mark::Placed)
}
