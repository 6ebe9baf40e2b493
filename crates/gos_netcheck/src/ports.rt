// The rules for each port, and that each input cell stands in one.
ghost use Rattle.std.specs.Prelude.{
  ◌≡◌,
  ◌↔◌,
  ◌<◌,
  ◌+◌,
  ◌||◌,
  ◌++◌,
  ℕ,
  not,
  List,
  All,
  IsTrue,
  IfOk,
  MatchBool,
  MatchOption,
  map,
  length,
  take,
  Some,
  slice_get,
};
ghost use Rattle.std.specs.Str.{bytes_eq};
ghost use Rattle.gos_netlist.specs.Nets.{NetPort, Input};
ghost use Rattle.gos_netlist.specs.Seen.{cell_of, function_of, number_of, side_of, ground_type};
ghost use Rattle.gos_netlist.specs.Events.{is_input};
ghost use Rattle.gos_types.specs.Events.{Request, Answer};
ghost use Rattle.gos_netcheck.specs.PortRules.{
  HasSide,
  Fits,
  IsEnd,
  AllFit,
  AreNew,
  PortsFit,
  IsFirstWrongPort,
  IsLoose,
  IsRightPort,
  inputs_among,
  all_inputs,
};
ghost use Rattle.gos_netcheck.specs.PortRules as rules;
ghost use Rattle.gos_netcheck.specs.inner.PortSearch.{has_name, HasNames, AreTaken};

use gos_netlist::{Cell, Gate, Ground, NetId, Port, Side};
use gos_types::NoMemory;
use std::alloc::Global;
use std::collections::HashSet;

// Where a net of a port stands.
#[derive(Clone, Copy)]
struct Place {
    // Whether it is an input.
    input: bool,
    // Its bits.
    width: u32,
}

// The first wrong port, or their number where there is none or some input cell stands in none. `Err` is want of memory.
pub(crate) fn first_wrong_port(
    alloc: Global,
    cells: &[Cell],
    ports: &[Port],
) -> Result<Option<usize>, NoMemory>
    ensures { IfOk result (λ wrong. MatchOption wrong (PortsFit (map cell_of cells.now) ports.now) (IsFirstWrongPort (map cell_of cells.now) ports.now)) }
{
    let mut names = HashSet::new(alloc);
    let mut taken = vec![in alloc; false; cells.len()]?;
    for (k, port) in ports.iter().enumerate() {
        if !keeps_rules(alloc, cells, &mut names, &mut taken, k, port)? {
            return Ok(Some(k));
        }
    }
    if ports.is_empty() {
        return Ok(Some(0));
    }
    if has_loose_input(cells, &taken) {
        return Ok(Some(ports.len()));
    }
    Ok(None)
}

// Whether the port at place `k` keeps the rules behind ports with these names and inputs; it adds its own to them.
fn keeps_rules<'a>(
    alloc: Global,
    cells: &[Cell],
    names: &mut HashSet<&'a [u8]>,
    taken: &mut Vec<bool>,
    k: usize,
    port: &'a Port,
) -> Result<bool, NoMemory>
    requires { length taken.old.items ≡ length cells.now }
    ensures count { length taken.new.items ≡ length taken.old.items }
    ensures right { IfOk result (λ right. (ports : List NetPort) → slice_get ports k ≡ Some port.now
        → HasNames names.old (take k ports) → AreTaken taken.old.items (all_inputs (take k ports))
        → MatchBool right (IsRightPort (map cell_of cells.now) ports k port.now × HasNames names.new (take (k + 1) ports)
        × AreTaken taken.new.items (all_inputs (take (k + 1) ports))) (IsRightPort (map cell_of cells.now) ports k port.now → ⊥)) }
{
    let places = places(alloc, port.side, port.ground)?;
    if !has_side(k, port.side, port.ground) {
        return Ok(false);
    }
    if !all_fit(cells, &places, &port.nets) {
        return Ok(false);
    }
    if !add_name(names, port.name.bytes())? {
        return Ok(false);
    }
    let inputs = inputs(alloc, &places, &port.nets)?;
    Ok(take_all(taken, &inputs))
}

// Whether the port at place `k` may have this side and this type.
fn has_side(k: usize, side: Side, ground: Ground) -> bool
    ensures { IsTrue result ↔ HasSide k (side_of side) (ground_type ground) }
{
    if k == 0 {
        matches!(side, Side::Give) && !matches!(ground, Ground::Var(_))
    } else {
        matches!(side, Side::Take)
    }
}

// The places of the nets of a port.
fn places(alloc: Global, side: Side, ground: Ground) -> Result<Vec<Place>, NoMemory>
    ensures { IfOk result (λ places. places.items ≡ rules.places (side_of side) (ground_type ground)) }
{
    let mut places = Vec::new(alloc);
    places.push(request(side, 1))?;
    places.push(answer(side, 1))?;
    match ground {
        Ground::Com => {}
        Ground::Exp(w) => places.push(answer(side, w))?,
        Ground::Var(w) => {
            places.push(answer(side, w))?;
            places.push(request(side, 1))?;
            places.push(request(side, w))?;
            places.push(answer(side, 1))?;
        }
    }
    Ok(places)
}

// The place of a request, or of its number.
fn request(side: Side, width: u32) -> Place
    ensures { result ≡ record { input = is_input (side_of side) Request; width = width } }
{
    let input = matches!(side, Side::Give);
    Place { input, width }
}

// The place of an answer, or of its number.
fn answer(side: Side, width: u32) -> Place
    ensures { result ≡ record { input = is_input (side_of side) Answer; width = width } }
{
    let input = matches!(side, Side::Take);
    Place { input, width }
}

// Whether there are as many nets as places, and each fits its place.
fn all_fit(cells: &[Cell], places: &[Place], nets: &[NetId]) -> bool
    ensures { IsTrue result ↔ AllFit (map cell_of cells.now) places.now (map number_of nets.now) }
{
    if nets.len() != places.len() {
        return false;
    }
    for (i, net) in nets.iter().enumerate() {
        if !fits(cells, places[i], *net) {
            return false;
        }
    }
    true
}

// Whether the net fits the place.
fn fits(cells: &[Cell], place: Place, net: NetId) -> bool
    ensures { IsTrue result ↔ Fits (map cell_of cells.now) place net.0 }
{
    match cells.get(net.0 as usize) {
        Some(cell) => cell.width == place.width && is_end(place.input, cell.gate),
        None => false,
    }
}

// Whether the gate is one for an input, or else for an output.
fn is_end(input: bool, gate: Gate) -> bool
    ensures { IsTrue result ↔ IsEnd input (function_of gate) }
{
    if input {
        matches!(gate, Gate::Input)
    } else {
        matches!(gate, Gate::Reg(_))
    }
}

// The nets that stand where inputs do.
fn inputs(alloc: Global, places: &[Place], nets: &[NetId]) -> Result<Vec<NetId>, NoMemory>
    requires { length nets.now ≡ length places.now }
    ensures { IfOk result (λ inputs. map number_of inputs.items ≡ inputs_among places.now (map number_of nets.now)) }
{
    let mut inputs = Vec::new(alloc);
    for (i, net) in nets.iter().enumerate() {
        if places[i].input {
            inputs.push(*net)?;
        }
    }
    Ok(inputs)
}

// Adds a name where it is new, and says whether it is.
fn add_name<'a>(names: &mut HashSet<&'a [u8]>, name: &'a [u8]) -> Result<bool, NoMemory>
    ensures added { IfOk result (λ added. added ≡ not (has_name names.old name.now)) }
    ensures names { IfOk result (λ added. IsTrue added → (b : List ℕ) → has_name names.new b ≡ (bytes_eq b name.now || has_name names.old b)) }
{
    Ok(names.insert(name)?)
}

// Marks nets as taken, up to one that is taken already, and says whether there is none.
fn take_all(taken: &mut [bool], nets: &[NetId]) -> bool
    requires { All (λ net. net.0 < length taken.old) nets.now }
    ensures right { (before : List ℕ) → AreTaken taken.old before → MatchBool result
        (AreNew before (map number_of nets.now) × AreTaken taken.new (before ++ map number_of nets.now))
        (AreNew before (map number_of nets.now) → ⊥) }
{
    for net in nets {
        let place = net.0 as usize;
        if taken[place] {
            return false;
        }
        taken[place] = true;
    }
    true
}

// Whether some input cell isn't taken.
fn has_loose_input(cells: &[Cell], taken: &[bool]) -> bool
    requires { length taken.now ≡ length cells.now }
    ensures { (nets : List ℕ) → AreTaken taken.now nets → MatchBool result ((n : ℕ) × IsLoose (map cell_of cells.now) nets n)
        ((n : ℕ) → IsLoose (map cell_of cells.now) nets n → ⊥) }
{
    for (n, cell) in cells.iter().enumerate() {
        if is_end(true, cell.gate) && !taken[n] {
            return true;
        }
    }
    false
}
