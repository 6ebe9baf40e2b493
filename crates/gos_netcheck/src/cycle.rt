// The cycle that the search came upon, from its least net on.
ghost use Rattle.std.specs.Prelude.{◌≡◌, ℕ, ◌<◌, ◌≤◌, List, Some, IfOk, All, map, length, reverse, vec_len, slice_get, get_or};
ghost use Rattle.gos_netlist.specs.Seen.{number_of};
ghost use Rattle.gos_netcheck.specs.inner.Turning.{IsFrontTo, IsTurned};

use gos_netlist::NetId;
use gos_types::NoMemory;
use std::alloc::Global;

// The nets of the path from its last one back to this one, turned so that the least stands first.
pub(crate) fn cycle_at(alloc: Global, path: &[NetId], net: NetId) -> Result<Vec<NetId>, NoMemory>
    requires { (i : ℕ) × (slice_get (reverse (map number_of path.now)) i ≡ Some net.0) }
    ensures { IfOk result (λ nets. (front : List ℕ) × IsFrontTo (reverse (map number_of path.now)) net.0 front × IsTurned front (map number_of nets.items)) }
{
    let nets = nets_back_to(alloc, path, net)?;
    Ok(from_least(nets))
}

// The nets of the path from its last one back to this one.
fn nets_back_to(alloc: Global, path: &[NetId], net: NetId) -> Result<Vec<NetId>, NoMemory>
    requires { (i : ℕ) × (slice_get (reverse (map number_of path.now)) i ≡ Some net.0) }
    ensures { IfOk result (λ nets. IsFrontTo (reverse (map number_of path.now)) net.0 (map number_of nets.items)) }
{
    let mut nets = Vec::new(alloc);
    for i in 0..path.len() {
        let back = path[path.len() - 1 - i];
        nets.push(back)?;
        if back.0 == net.0 {
            return Ok(nets);
        }
    }
    Ok(nets)
}

// The same nets in a ring, from the least one on.
fn from_least(mut nets: Vec<NetId>) -> Vec<NetId>
    requires { 0 < vec_len nets }
    ensures { IsTurned (map number_of nets.items) (map number_of result.items) }
{
    let place = place_of_least(&nets);
    nets.rotate_left(place);
    nets
}

// The place of the least net.
#[tactic(auto, using(crate::proofs::TurnLemmas::none_is_less))]
fn place_of_least(nets: &[NetId]) -> usize
    requires { 0 < length nets.now }
    ensures within { result < length nets.now }
    ensures least { All (λ b. get_or (map number_of nets.now) result 0 ≤ b) (map number_of nets.now) }
{
    let mut least = 0;
    for (i, net) in nets.iter().enumerate() {
        if net.0 < nets[least].0 {
            least = i;
        }
    }
    least
}
