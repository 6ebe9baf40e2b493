// The ties of linked plans: where the ends of their joints lie in the whole.

ghost use Rattle.std.specs.Prelude.{◌≡◌, ◌<◌, ◌≤◌, ◌++◌, ◌+◌, ◌^◌, ℕ, List, length, map, IfOk, IfSome, OnOk};
ghost use Rattle.gos_plan.specs.Seen.{end_of, joint_of, plan_of};
ghost use Rattle.gos_link.specs.declared.services.Service.{Service};
ghost use Rattle.gos_link.specs.inner.Counts.{AreCounted, HasRoom, HaveRoom};
ghost use Rattle.gos_link.specs.inner.Wired.{place_bound, place_of_result, point_in, rank, stays, ties_from, ties_in, AllRight, PlacesAre};

use crate::served::Services;
use gos_plan::{End, Joint, Plan};
use gos_ties::{Place, Point, Tie};
use gos_types::NoMemory;
use std::alloc::Global;

// The place of an import: that of its service, or its own among the imports that stay.
fn place_of_import(bound: Option<usize>, stay: u32) -> Place
    requires { IfSome bound (λ t. t < 2 ^ 32) }
    ensures { result ≡ place_bound bound stay }
{
    match bound {
        Some(number) => Place::Node(number as u32),
        None => Place::Import(stay),
    }
}

// The place of a plan's result: that of the whole, or that of the service by its instance.
fn place_of_result(services: &Services, root: usize, plan: usize) -> Place
    requires services { length services.now < 2 ^ 32 }
    requires plan { plan < 2 ^ 32 }
    ensures { result ≡ place_of_result services.now root plan }
{
    if plan == root {
        return Place::Result;
    }
    match services.number_used(plan) {
        Some(number) => Place::Node(number as u32),
        None => Place::Number(plan as u32),
    }
}

// 1 for an import that stays, and 0 for one that is served.
fn stays(bound: Option<usize>) -> u32
    ensures value { result ≡ stays bound }
    ensures small { result ≤ 1 }
{
    match bound {
        Some(_) => 0,
        None => 1,
    }
}

// Where the imports of a plan lie in the whole.
#[derive(Drop)]
struct Places {
    // The place of each import.
    each: Vec<Place>,
    // How many imports stay, of this plan and of those before it.
    stay: u32,
}

// The places of n imports of a plan, where so many imports of the plans before stay.
fn places_of(
    alloc: Global,
    services: &Services,
    plan: usize,
    n: usize,
    from: u32,
) -> Result<Places, NoMemory>
    requires services { length services.now < 2 ^ 32 }
    requires room { from + n < 2 ^ 32 }
    ensures many { IfOk result (λ places. length places.each.items ≡ n) }
    ensures each { IfOk result (λ places. PlacesAre services.now plan from places.each.items) }
    ensures stay { IfOk result (λ places. places.stay ≡ from + rank services.now plan n) }
    ensures few { IfOk result (λ places. places.stay ≤ from + n) }
{
    let mut each = Vec::new(alloc);
    let mut stay = from;
    for number in 0..n {
        let bound = services.number_bound(plan, number);
        each.push(place_of_import(bound, stay))?;
        stay += stays(bound);
    }
    Ok(Places { each, stay })
}

// Where an end of a plan lies in the whole.
fn point_of(start: u32, places: &[Place], outcome: Place, end: End) -> Point
    requires { HasRoom start (length places.now) (end_of end) }
    ensures { (ss : List Service) (root k from : ℕ) → PlacesAre ss k from places.now → outcome ≡ place_of_result ss root k
        → result ≡ point_in ss root k start from (end_of end) }
{
    match end {
        End::Part { part, shake } => Point {
            place: Place::Part(start + part),
            shake,
        },
        End::Import { import, shake } => Point {
            place: places[import as usize],
            shake,
        },
        End::Result { shake } => Point {
            place: outcome,
            shake,
        },
    }
}

// Adds the ties of a plan's joints.
fn add_ties(
    ties: &mut Vec<Tie>,
    start: u32,
    places: &[Place],
    outcome: Place,
    joints: &[Joint],
) -> Result<(), NoMemory>
    requires { HaveRoom start (length places.now) (map joint_of joints.now) }
    ensures { (ss : List Service) (root k from : ℕ) → PlacesAre ss k from places.now → outcome ≡ place_of_result ss root k
        → OnOk result (ties.new.items ≡ ties.old.items ++ ties_in ss root k start from (map joint_of joints.now)) }
{
    for joint in joints {
        let one = point_of(start, places, outcome, joint.asks);
        let other = point_of(start, places, outcome, joint.serves);
        ties.push(Tie { one, other })?;
    }
    Ok(())
}

/// The ties of all plans' joints. `Err` is want of memory alone.
pub(crate) fn ties_of(
    alloc: Global,
    plans: &[Plan],
    services: &Services,
    root: usize,
) -> Result<Vec<Tie>, NoMemory>
    requires { AreCounted (map plan_of plans.now) services.now }
    ensures ties { IfOk result (λ ties. ties.items ≡ ties_from services.now root 0 0 0 (map plan_of plans.now)) }
    ensures right { IfOk result (λ _. AllRight (map plan_of plans.now)) }
{
    let mut ties = Vec::new(alloc);
    let mut start: u32 = 0;
    let mut stay = 0;
    for (number, plan) in plans.iter().enumerate() {
        let places = places_of(alloc, services, number, plan.imports().len(), stay)?;
        let outcome = place_of_result(services, root, number);
        add_ties(&mut ties, start, &places.each, outcome, plan.joints())?;
        start += plan.parts().len() as u32;
        stay = places.stay;
    }
    Ok(ties)
}
