// What a line does at a place, and the whole with it.
ghost use Rattle.std.specs.Prelude.{◌<◌, IfOk, length};
ghost use Rattle.gos_model.specs.Reach.{Rewrites};
ghost use Rattle.gos_witness.specs.NodeLists.{seen};
ghost use Rattle.gos_witness.specs.Ports.{imports_of, label_of};
ghost use Rattle.gos_witness.specs.Ports.{ArePorts};
ghost use Rattle.gos_witness.specs.inner.Keeping.{Keeps};
ghost use Rattle.gos_witness.specs.inner.Rows.{AreNarrow};
ghost use Rattle.gos_witness.specs.inner.Changes.{ShowsAt, StepsAt, UnfoldsAt};

use crate::labels::Label;
use crate::moves::Path;
use crate::nodes::NodeList;
use crate::program::ProgramPort;
use crate::showing::show;
use crate::stepping::step;
use crate::store::Entry;
use crate::unfolding::unfold;
use crate::walking::{Zone, rebuild, walk};
use gos_types::NoMemory;
use std::alloc::Global;

/// The whole after an unfolding at a head, if one can be made there.
pub fn unfold_at(
    alloc: Global,
    list: &mut NodeList,
    root: u32,
    path: &Path,
) -> Result<Option<u32>, NoMemory>
    requires root { root < length list.old.nodes }
    ensures outcome { IfOk result (UnfoldsAt list.new path.now (seen list.old root)) }
    ensures keeps { Keeps list.old list.new }
{
    let Some(place) = walk(alloc, list, root, Zone::Head, path.steps())? else {
        return Ok(None);
    };
    let Some(next) = unfold(alloc, list, place.node)? else {
        return Ok(None);
    };
    let whole = rebuild(list, place.frames, next)?;
    Ok(Some(whole))
}

/// The whole after a computation step at a reached place, if one can be made there.
pub fn step_at(
    alloc: Global,
    list: &mut NodeList,
    store: &mut Vec<Entry>,
    root: u32,
    path: &Path,
) -> Result<Option<u32>, NoMemory>
    requires root { root < length list.old.nodes }
    requires narrow { AreNarrow store.old.items }
    ensures outcome { IfOk result (StepsAt list.new path.now store.old.items store.new.items (seen list.old root)) }
    ensures keeps { Keeps list.old list.new }
    ensures narrow { AreNarrow store.new.items }
{
    let Some(place) = walk(alloc, list, root, Zone::Reached, path.steps())? else {
        return Ok(None);
    };
    let Some(next) = step(alloc, list, store, place.node)? else {
        return Ok(None);
    };
    let whole = rebuild(list, place.frames, next)?;
    Ok(Some(whole))
}

/// The whole after a label at a reached place, if it can be there.
pub fn show_at(
    alloc: Global,
    list: &mut NodeList,
    ports: &[ProgramPort],
    label: Label,
    root: u32,
    path: &Path,
) -> Result<Option<u32>, NoMemory>
    requires root { root < length list.old.nodes }
    requires ports { ArePorts ports.now }
    requires port { label.port < length ports.now }
    ensures outcome { IfOk result (ShowsAt list.new (imports_of ports.now) (label_of ports.now label) path.now (seen list.old root)) }
    ensures keeps { Keeps list.old list.new }
{
    let Some(place) = walk(alloc, list, root, Zone::Reached, path.steps())? else {
        return Ok(None);
    };
    let Some(next) = show(list, ports, label, place.node)? else {
        return Ok(None);
    };
    let whole = rebuild(list, place.frames, next)?;
    Ok(Some(whole))
}
