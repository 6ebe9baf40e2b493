// Tests of the gates of parts by public calls alone: their cells, and what goes out of them cycle by cycle.
//
// A crate with tests is proved twice, so crates that others wait for have none: theirs stand here, one file a subject.
// `trial.rt` lays a part out alone, and settles it cycle by cycle.
#![tactic(auto)]

#[cfg(test)]
mod array_cycles;
#[cfg(test)]
mod control_cells;
#[cfg(test)]
mod control_cycles;
#[cfg(test)]
mod data_cells;
#[cfg(test)]
mod data_cycles;
#[cfg(test)]
mod fast_share_cells;
#[cfg(test)]
mod fast_share_cycles;
#[cfg(test)]
mod gates;
#[cfg(test)]
mod layouts;
#[cfg(test)]
mod pools;
#[cfg(test)]
mod share_cells;
#[cfg(test)]
mod share_cycles;
#[cfg(test)]
mod trial;
