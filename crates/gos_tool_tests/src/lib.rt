// Tests of the commands by public calls alone: files in memory, the line that is printed, and calls that fail.
//
// A crate with tests is proved twice, so crates that others wait for have none: theirs stand here, one file a subject.
#![tactic(auto)]

#[cfg(test)]
mod building;
#[cfg(test)]
mod compiling;
#[cfg(test)]
mod cycles;
#[cfg(test)]
mod demo;
#[cfg(test)]
mod explained;
#[cfg(test)]
mod failing;
#[cfg(test)]
mod linking;
#[cfg(test)]
mod netlists;
#[cfg(test)]
mod objects;
#[cfg(test)]
mod policies;
#[cfg(test)]
mod recording;
#[cfg(test)]
mod rows;
#[cfg(test)]
mod running;
#[cfg(test)]
mod texts;
#[cfg(test)]
mod worked;
