// Tests of what leads from sources to plans, and from plans to netlists, by public calls alone.
//
// A crate with tests is proved twice, so crates that others wait for have none: theirs stand here, one file a subject.
#![tactic(auto)]

#[cfg(test)]
mod choices;
#[cfg(test)]
mod layouts;
#[cfg(test)]
mod pools;
#[cfg(test)]
mod sources;
