// Tests of the commands by public calls alone: files in memory, the line that is printed, and calls that fail.
//
// A crate with tests is proved twice, so `gos_flow` has none: they stand here, one file a subject.
#![tactic(auto)]

#[cfg(test)]
mod failing;
#[cfg(test)]
mod rows;
#[cfg(test)]
mod running;
#[cfg(test)]
mod words;
