// Tests of netlists, of their texts and Verilog texts, of circuits of gates and their texts, of lines, and of simulation,
// pulse files and traces by public calls alone.
//
// A crate with tests is proved twice, so crates that others wait for have none: theirs stand here, one file a subject.
#![tactic(auto)]

#[cfg(test)]
mod acceptance;
#[cfg(test)]
mod aiger;
#[cfg(test)]
mod bench;
#[cfg(test)]
mod drawn;
#[cfg(test)]
mod driving;
#[cfg(test)]
mod lines;
#[cfg(test)]
mod lowering;
#[cfg(test)]
mod netlists;
#[cfg(test)]
mod plain;
#[cfg(test)]
mod pulse_files;
#[cfg(test)]
mod samples;
#[cfg(test)]
mod simulating;
#[cfg(test)]
mod tidying;
#[cfg(test)]
mod verilog;
