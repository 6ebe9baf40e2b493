// The meaning of programs.
//
// Nearly all of this crate stands in `specs`: read it in the order of `specs/Lib.antt`. Programs come first (`Terms` to
// `Linking`), then the protocol that their labels keep (`Protocol`). That a netlist keeps pace with a program is the subject
// of gos_pace.
//
// `laws.rt` has the small theorems that show what the definitions say.
#![tactic(auto)]

mod laws;

pub use laws::{
    accesses, arrays, ground_ports, reached_places, sequences, small_arrays, small_modules,
    small_traces, stores, types_of_terms, writes,
};
