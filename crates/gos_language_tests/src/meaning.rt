// The laws are functions, so they return.
use gos_model::{reached_places, sequences, small_modules, small_traces, types_of_terms, writes};

#[test]
fn laws_return() {
    sequences();
    small_traces();
    small_modules();
    types_of_terms();
    reached_places();
    writes();
}
