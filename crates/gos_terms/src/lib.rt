// The plan of a checked module realises its program: the induction on typed terms.
//
// Laws alone: each function does nothing, and its contract is the law. `laws.rt` has the chapters in reading order; the
// definitions of a chapter stand in its folder of `specs`, and what it is about in README.md.
#![tactic(auto)]

pub mod laws;
