// The plan of a node realises its term where the plans of its children realise theirs.
//
// Laws alone: each function does nothing, and its contract is the law. `laws.rt` has the chapters in reading order; the
// definitions of a chapter stand in its folder of `specs`, and what it is about in README.md.
#![tactic(auto)]

pub mod laws;
