// What happens at different places of a running term can happen in either order.
//
// Laws alone: each function does nothing, and its contract is the law. `laws.rt` has the chapters; the
// definitions of a chapter stand in its folder of `specs`, and what it is about in README.md.
#![tactic(auto)]

pub mod laws;
