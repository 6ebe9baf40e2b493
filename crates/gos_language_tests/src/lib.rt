// Tests of the language by public calls alone: types, tokens, modules, and what the checker says of them.
//
// A crate with tests is proved twice, so crates that others wait for have none: theirs stand here, one file a subject.
#![tactic(auto)]

#[cfg(test)]
mod explained;
#[cfg(test)]
mod meaning;
#[cfg(test)]
mod modules;
#[cfg(test)]
mod tokens;
#[cfg(test)]
mod types;
#[cfg(test)]
mod typing;
