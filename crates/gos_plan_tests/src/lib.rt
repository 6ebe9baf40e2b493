// Tests of plans, of build files and of linking by public calls alone: which plans are made, their object texts, how their
// parts fire, and what linking gives.
//
// A crate with tests is proved twice, so crates that others wait for have none: theirs stand here, one file a subject.
#![tactic(auto)]

#[cfg(test)]
mod build_files;
#[cfg(test)]
mod firings;
#[cfg(test)]
mod linking;
#[cfg(test)]
mod object_texts;
#[cfg(test)]
mod plans;
