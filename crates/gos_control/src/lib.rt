// The gates of the parts that pass control on: Skip, Seq, SeqExp, Par, If, IfExp and While.
//
// `control.rt` has the type for these parts and its `Macro`, which the layers above use. A file for each kind makes its
// cells: `skip.rt`, `seq.rt`, `par.rt`, `choice.rt` (If), `repeat.rt` (While). The layouts are told in `specs/Layout` and
// the files that it names. That they do what the parts do by their rows is `specs/laws/Kept`, in the words of
// `gos_macro/specs/Law`.
#![tactic(auto)]

mod choice;
mod control;
mod par;
mod repeat;
mod seq;
mod skip;

pub use control::Control;
