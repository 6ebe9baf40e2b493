// A circuit as one Verilog module, in the small part of IEEE 1364-2005 that it takes.
//
// `write_verilog` gives the one text of an accepted netlist. What such a text is stands in `specs`, in the order of
// `specs/Lib.antt`: `PortNets` (the nets of ports, with their names), `Lines` (the lines of a module), `VerilogText` (the
// text of a netlist), `SmallTexts`, `OneText` (that each has one of the other), `Meaning` (what a module means).
// `port_net.rt` has the nets of ports, `printing.rt` the lines, `writing.rt` the whole text, and `laws.rt` theorems on the
// definitions.
#![tactic(auto)]

mod cell_line;
mod declared;
mod driven;
mod faces;
mod fault;
mod head;
mod inputs;
mod judged;
mod laws;
mod outputs;
mod port_net;
mod ports_of;
mod printing;
mod readable;
mod reading;
mod slots;
mod writing;

pub use fault::VFault;
pub use laws::{meaning, one_reading, one_text, places, small_texts};
pub use reading::read_verilog;
pub use writing::write_verilog;
