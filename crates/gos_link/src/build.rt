// What a build file says.

use crate::file_name::FileName;
use gos_lex::Name;

/// An instance of a module, from a line `inst NAME SOURCE OBJECT`. Lines count from 1, and all lines count.
#[derive(Debug, Drop)]
pub struct Instance {
    pub line: u64,
    /// The name of the instance.
    pub name: Name,
    /// The file with its module.
    pub source: FileName,
    /// The file for its object.
    pub object: FileName,
}

/// That one instance serves an import of another, from a line `bind USER IMPORT GIVER`.
#[derive(Debug, Drop)]
pub struct Bind {
    pub line: u64,
    /// The instance whose import is served.
    pub user: Name,
    /// The import.
    pub import: Name,
    /// The instance that serves it.
    pub giver: Name,
}

/// What a build file says.
#[derive(Debug, Drop)]
pub struct Build {
    /// The instances, in the order of their lines.
    pub instances: Vec<Instance>,
    /// The binds, in the order of their lines.
    pub binds: Vec<Bind>,
    /// The name of the instance whose result is that of the whole, and the line that says so.
    pub root: Name,
    pub root_line: u64,
    /// The file for the netlist.
    pub net: FileName,
    /// The file for the Verilog text.
    pub verilog: FileName,
    /// The file with the pulses.
    pub pulses: FileName,
    /// The file for the trace.
    pub trace: FileName,
}
