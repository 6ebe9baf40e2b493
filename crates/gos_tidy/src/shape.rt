// Cells as keys of tables.
ghost use Rattle.std.specs.Prelude.{◌≡◌, ◌↔◌, IsTrue};
ghost use Rattle.gos_netlist.specs.Seen.{cell_of};
ghost use Rattle.gos_tidy.specs.inner.Shapes.{nets, shape_of};

use gos_netlist::{Cell, Gate};

// The kind of a gate.
#[derive(Debug, Clone, Copy, PartialEq, Eq, Hash)]
pub(crate) enum Kind {
    Input,
    Const,
    Not,
    And,
    Or,
    Xor,
    Mux,
    Add,
    Sub,
    Eq,
    Less,
    Gate,
    Reg,
}

// All that a cell is: two cells are one where their shapes are.
#[derive(Debug, Clone, Copy, PartialEq, Eq, Hash)]
pub(crate) struct Shape {
    pub(crate) width: u32,
    pub(crate) kind: Kind,
    // Its first net, or 0.
    pub(crate) first: u32,
    pub(crate) second: u32,
    pub(crate) third: u32,
    // Its constant, or 0.
    pub(crate) number: u64,
}

// The shape of a cell.
pub(crate) fn shape_of(cell: &Cell) -> Shape
    ensures { result ≡ shape_of (cell_of cell.now) }
{
    let width = cell.width;
    match cell.gate {
        Gate::Input => nets(width, Kind::Input, 0, 0, 0),
        Gate::Const(number) => Shape {
            width,
            kind: Kind::Const,
            first: 0,
            second: 0,
            third: 0,
            number,
        },
        Gate::Not(a) => nets(width, Kind::Not, a.0, 0, 0),
        Gate::And(a, b) => nets(width, Kind::And, a.0, b.0, 0),
        Gate::Or(a, b) => nets(width, Kind::Or, a.0, b.0, 0),
        Gate::Xor(a, b) => nets(width, Kind::Xor, a.0, b.0, 0),
        Gate::Mux(s, a, b) => nets(width, Kind::Mux, s.0, a.0, b.0),
        Gate::Add(a, b) => nets(width, Kind::Add, a.0, b.0, 0),
        Gate::Sub(a, b) => nets(width, Kind::Sub, a.0, b.0, 0),
        Gate::Eq(a, b) => nets(width, Kind::Eq, a.0, b.0, 0),
        Gate::Less(a, b) => nets(width, Kind::Less, a.0, b.0, 0),
        Gate::Gate(s, a) => nets(width, Kind::Gate, s.0, a.0, 0),
        Gate::Reg(a) => nets(width, Kind::Reg, a.0, 0, 0),
    }
}

// The shape of a cell that has no constant.
fn nets(width: u32, kind: Kind, first: u32, second: u32, third: u32) -> Shape
    ensures { result ≡ nets width kind first second third }
{
    Shape {
        width,
        kind,
        first,
        second,
        third,
        number: 0,
    }
}

// Whether two cells are one.
pub(crate) fn same_cell(a: &Cell, b: &Cell) -> bool
    ensures { IsTrue result ↔ (cell_of a.now ≡ cell_of b.now) }
{
    shape_of(a) == shape_of(b)
}
