// A checked module: its typed term, in which each occurrence has a number of its own.

ghost use Rattle.std.specs.Prelude.{◌≡◌};
ghost use Rattle.gos_check.specs.Checked.{IsChecked};

use gos_syntax::{Import, Op};
use gos_types::Ty;
use std::marker::Model;

/// Two parts of a node use one name: what has the number `of` outside has `left` in one part, and `right` in another.
#[derive(Clone, Copy, PartialEq, Eq)]
pub struct Split {
    pub of: u32,
    pub left: u32,
    pub right: u32,
}

/// A term with its type. Its splits hold in its parts, in their order.
#[cycle(node)]
#[derive(Drop)]
pub struct Node {
    pub ty: Ty,
    pub splits: Vec<Split>,
    pub form: NodeForm,
}

/// What a term is. Names are numbers: an import's is its place in the list of imports, and each binder, and each side of a
/// split, has one of its own.
#[cycle(node)]
#[derive(Drop)]
pub enum NodeForm {
    /// `skip`
    Skip,
    /// `value : width`
    Lit {
        value: u64,
        width: u32,
    },
    /// The one use of a number.
    Use(u32),
    /// A function, whose argument has this number in the body.
    Fun {
        number: u32,
        body: Box<Node>,
    },
    /// A block, whose variable has this number in the body.
    New {
        number: u32,
        width: u32,
        body: Box<Node>,
    },
    /// A block, whose array of so many numbers has this number in the body.
    Array {
        number: u32,
        length: u32,
        width: u32,
        body: Box<Node>,
    },
    /// A function, and its argument.
    App(Box<Node>, Box<Node>),
    /// `( first , second )`
    Pair(Box<Node>, Box<Node>),
    /// `fst pair`
    Fst(Box<Node>),
    /// `snd pair`
    Snd(Box<Node>),
    /// `first ; second`
    Seq(Box<Node>, Box<Node>),
    /// `left || right`
    Par(Box<Node>, Box<Node>),
    /// `if test then yes else no`
    If(Box<Node>, Box<Node>, Box<Node>),
    /// `while test do body`
    While(Box<Node>, Box<Node>),
    /// `variable := value`
    Assign(Box<Node>, Box<Node>),
    /// `! variable`
    Deref(Box<Node>),
    /// `not operand`
    Not(Box<Node>),
    /// An operator between its operands.
    Bin(Op, Box<Node>, Box<Node>),
}

/// A module that `check` accepted. What is known of it is `IsChecked`, in `specs/Checked.antt`.
#[derive(Drop)]
pub struct Linear {
    pub(crate) weight: u64,
    pub(crate) imports: Vec<Import>,
    pub(crate) result: Ty,
    pub(crate) term: Node,
}

impl Model for Linear {
    ghost use Rattle.gos_check.specs.Checked.{SeenLinear, IsChecked};
    ghost use Rattle.std.specs.Coded.{codes};
    ghost use Rattle.gos_types.specs.contracts.types.Ty as a_type;
    ghost use Rattle.gos_syntax.specs.contracts.module.Import as an_import;
    ghost use Rattle.gos_check.specs.contracts.linear.Node as a_node;

    ghost Value = { SeenLinear };

    ghost coded = { Prim.hlevel (codes, a_type.the_row.coded, an_import.the_row.coded, a_node.the_row.coded) };

    ghost view = { λ l. record { weight = l.weight; imports = l.imports.items; result = l.result; term = l.term } };

    ghost invariant = { λ l. IsChecked (record { weight = l.weight; imports = l.imports.items; result = l.result; term = l.term }) };
}

impl Linear {
    /// The weight of the module, at most 8,192: for each node of its body 4 and the handshakes of the node's type, and the
    /// handshakes of its imports.
    pub fn weight(&self) -> u64
        ensures { result ≡ self.now.weight }
    {
        self.weight
    }

    /// The imports of the module, in written order.
    pub fn imports(&self) -> &[Import]
        ensures { result.now ≡ self.now.imports }
    {
        self.imports.as_slice()
    }

    /// The type of the module's body.
    pub fn result(&self) -> &Ty
        ensures { result.now ≡ self.now.result }
    {
        &self.result
    }

    /// The module's body.
    pub fn term(&self) -> &Node
        ensures value { result.now ≡ self.now.term }
        ensures checked { IsChecked self.now }
    {
        &self.term
    }
}
