// Terms as lists of nodes named by number.
//
// A node names its parts by their numbers, which are lower than its own, so a list that grows keeps the terms that it had. Parts
// may be shared. Beside its form a node has how many nodes its term has, and how many binders around it the term needs.
ghost use Rattle.std.specs.Prelude.{◌≡◌, ◌+◌, ◌<◌, ◌≤◌, ◌∷◌, ◌++◌, [], ℕ, length, map, IfOk};
ghost use Rattle.gos_lex.specs.Names.{IsNameOrWord};
ghost use Rattle.gos_types.specs.Types.{type_of};
ghost use Rattle.gos_witness.specs.Sizes.{size};
ghost use Rattle.gos_witness.specs.Needs.{needs};
ghost use Rattle.gos_witness.specs.NodeLists.{Fits, IsCount, IsKept, IsRight, binders_of, name_at, seen, shape, type_at};
ghost use Rattle.gos_witness.specs.inner.Keeping.{Keeps};
ghost use Rattle.gos_witness.specs.inner.Compaction.{IsBeginning};

use gos_lex::Name;
use gos_syntax::Op;
use gos_types::{NoMemory, Ty, copy};
use std::alloc::Global;
use std::marker::Model;

/// What a term without parts is. Names are numbers in the list's table.
#[derive(Clone, Copy)]
pub enum Leaf {
    /// `skip`
    Skip,
    /// A literal.
    Lit { value: u64, width: u32 },
    /// A bound variable: how many binders are between it and its own.
    Bound(u32),
    /// An import.
    Import(u32),
    /// A variable's location.
    Loc(u32),
    /// An array's location.
    Arr(u32),
    /// A wait for this event of a port.
    Wait { name: u32, event: u32 },
}

/// What a term of one part is.
#[derive(Clone, Copy)]
pub enum OnePart {
    /// A function; the type of its argument is a number in the list's table.
    Lam(u32),
    /// `new` of this width.
    New(u32),
    /// `new` of so many numbers of this width.
    NewArray { length: u32, width: u32 },
    /// `fst pair`
    Fst,
    /// `snd pair`
    Snd,
    /// `! variable`
    Deref,
    /// `not operand`
    Not,
    /// A block whose variable or array is at this location.
    Scope(u32),
    /// An operator whose left operand gave this number.
    Held { value: u64, op: Op },
    /// An assignment whose right side gave this number.
    Put(u64),
}

/// What a term of two parts is.
#[derive(Clone, Copy)]
pub enum TwoParts {
    /// A function, and its argument.
    App,
    /// `( first , second )`
    Both,
    /// `first ; second`
    Seq,
    /// `left || right`
    Par,
    /// `while test do body`
    While,
    /// `variable := value`
    Assign,
    /// An operator between its operands.
    Bin(Op),
}

/// What a node is, its parts by their numbers.
#[derive(Clone, Copy)]
pub enum Form {
    Leaf(Leaf),
    One(OnePart, u32),
    Two(TwoParts, u32, u32),
    If(u32, u32, u32),
}

/// A node.
#[derive(Clone, Copy)]
pub struct Node {
    pub form: Form,
    /// How many nodes its term has, counted up to a limit.
    pub size: u64,
    /// How many binders around it its term needs; none where no bound variable is free.
    pub needs: u64,
}

/// A list of nodes, with the types of functions and the names of ports.
#[derive(Drop)]
pub struct NodeList {
    types: Vec<Ty>,
    names: Vec<Name>,
    nodes: Vec<Node>,
}

impl Model for NodeList {
    ghost use Rattle.gos_witness.specs.NodeLists.{Listed};
    ghost use Rattle.std.specs.Coded.{codes};
    ghost use Rattle.gos_types.specs.contracts.types.Ty as a_type;
    ghost use Rattle.gos_witness.specs.contracts.nodes.Node as a_node;

    ghost Value = { Listed };

    ghost coded = { Prim.hlevel (codes, a_type.the_row.coded, a_node.the_row.coded) };

    ghost use Rattle.gos_witness.specs.inner.Lists.{list_of, IsList};

    ghost view = { list_of };

    ghost invariant = { IsList };
}

// Sizes are counted up to this number, which no term has that a line leads to.
pub const MOST_NODES: u64 = 1 << 60;

// So many nodes, and one for the form itself.
fn sum_of_sizes(a: u64, b: u64, c: u64) -> u64
    requires first { a ≤ MOST_NODES }
    requires second { b ≤ MOST_NODES }
    requires third { c ≤ MOST_NODES }
    ensures { (m n p : ℕ) → IsCount a m → IsCount b n → IsCount c p → IsCount result (1 + m + n + p) }
{
    (1 + a + b + c).min(MOST_NODES)
}

impl OnePart {
    // How many binders around its part the form adds.
    pub fn binders(self) -> u64
        ensures { result ≡ binders_of self }
    {
        match self {
            OnePart::Lam(_) | OnePart::New(_) | OnePart::NewArray { .. } => 1,
            _ => 0,
        }
    }
}

impl NodeList {
    /// No node.
    pub fn new(alloc: Global) -> NodeList
        ensures nodes { result.nodes ≡ [] }
        ensures types { result.tables.types ≡ [] }
        ensures names { result.tables.names ≡ [] }
    {
        NodeList {
            types: Vec::new(alloc),
            names: Vec::new(alloc),
            nodes: Vec::new(alloc),
        }
    }

    /// The same terms, types and names. `Err` is want of memory alone.
    pub fn copy(&self, alloc: Global) -> Result<NodeList, NoMemory>
        ensures { IfOk result (Keeps self.now) }
    {
        let types = copy_types(alloc, self.types.as_slice())?;
        let names = copy_names(alloc, self.names.as_slice())?;
        let nodes = copy_nodes(alloc, self.nodes.as_slice())?;
        Ok(NodeList {
            types,
            names,
            nodes,
        })
    }

    /// A list with the same types and names, and the first nodes. `Err` is want of memory alone.
    pub fn beginning(&self, alloc: Global, count: usize) -> Result<NodeList, NoMemory>
        requires { count ≤ length self.now.nodes }
        ensures { IfOk result (IsBeginning self.now count) }
    {
        let types = copy_types(alloc, self.types.as_slice())?;
        let names = copy_names(alloc, self.names.as_slice())?;
        let nodes = copy_nodes(alloc, &self.nodes[..count])?;
        Ok(NodeList {
            types,
            names,
            nodes,
        })
    }

    /// The nodes.
    pub fn nodes(&self) -> &[Node]
        ensures nodes { result.now ≡ self.now.nodes }
        ensures right { IsKept self.now }
    {
        self.nodes.as_slice()
    }

    /// A node by its number.
    pub fn node(&self, number: u32) -> Node
        requires { number < length self.now.nodes }
        ensures right { IsRight self.now number result }
        ensures bounded { result.size ≤ MOST_NODES }
    {
        self.nodes[number as usize]
    }

    /// What a node is, by its number.
    pub fn form(&self, number: usize) -> Form
        requires { number < length self.now.nodes }
        ensures term { seen self.now number ≡ shape self.now result }
        ensures fits { Fits self.now.tables number result }
    {
        self.nodes[number].form
    }

    /// The names.
    pub fn names(&self) -> &[Name]
        ensures { result.now ≡ self.now.tables.names }
    {
        self.names.as_slice()
    }

    /// A name by its number.
    pub fn name(&self, number: u32) -> &Name
        requires { number < length self.now.tables.names }
        ensures { result.now ≡ name_at self.now.tables number }
    {
        &self.names[number as usize]
    }

    // How many nodes the term of a form has.
    fn size_of(&self, form: Form) -> u64
        requires { Fits self.now.tables (length self.now.nodes) form }
        ensures { IsCount result (size (shape self.now form)) }
    {
        match form {
            Form::Leaf(_) => 1,
            Form::One(_, a) => sum_of_sizes(self.node(a).size, 0, 0),
            Form::Two(_, a, b) => sum_of_sizes(self.node(a).size, self.node(b).size, 0),
            Form::If(a, b, c) => {
                sum_of_sizes(self.node(a).size, self.node(b).size, self.node(c).size)
            }
        }
    }

    // How many binders the term of a form needs.
    fn needs_of(&self, form: Form) -> u64
        requires { Fits self.now.tables (length self.now.nodes) form }
        ensures value { result ≡ needs (shape self.now form) }
        ensures few { result ≤ 4294967296 }
    {
        match form {
            Form::Leaf(Leaf::Bound(n)) => u64::from(n) + 1,
            Form::Leaf(_) => 0,
            Form::One(one, a) => self.node(a).needs.saturating_sub(one.binders()),
            Form::Two(_, a, b) => self.node(a).needs.max(self.node(b).needs),
            Form::If(a, b, c) => {
                self.node(a)
                    .needs
                    .max(self.node(b).needs.max(self.node(c).needs))
            }
        }
    }

    /// Adds a node of this form, and gives its number. `Err` is want of memory alone, as are 4,294,967,295 nodes.
    pub fn push(&mut self, form: Form) -> Result<u32, NoMemory>
        requires { Fits self.old.tables (length self.old.nodes) form }
        ensures term { IfOk result (λ number. seen self.new number ≡ shape self.old form) }
        ensures there { IfOk result (λ number. number < length self.new.nodes) }
        ensures keeps { Keeps self.old self.new }
    {
        let number = self.nodes.len();
        if number >= u32::MAX as usize {
            return Err(NoMemory);
        }
        let size = self.size_of(form);
        let needs = self.needs_of(form);
        self.nodes.push(Node { form, size, needs })?;
        Ok(number as u32)
    }

    /// Adds a type, and gives its number.
    pub fn push_type(&mut self, ty: Ty) -> Result<u32, NoMemory>
        ensures ty { IfOk result (λ number. type_at self.new.tables number ≡ type_of ty) }
        ensures there { IfOk result (λ number. number < length self.new.tables.types) }
        ensures keeps { Keeps self.old self.new }
        ensures nodes { self.new.nodes ≡ self.old.nodes }
    {
        let number = self.types.len();
        if number >= u32::MAX as usize {
            return Err(NoMemory);
        }
        self.types.push(ty)?;
        Ok(number as u32)
    }

    /// Adds a name, and gives its number.
    pub fn push_name(&mut self, name: Name) -> Result<u32, NoMemory>
        ensures name { IfOk result (λ number. name_at self.new.tables number ≡ name) }
        ensures there { IfOk result (λ number. number < length self.new.tables.names) }
        ensures keeps { Keeps self.old self.new }
        ensures nodes { self.new.nodes ≡ self.old.nodes }
    {
        let number = self.names.len();
        if number >= u32::MAX as usize {
            return Err(NoMemory);
        }
        self.names.push(name)?;
        Ok(number as u32)
    }
}

/// A name with the same bytes.
pub fn copy_of(alloc: Global, name: &Name) -> Result<Name, NoMemory>
    ensures value { IfOk result (λ copy. copy ≡ name.now) }
    ensures name { IfOk result IsNameOrWord }
{
    match Name::new(alloc, name.bytes()) {
        Ok(copy) => Ok(copy),
        Err(_) => Err(NoMemory),
    }
}

// The same types.
fn copy_types(alloc: Global, types: &[Ty]) -> Result<Vec<Ty>, NoMemory>
    ensures { IfOk result (λ copies. map type_of copies.items ≡ map type_of types.now) }
{
    let mut copies = Vec::new(alloc);
    for ty in types {
        copies.push(copy(alloc, ty)?)?;
    }
    Ok(copies)
}

// The same names.
fn copy_names(alloc: Global, names: &[Name]) -> Result<Vec<Name>, NoMemory>
    ensures { IfOk result (λ copies. copies.items ≡ names.now) }
{
    let mut copies = Vec::new(alloc);
    for name in names {
        copies.push(copy_of(alloc, name)?)?;
    }
    Ok(copies)
}

// The same nodes.
fn copy_nodes(alloc: Global, nodes: &[Node]) -> Result<Vec<Node>, NoMemory>
    ensures { IfOk result (λ copies. copies.items ≡ nodes.now) }
{
    let mut copies = Vec::new(alloc);
    for node in nodes {
        copies.push(*node)?;
    }
    Ok(copies)
}
