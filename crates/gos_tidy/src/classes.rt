// Classes of nets that show the same, and cells as they are read by classes. Nothing here is trusted: what comes of it is
// checked (`merge.rt`).
use crate::constants::{operands, value};
use crate::renaming::{entry, renamed_cell};
use gos_netlist::{Cell, Gate, NetId};
use gos_types::{GREATEST_WIDTH, NoMemory};
use std::alloc::Global;

// What is known of the nets of a class.
#[derive(Debug, Clone, Copy)]
pub(crate) enum Known {
    Nothing,
    // They show this number for ever.
    Number(u64),
    // They show the complement of this class.
    Complement(NetId),
    // They show the Xor of these classes.
    Mixed(NetId, NetId),
}

// Which gates are read as a net by what their own nets show.
#[derive(Debug, Clone, Copy)]
pub(crate) enum Rules {
    // A Not of a Not, and a Xor of a Xor: what the other gate shows may be known for a while alone.
    All,
    // Neither. So a gate that is read as a net stays so.
    Fewer,
}

// What a cell is, read by classes.
#[derive(Debug, Clone, Copy)]
pub(crate) enum Form {
    // It shows what this class shows.
    Short(NetId),
    // It is this cell, whose nets are classes.
    Whole(Cell),
}

// The classes of the nets of a netlist. A class goes by one of its nets.
#[derive(Debug, Drop)]
pub(crate) struct Classes {
    // The class of each net.
    pub(crate) class: Vec<u32>,
    // What is known of each class.
    pub(crate) known: Vec<Known>,
    pub(crate) rules: Rules,
}

impl Classes {
    // Of so many nets, each in a class of its own.
    pub(crate) fn new(alloc: Global, count: usize, rules: Rules) -> Result<Classes, NoMemory> {
        let mut class = Vec::with_capacity(alloc, count)?;
        let mut next = 0u32;
        for _ in 0..count {
            class.push(next)?;
            next = next.wrapping_add(1);
        }
        let known = vec![in alloc; Known::Nothing; count]?;
        Ok(Classes {
            class,
            known,
            rules,
        })
    }

    // The class of a net.
    pub(crate) fn of(&self, net: u32) -> u32 {
        entry(&self.class, net)
    }

    // What is known of a class.
    pub(crate) fn known_of(&self, class: NetId) -> Known {
        match self.known.get(class.0 as usize) {
            Some(known) => *known,
            None => Known::Nothing,
        }
    }

    // The number that a class shows for ever.
    fn number(&self, class: NetId) -> Option<u64> {
        match self.known_of(class) {
            Known::Number(k) => Some(k),
            _ => None,
        }
    }

    // What a gate of classes shows, where all its nets are constants.
    fn folded(&self, width: u32, gate: Gate) -> Option<u64> {
        if width > GREATEST_WIDTH {
            return None;
        }
        let (first, second, third) = operands(gate)?;
        let a = self.number(first)?;
        let b = self.number(second)?;
        let c = self.number(third)?;
        Some(value(width, gate, a, b, c))
    }

    // What a cell is, read by classes.
    pub(crate) fn form(&self, cell: &Cell) -> Form {
        let width = cell.width;
        let whole = renamed_cell(&self.class, cell);
        if let Some(k) = self.folded(width, whole.gate) {
            return Form::Whole(Cell {
                width,
                gate: Gate::Const(k),
            });
        }
        match whole.gate {
            Gate::Not(a) => match self.known_of(a) {
                Known::Complement(b) => Form::Short(NetId(self.of(b.0))),
                _ => Form::Whole(whole),
            },
            Gate::And(a, b) | Gate::Or(a, b) if a.0 == b.0 => Form::Short(a),
            Gate::Xor(a, b) => match self.rest(b, a) {
                Some(rest) => Form::Short(rest),
                None => match self.rest(a, b) {
                    Some(rest) => Form::Short(rest),
                    None => Form::Whole(whole),
                },
            },
            Gate::Mux(s, a, b) => match self.number(s) {
                Some(1) => Form::Short(a),
                Some(_) => Form::Short(b),
                None => Form::Whole(whole),
            },
            Gate::Gate(s, a) => match self.number(s) {
                Some(1) => Form::Short(a),
                Some(_) => Form::Whole(Cell {
                    width,
                    gate: Gate::Const(0),
                }),
                None => Form::Whole(whole),
            },
            _ => Form::Whole(whole),
        }
    }

    // The class whose Xor with another one a class is known to show.
    fn rest(&self, class: NetId, other: NetId) -> Option<NetId> {
        match self.known_of(class) {
            Known::Mixed(a, b) => {
                let first = self.of(a.0);
                let second = self.of(b.0);
                if first == other.0 {
                    Some(NetId(second))
                } else if second == other.0 {
                    Some(NetId(first))
                } else {
                    None
                }
            }
            _ => None,
        }
    }

    // Whether it says more of a class than what is known of it: also where it says the same by classes that others went to.
    pub(crate) fn is_news(&self, class: u32, known: Known) -> bool {
        match (self.known_of(NetId(class)), known) {
            (Known::Nothing, Known::Nothing) => false,
            (Known::Nothing, _) => true,
            (Known::Complement(_) | Known::Mixed(_, _), Known::Number(_)) => true,
            (Known::Mixed(a, b), Known::Mixed(c, d)) => {
                (a.0 != c.0 || b.0 != d.0) && self.of(a.0) == c.0 && self.of(b.0) == d.0
            }
            _ => false,
        }
    }

    // Notes what is known of a class.
    pub(crate) fn know(&mut self, class: u32, known: Known) {
        if (class as usize) < self.known.len() {
            self.known[class as usize] = known;
        }
    }

    // Notes what the class of a net is known for, whose cell this is.
    pub(crate) fn learn_cell(&mut self, net: u32, cell: &Cell) {
        if let Form::Whole(whole) = self.form(cell) {
            let class = self.of(net);
            let _ = self.learn(class, whole);
        }
    }

    // Notes what a class is known for, where one of its nets is this cell. Says whether that is new.
    pub(crate) fn learn(&mut self, class: u32, whole: Cell) -> bool {
        let known = known_by(self.rules, whole.gate);
        let news = self.is_news(class, known);
        if news {
            self.know(class, known);
        }
        news
    }
}

// What is known of a net whose cell has this gate.
fn known_by(rules: Rules, gate: Gate) -> Known {
    match (rules, gate) {
        (_, Gate::Const(k)) => Known::Number(k),
        (Rules::All, Gate::Not(a)) => Known::Complement(a),
        (Rules::All, Gate::Xor(a, b)) => Known::Mixed(a, b),
        _ => Known::Nothing,
    }
}

// Whether the same is known.
pub(crate) fn same_known(one: Known, other: Known) -> bool {
    match (one, other) {
        (Known::Nothing, Known::Nothing) => true,
        (Known::Number(a), Known::Number(b)) => a == b,
        (Known::Complement(a), Known::Complement(b)) => a.0 == b.0,
        (Known::Mixed(a, b), Known::Mixed(c, d)) => a.0 == c.0 && b.0 == d.0,
        _ => false,
    }
}
