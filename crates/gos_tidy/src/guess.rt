// Which nets show the same: a guess, which is checked afterwards (`merge.rt`).
//
// At first each net is a class of its own. Cells are looked at one by one, as they read by classes: one that is short goes
// to the class that it shows, and one that another net's cell is read as goes to that net's class. Where two classes
// become one, the cells that name a net of the smaller one are looked at again, and all that name the class where it
// becomes known to be a constant. This goes through registers too.
use crate::classes::{Classes, Form, Known, Rules, same_known};
use crate::renaming::entry;
use crate::shape::{same_cell, shape_of};
use crate::slots::{Slot, Slots, spread, tag_of};
use crate::users::Users;
use gos_netlist::{Cell, Gate, NetId};
use gos_types::NoMemory;
use std::alloc::Global;

// Where the search stands.
#[derive(Debug, Drop)]
struct Guess {
    classes: Classes,
    users: Users,
    // The nets of a class in a ring, each with the next one.
    ring: Vec<u32>,
    // How many cells are looked at again where a class goes to another one, and its nets.
    weight: Vec<u32>,
    slots: Slots,
    // The nets whose cells are to be looked at, and whether a net is among them.
    todo: Vec<u32>,
    waits: Vec<bool>,
}

// How often a cell is looked at at most, on average.
const LOOKS: usize = 64;

// A class for each net of these cells, which can be evaluated in this order.
pub(crate) fn guessed(
    alloc: Global,
    cells: &[Cell],
    order: &[NetId],
    rules: Rules,
) -> Result<Classes, NoMemory> {
    let mut guess = Guess::new(alloc, cells, order, rules)?;
    for _ in 0..cells.len().saturating_mul(LOOKS) {
        let Some(net) = guess.todo.pop() else {
            break;
        };
        guess.look(cells, net)?;
    }
    Ok(guess.classes)
}

// Writes a number of a table, where it has the place.
fn put(table: &mut [u32], place: u32, number: u32) {
    if (place as usize) < table.len() {
        table[place as usize] = number;
    }
}

// The nets whose cells are looked at first, the last one first: all in this order but inputs, and registers behind the others.
fn first_looks(alloc: Global, cells: &[Cell], order: &[NetId]) -> Result<Vec<u32>, NoMemory> {
    let mut todo = Vec::with_capacity(alloc, cells.len())?;
    for net in order {
        if is_register(cells, *net) {
            todo.push(net.0)?;
        }
    }
    for net in order.iter().rev() {
        if is_computed(cells, *net) {
            todo.push(net.0)?;
        }
    }
    Ok(todo)
}

fn is_register(cells: &[Cell], net: NetId) -> bool {
    match cells.get(net.0 as usize) {
        Some(cell) => matches!(cell.gate, Gate::Reg(_)),
        None => false,
    }
}

fn is_computed(cells: &[Cell], net: NetId) -> bool {
    match cells.get(net.0 as usize) {
        Some(cell) => !matches!(cell.gate, Gate::Reg(_) | Gate::Input),
        None => false,
    }
}

impl Guess {
    // Where nothing has been looked at.
    fn new(
        alloc: Global,
        cells: &[Cell],
        order: &[NetId],
        rules: Rules,
    ) -> Result<Guess, NoMemory> {
        let count = cells.len();
        let classes = Classes::new(alloc, count, rules)?;
        let users = Users::new(alloc, cells)?;
        let mut ring = Vec::with_capacity(alloc, count)?;
        let mut weight = Vec::with_capacity(alloc, count)?;
        for net in classes.class.iter() {
            ring.push(*net)?;
            weight.push(users.count(*net).saturating_add(1))?;
        }
        Ok(Guess {
            classes,
            users,
            ring,
            weight,
            slots: Slots::new(alloc, count)?,
            todo: first_looks(alloc, cells, order)?,
            waits: vec![in alloc; true; count]?,
        })
    }

    // Looks at the cell of a net.
    fn look(&mut self, cells: &[Cell], net: u32) -> Result<(), NoMemory> {
        if self.slots.is_full() {
            self.file_anew(cells)?;
        }
        let place = net as usize;
        if place >= cells.len() || place >= self.waits.len() {
            return Ok(());
        }
        self.waits[place] = false;
        self.read(cells, net, &cells[place])
    }

    // Puts all nets whose cells don't wait to be looked at into an empty table.
    fn file_anew(&mut self, cells: &[Cell]) -> Result<(), NoMemory> {
        self.slots.clear();
        let mut net = 0u32;
        for cell in cells {
            let place = net as usize;
            if place < self.waits.len() && !self.waits[place] {
                self.read(cells, net, cell)?;
            }
            net = net.wrapping_add(1);
        }
        Ok(())
    }

    // Puts a net, whose cell this is, into the class that it shows, or into that of a net whose cell is read as the same.
    fn read(&mut self, cells: &[Cell], net: u32, cell: &Cell) -> Result<(), NoMemory> {
        match self.classes.form(cell) {
            Form::Short(class) => {
                let own = self.classes.of(net);
                self.join(own, class.0)
            }
            Form::Whole(whole) => self.file(cells, net, whole),
        }
    }

    // Puts a net into the class of one whose cell is read as the same, or into the table where there is none.
    fn file(&mut self, cells: &[Cell], net: u32, whole: Cell) -> Result<(), NoMemory> {
        let spread = spread(&shape_of(&whole));
        let tag = tag_of(spread);
        let mut place = self.slots.first_place(spread);
        for _ in 0..self.slots.len() {
            match self.slots.at(place) {
                Slot::Free => {
                    self.slots.put(place, net, tag);
                    return self.learn(net, whole);
                }
                Slot::Taken {
                    net: other,
                    tag: held,
                } => {
                    if held == tag && other == net {
                        return self.learn(net, whole);
                    }
                    if held == tag && self.is_read_as(cells, other, &whole) {
                        let own = self.classes.of(net);
                        let class = self.classes.of(other);
                        return self.unite(own, class);
                    }
                }
            }
            place = self.slots.next_place(place);
        }
        Ok(())
    }

    // Whether the cell of a net is read as this one.
    fn is_read_as(&self, cells: &[Cell], net: u32, whole: &Cell) -> bool {
        match cells.get(net as usize) {
            Some(cell) => match self.classes.form(cell) {
                Form::Whole(other) => same_cell(&other, whole),
                Form::Short(_) => false,
            },
            None => false,
        }
    }

    // Notes what the class of a net is known for, whose cell is read as this one.
    fn learn(&mut self, net: u32, whole: Cell) -> Result<(), NoMemory> {
        let class = self.classes.of(net);
        if self.classes.learn(class, whole) {
            self.wake(class)?;
        }
        Ok(())
    }

    // Makes a class one with another one that it shows. Of both, what is known of the other one stays true of the merged cells.
    fn join(&mut self, own: u32, class: u32) -> Result<(), NoMemory> {
        if own == class {
            return Ok(());
        }
        let known = self.classes.known_of(NetId(class));
        if !same_known(self.classes.known_of(NetId(own)), known) {
            self.wake(own)?;
            self.classes.know(own, known);
        }
        self.unite(own, class)
    }

    // Makes two classes one: the one of less weight goes to the other.
    fn unite(&mut self, a: u32, b: u32) -> Result<(), NoMemory> {
        if a == b {
            return Ok(());
        }
        if entry(&self.weight, a) > entry(&self.weight, b) {
            self.go_to(b, a)
        } else {
            self.go_to(a, b)
        }
    }

    // Puts the nets of a class into another one.
    fn go_to(&mut self, from: u32, to: u32) -> Result<(), NoMemory> {
        self.wake(from)?;
        let known = self.classes.known_of(NetId(from));
        if self.classes.is_news(to, known) {
            self.wake(to)?;
            self.classes.know(to, known);
        }
        let mut net = from;
        for _ in 0..self.ring.len() {
            put(&mut self.classes.class, net, to);
            net = entry(&self.ring, net);
            if net == from {
                break;
            }
        }
        let next = entry(&self.ring, from);
        let other = entry(&self.ring, to);
        put(&mut self.ring, from, other);
        put(&mut self.ring, to, next);
        let weight = entry(&self.weight, from).saturating_add(entry(&self.weight, to));
        put(&mut self.weight, to, weight);
        Ok(())
    }

    // Has all cells looked at that name a net of the class.
    fn wake(&mut self, class: u32) -> Result<(), NoMemory> {
        let mut net = class;
        for _ in 0..self.ring.len() {
            self.wake_users(net)?;
            net = entry(&self.ring, net);
            if net == class {
                break;
            }
        }
        Ok(())
    }

    // Has the cells looked at that name the net.
    fn wake_users(&mut self, net: u32) -> Result<(), NoMemory> {
        for user in self.users.of(net) {
            let place = *user as usize;
            if place < self.waits.len() && !self.waits[place] {
                self.waits[place] = true;
                self.todo.push(*user)?;
            }
        }
        Ok(())
    }
}
