// Ways down a term, and what stands around a place.
ghost use Rattle.std.specs.Prelude.{◌≡◌, ◌<◌, ◌≤◌, ℕ, length, None, Some, IfOk, MatchOption, if◌then◌else◌};
ghost use Rattle.gos_model.specs.Terms.{Term, If};
ghost use Rattle.gos_witness.specs.NodeLists.{Fits, Listed, Tables, one_term, seen, shape, two_term};
ghost use Rattle.gos_witness.specs.inner.Keeping.{Keeps};
ghost use Rattle.gos_witness.specs.inner.Places.{AreFrames, EntersAt, FitsFrame, IsAccess, IsPlace, argument, aside, child, ended, fill, index, own, pair, part_at, plug, reached, under};

use crate::nodes::{Form, NodeList, OnePart, TwoParts};
use crate::reading_nodes::{Access, access_of};
use gos_types::NoMemory;
use std::alloc::Global;

/// What may stand at a place on a way down.
#[derive(Clone, Copy)]
pub enum Zone {
    /// A reached place.
    Reached,
    /// A reached place or a head.
    Head,
    /// A head below another one.
    Under,
    /// The access of a read or a write, on the way to its index.
    Access,
    /// The same, or a head.
    Aside,
    /// The pair of an access, on the way to its index, which is a reached place.
    Pair,
    /// The same, and the index is a reached place or a head.
    HeadPair,
}

/// A form with one part left out, the others by their numbers.
#[derive(Clone, Copy)]
pub enum Frame {
    /// The only part.
    One(OnePart),
    /// The first of two.
    First(TwoParts, u32),
    /// The second of two.
    Second(TwoParts, u32),
    /// The test of a choice.
    Test(u32, u32),
}

/// A place: what stands around it, the outermost first, and the node there.
#[derive(Drop)]
pub struct Place {
    pub frames: Vec<Frame>,
    pub node: u32,
}

// One step down: in which zone it leads, what stands around, and the part.
#[derive(Clone, Copy)]
struct Entered {
    zone: Zone,
    frame: Frame,
    part: u32,
}

impl Zone {
    // Where a part that a running term reaches lies.
    fn reached(self) -> Option<Zone>
        ensures { MatchOption result ((m : Term) → reached self m ≡ None) (λ zone. (m : Term) → reached self m ≡ Some (zone, m)) }
    {
        match self {
            Zone::Reached | Zone::Head => Some(self),
            _ => None,
        }
    }

    // Where the function part of a head lies.
    fn under(self) -> Option<Zone>
        ensures { MatchOption result ((m : Term) → under self m ≡ None) (λ zone. (m : Term) → under self m ≡ Some (zone, m)) }
    {
        match self {
            Zone::Head | Zone::Under | Zone::Aside => Some(Zone::Under),
            _ => None,
        }
    }

    // Where a variable that is read or written lies.
    fn aside(self) -> Option<Zone>
        ensures { MatchOption result ((m : Term) → aside self m ≡ None) (λ zone. (m : Term) → aside self m ≡ Some (zone, m)) }
    {
        match self {
            Zone::Reached => Some(Zone::Access),
            Zone::Head => Some(Zone::Aside),
            _ => None,
        }
    }

    // Where the argument of a port's access lies whose index is reached.
    fn pair(self) -> Option<Zone>
        ensures { MatchOption result ((m : Term) → pair self m ≡ None) (λ zone. (m : Term) → pair self m ≡ Some (zone, m)) }
    {
        match self {
            Zone::Access => Some(Zone::Pair),
            Zone::Aside => Some(Zone::HeadPair),
            _ => None,
        }
    }

    // Where the index of an access of an array lies.
    fn own(self) -> Option<Zone>
        ensures { MatchOption result ((m : Term) → own self m ≡ None) (λ zone. (m : Term) → own self m ≡ Some (zone, m)) }
    {
        match self {
            Zone::Access => Some(Zone::Reached),
            Zone::Aside => Some(Zone::Head),
            _ => None,
        }
    }

    // Where the argument of an application lies.
    fn argument(self, access: Access) -> Option<Zone>
        ensures { MatchOption result ((m n : Term) → IsAccess access m → argument self m n ≡ None)
            (λ zone. (m n : Term) → IsAccess access m → argument self m n ≡ Some (zone, n)) }
    {
        match access {
            Access::No => None,
            Access::Port => self.pair(),
            Access::Array(_) => self.own(),
        }
    }

    // Where the index of a port's access lies, as it is now.
    fn index(self) -> Option<Zone>
        ensures { MatchOption result ((m : Term) → index self m ≡ None) (λ zone. (m : Term) → index self m ≡ Some (zone, m)) }
    {
        match self {
            Zone::Pair => Some(Zone::Reached),
            Zone::HeadPair => Some(Zone::Head),
            _ => None,
        }
    }

    // Whether a way may end here.
    fn is_end(self) -> bool
        ensures { (m : Term) → ended self m ≡ (if result then Some m else None) }
    {
        match self {
            Zone::Access | Zone::Pair | Zone::HeadPair => false,
            _ => true,
        }
    }

    // Where the part of a form of one part lies.
    fn below_one(self, one: OnePart) -> Option<Zone>
        ensures { MatchOption result ((a : Tables) (m : Term) → child self (one_term a one m) 0 ≡ None)
            (λ zone. (a : Tables) (m : Term) → child self (one_term a one m) 0 ≡ Some (zone, m)) }
    {
        match one {
            OnePart::Lam(_) | OnePart::New(_) | OnePart::NewArray { .. } => None,
            OnePart::Fst | OnePart::Snd => self.under(),
            OnePart::Deref | OnePart::Put(_) => self.aside(),
            OnePart::Not | OnePart::Scope(_) | OnePart::Held { .. } => self.reached(),
        }
    }

    // Where the first part of a form of two parts lies.
    fn below_first(self, two: TwoParts) -> Option<Zone>
        ensures { MatchOption result ((m n : Term) → child self (two_term two m n) 0 ≡ None)
            (λ zone. (m n : Term) → child self (two_term two m n) 0 ≡ Some (zone, m)) }
    {
        match two {
            TwoParts::App => self.under(),
            TwoParts::Both | TwoParts::While | TwoParts::Assign => None,
            TwoParts::Seq | TwoParts::Par | TwoParts::Bin(_) => self.reached(),
        }
    }

    // Where the second part of a form of two parts lies. That of an application does only in an access whose index is reached.
    fn below_second(self, two: TwoParts, access: Access) -> Option<Zone>
        ensures { MatchOption result ((m n : Term) → IsAccess access m → child self (two_term two m n) 1 ≡ None)
            (λ zone. (m n : Term) → IsAccess access m → child self (two_term two m n) 1 ≡ Some (zone, n)) }
    {
        match two {
            TwoParts::Par | TwoParts::Assign => self.reached(),
            TwoParts::App => self.argument(access),
            TwoParts::Both => self.index(),
            TwoParts::Seq | TwoParts::While | TwoParts::Bin(_) => None,
        }
    }

    // One step down from a form to a child.
    fn enter(self, list: &NodeList, form: Form, number: u8) -> Option<Entered>
        requires { Fits list.now.tables (length list.now.nodes) form }
        ensures { MatchOption result (child self (shape list.now form) number ≡ None) (EntersAt list.now self number form) }
    {
        match form {
            Form::Leaf(_) => None,
            Form::One(one, part) => self.enter_one(one, part, number),
            Form::Two(two, first, second) => self.enter_two(list, two, first, second, number),
            Form::If(part, yes, no) => self.enter_test(part, yes, no, number),
        }
    }

    // One step down from a form of one part.
    fn enter_one(self, one: OnePart, part: u32, number: u8) -> Option<Entered>
        ensures { (l : Listed) → MatchOption result (child self (shape l (Form.One one part)) number ≡ None) (EntersAt l self number (Form.One one part)) }
    {
        if number > 0 {
            return None;
        }
        let zone = self.below_one(one)?;
        let frame = Frame::One(one);
        Some(Entered { zone, frame, part })
    }

    // One step down from a choice to its test.
    fn enter_test(self, part: u32, yes: u32, no: u32, number: u8) -> Option<Entered>
        ensures { (l : Listed) → MatchOption result (child self (shape l (Form.If part yes no)) number ≡ None) (EntersAt l self number (Form.If part yes no)) }
    {
        if number > 0 {
            return None;
        }
        let zone = self.reached()?;
        let frame = Frame::Test(yes, no);
        Some(Entered { zone, frame, part })
    }

    // One step down from a form of two parts to a child.
    fn enter_two(
        self,
        list: &NodeList,
        two: TwoParts,
        first: u32,
        second: u32,
        number: u8,
    ) -> Option<Entered>
        requires { first < length list.now.nodes }
        ensures { MatchOption result (child self (shape list.now (Form.Two two first second)) number ≡ None)
            (EntersAt list.now self number (Form.Two two first second)) }
    {
        match number {
            0 => {
                let zone = self.below_first(two)?;
                let frame = Frame::First(two, second);
                Some(Entered {
                    zone,
                    frame,
                    part: first,
                })
            }
            1 => {
                let zone = self.below_second(two, access_of(list, first))?;
                let frame = Frame::Second(two, first);
                Some(Entered {
                    zone,
                    frame,
                    part: second,
                })
            }
            _ => None,
        }
    }
}

impl Frame {
    // The form with a part put in.
    fn form(self, part: u32) -> Form
        ensures shape { (l : Listed) → shape l result ≡ fill l self (seen l part) }
        ensures fits { (l : Listed) (i : ℕ) → FitsFrame l.tables i self → part < i → Fits l.tables i result }
    {
        match self {
            Frame::One(one) => Form::One(one, part),
            Frame::First(two, other) => Form::Two(two, part, other),
            Frame::Second(two, other) => Form::Two(two, other, part),
            Frame::Test(yes, no) => Form::If(part, yes, no),
        }
    }
}

/// The place to which a way leads from a node, if it leads to one.
pub fn walk(
    alloc: Global,
    list: &NodeList,
    root: u32,
    start: Zone,
    steps: &[u8],
) -> Result<Option<Place>, NoMemory>
    requires { root < length list.now.nodes }
    ensures place { IfOk result (λ found. MatchOption found (part_at start steps.now (seen list.now root) ≡ None)
        (IsPlace list.now root start steps.now)) }
{
    let mut frames = Vec::new(alloc);
    let mut zone = start;
    let mut node = root;
    for step in steps {
        let Some(entered) = zone.enter(list, list.node(node).form, *step) else {
            return Ok(None);
        };
        zone = entered.zone;
        frames.push(entered.frame)?;
        node = entered.part;
    }
    if !zone.is_end() {
        return Ok(None);
    }
    Ok(Some(Place { frames, node }))
}

/// Puts a node into a place, and gives the number of the whole.
pub fn rebuild(list: &mut NodeList, frames: Vec<Frame>, part: u32) -> Result<u32, NoMemory>
    requires part { part < length list.old.nodes }
    requires frames { AreFrames list.old.tables (length list.old.nodes) frames.items }
    ensures term { IfOk result (λ whole. seen list.new whole ≡ plug list.old frames.items (seen list.old part)) }
    ensures there { IfOk result (λ whole. whole < length list.new.nodes) }
    ensures keeps { Keeps list.old list.new }
{
    let mut frames = frames;
    let mut whole = part;
    while let Some(frame) = frames.pop() {
        whole = list.push(frame.form(whole))?;
    }
    Ok(whole)
}
