// How the values of the nets came about, and what is kept of those before them.
ghost use Rattle.std.specs.Prelude.{◌≡◌, ◌≢◌, ℕ, ◌<◌, All, IsTrue, IsFalse, length};
ghost use Rattle.gos_netlist.specs.Settling.{at};
ghost use Rattle.gos_sim.specs.inner.Past.{is_few, is_rest, past_after};
ghost use Rattle.gos_sim.specs.inner.Active.{Lacks};

use crate::course::Course;
use crate::log::Log;
use crate::word::Word;
use crate::words::Words;
use std::mem::swap;

/// How the values of the nets came about.
#[derive(Clone, Copy)]
pub enum Past {
    /// By no cycle: all registers and inputs are 0.
    Reset,
    /// By the first cycle.
    First,
    /// By a later one, from those before them.
    Later,
    /// The last cycle left them as they were.
    Still,
}

impl Past {
    // After a cycle.
    pub fn after(self, course: Course) -> Past
        ensures { result ≡ past_after self (is_rest course) }
    {
        match (course, self) {
            (Course::Rest, _) => Past::Still,
            (Course::Few | Course::All, Past::Reset) => Past::First,
            (Course::Few | Course::All, Past::First | Past::Later | Past::Still) => Past::Later,
        }
    }
}

// Makes the values those before: they are copied where few will change, and else give room for new ones. Where no new ones come,
// both are left.
pub fn turn<W: Word>(values: &mut Words<W>, before: &mut Words<W>, touched: &Log, course: Course)
    requires same { length before.old ≡ length values.old }
    requires within { All (λ p. p < length values.old) touched.now.places.items }
    requires noted { IsTrue (is_few course) → (p : ℕ) → Lacks touched.now p → at before.old p ≡ at values.old p }
    ensures rest { IsTrue (is_rest course) → values.new ≡ values.old }
    ensures left { IsTrue (is_rest course) → before.new ≡ before.old }
    ensures few { IsTrue (is_few course) → values.new ≡ values.old }
    ensures turned { IsFalse (is_rest course) → before.new ≡ values.old }
    ensures each { length values.new ≡ length values.old }
    ensures kept { length before.new ≡ length values.old }
{
    match course {
        Course::Rest => {}
        Course::Few => keep(touched, values, before),
        Course::All => swap(values, before),
    }
}

// Copies values. Those that aren't noted are the same.
fn keep<W: Word>(touched: &Log, values: &Words<W>, before: &mut Words<W>)
    requires same { length before.old ≡ length values.now }
    requires within { All (λ p. p < length values.now) touched.now.places.items }
    requires noted { (p : ℕ) → Lacks touched.now p → at before.old p ≡ at values.now p }
    ensures { before.new ≡ values.now }
{
    if touched.full {
        before.copy_from(values);
    } else {
        keep_noted(&touched.places, values, before);
    }
}

// Copies the values of some places. All others are the same.
fn keep_noted<W: Word>(places: &[u32], values: &Words<W>, before: &mut Words<W>)
    requires same { length before.old ≡ length values.now }
    requires within { All (λ p. p < length values.now) places.now }
    requires noted { (p : ℕ) → All (λ q. q ≢ p) places.now → at before.old p ≡ at values.now p }
    ensures { before.new ≡ values.now }
{
    for place in places {
        before.set(*place as usize, values.get(*place as usize));
    }
}
