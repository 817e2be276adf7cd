// Which places of a machine bar each other: merged, they would leave an event unheld or open. Let the open states of an event, for a machine, be those common to its
// pre-places on the other machines and outside its excitation set. If it has any, it bars its pre-place from its post-place and from each place with one of them. (An event
// on no other machine has open states: those of its post-place.)
ghost use Rattle.std.specs.Prelude.{◌≡◌, ℕ, suc, ◌+◌, ◌*◌, ◌<◌, ◌≤◌, length};
ghost use Rattle.state_set.specs.Member.{member};
ghost use Rattle.merging.specs.Bars.{Full, Extends, Later, have_in_common, Paired, MetPaired, open_in, seen_by, SeenSizes, EventPaired, Barring, Ends};

use crate::bar_rows::{BarRows, WORDS};
use closure::meet_pre;
use model::{MAX_MACHINES, MAX_PLACES};
use rows::MOVES;
use state_set::{StateSet, insert, load, lowest, meet, store, without};

// The states common to the pre-places of each event on the machines after m, from those on the machines after m + 1. `irredundant` goes the other way: one function for both
// would also take where a set is read, where it is stored and which machine is met, which is no plainer.
fn extend(sets: &[u64], pre: &[u8; MOVES], m: usize, events: usize, later: &mut [u64])
    requires { (m < 15) × (events ≤ 64) × (m * 256 + 512 ≤ length sets.now) × (events * 64 ≤ length later.old) }
    ensures { Extends sets.now pre.now m events later.old later.new }
{
    for e in 0..events {
        let at = e * MAX_MACHINES + m;
        let common = load(later, at + 1);
        store(later, at, meet_pre(common, sets, pre, m + 1, e));
    }
}

// At e * 16 + k the states common to the pre-places of event e on the machines after k.
pub fn meet_later(
    sets: &[u64],
    pre: &[u8; MOVES],
    machines: usize,
    events: usize,
    later: &mut [u64],
)
    requires { (machines ≤ 16) × (events ≤ 64) × (machines * 256 ≤ length sets.now) × (events * 64 ≤ length later.old) × Full events later.old }
    ensures { Later sets.now pre.now machines events (length later.old) later.new }
{
    for m in (1..machines).rev() {
        extend(sets, pre, m - 1, events, later);
    }
}

// Two sets have a state in common.
fn have_in_common(a: StateSet, b: StateSet) -> bool
    ensures { result ≡ have_in_common (member a) (member b) }
{
    lowest(meet(a, b)).is_some()
}

// Places p and q bar each other.
fn bar(p: u8, q: u8, bars: &mut [u64; WORDS])
    requires { (p < 64) × (q < 64) }
    ensures { Paired p q bars.old bars.new }
{
    insert(bars, usize::from(p), q);
    insert(bars, usize::from(q), p);
}

impl BarRows<'_> {
    // Place p and each place of the machine that has one of these states bar each other.
    fn bar_met(&self, states: StateSet, p: u8, bars: &mut [u64; WORDS])
        requires { (self.now.m * 256 + 256 ≤ length self.now.sets.now) × (p < 64) }
        ensures { MetPaired self.now.sets.now self.now.m self.now.size (member states) p bars.old bars.new }
    {
        for q in 0..self.size {
            if have_in_common(states, load(self.sets, self.m * MAX_PLACES + q)) {
                bar(p, q as u8, bars);
            }
        }
    }

    // The open states of event e for the machine.
    fn open_states(&self, e: usize) -> StateSet
        requires { (e < 64) × SeenSizes (suc self.now.m) (suc e) (seen_by self.now) }
        ensures { (i : ℕ) → member result i ≡ open_in self.now.earlier.now self.now.later.now self.now.excited.now self.now.m e i }
    {
        let (earlier, excited) = (self.earlier, self.excited);
        let common = meet(
            load(earlier, e),
            load(self.later, e * MAX_MACHINES + self.m),
        );
        without(common, load(excited, e))
    }

    // What event e bars on the machine.
    fn bar_event(&self, e: usize, bars: &mut [u64; WORDS])
        requires e_bound { e < 64 }
        requires seen_sizes { SeenSizes (suc self.now.m) (suc e) (seen_by self.now) × Ends (suc self.now.m) (suc e) self.now.moves.now.pre self.now.moves.now.post }
        ensures { EventPaired (seen_by self.now) self.now.m self.now.size e bars.old bars.new }
    {
        let at = e * MAX_MACHINES + self.m;
        let p = self.moves.pre[at];
        if usize::from(p) < MAX_PLACES {
            let open = self.open_states(e);
            if lowest(open).is_some() {
                bar(p, self.moves.post[at], bars);
                self.bar_met(open, p, bars);
            }
        }
    }

    // Which of the places of the machine bar each other, in a row of empty sets.
    pub fn bar_places(&self, bars: &mut [u64; WORDS])
        requires empty { Barring (seen_by self.now) self.now.m self.now.size 0 bars.old }
        requires seen_sizes { SeenSizes (suc self.now.m) self.now.events (seen_by self.now) × Ends (suc self.now.m) self.now.events self.now.moves.now.pre self.now.moves.now.post }
        ensures { Barring (seen_by self.now) self.now.m self.now.size self.now.events bars.new }
    {
        for e in 0..self.events {
            self.bar_event(e, bars);
        }
    }
}
