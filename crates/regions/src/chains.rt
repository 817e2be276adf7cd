// The transitions of each event as a chain of positions: the first of the event, and after each the next.
ghost use Rattle.std.specs.Prelude.{◌≡◌, ℕ, ◌<◌, ◌≤◌, length, replicate};
ghost use Rattle.rows.specs.Told.{entry};
ghost use Rattle.regions.specs.Indexed.{Indexed};

use model::MAX_EVENTS;
use rows::Tables;

// For each event the first of its transitions, and for each transition the next of its event; their count where there is none.
#[derive(Clone, Copy)]
pub struct Chains<'a> {
    pub first: &'a [u16; MAX_EVENTS],
    pub next: &'a [u16],
}

impl Chains<'_> {
    // The first transition of event e.
    pub fn begin(self, e: usize) -> usize
        requires { e < 64 }
        ensures { result ≡ entry self.entry.first.now e }
    {
        usize::from(self.first[e])
    }

    // The transition after k of the same event.
    pub fn after(self, k: usize) -> usize
        requires { k < length self.next.now }
        ensures { result ≡ entry self.entry.next.now k }
    {
        usize::from(self.next[k])
    }
}

// The chains of the transitions. No event has one yet in the row of firsts before.
pub fn index_by_event(plan: &Tables, first: &mut [u16; MAX_EVENTS], next: &mut [u16])
    requires n_bound { let p = plan.now in (p.counts.transitions ≤ 1024) × ((k : ℕ) → k < p.counts.transitions → entry p.event k < 64) }
    requires first_value { (first.old ≡ replicate 64 plan.now.counts.transitions) × (plan.now.counts.transitions ≤ length next.old) }
    ensures { Indexed plan.now.event plan.now.counts.transitions first.new next.new }
{
    for k in (0..plan.counts.transitions).rev() {
        let e = usize::from(plan.event[k]);
        next[k] = first[e];
        first[e] = k as u16;
    }
}
