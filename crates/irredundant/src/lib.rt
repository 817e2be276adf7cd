// Thin: which machines are kept.
#![tactic(auto)]

ghost use Rattle.std.specs.Prelude.{◌≡◌, ◌*◌, ◌+◌, ◌<◌, ◌≤◌, length};
ghost use Rattle.closure.specs.Covers.{CountsBounded, PlaceSets};
ghost use Rattle.irredundant.specs.Kept.{Sizes, Extends, AllStates, Below, Adds, covered_without, redundant, ThinsBySets, Thins};

use closure::{
    FEW_MACHINES, FEW_PLACE_WORDS, PLACE_WORDS, check_cover_in, is_effective, is_on, meet_pre,
};
use model::{MAX_EVENTS, MAX_MACHINES, Refusal};
use rows::{MOVES, Tables};
use state_set::{FULL_WORD, load, lowest, meet, store, without};
use transition_system::EXCITATION_WORDS;

// The machines that are kept, bit i for machine i, and how many they are.
#[derive(Clone, Copy)]
pub struct Kept {
    pub machines: u16,
    pub size: usize,
}

// The machines as the rows tell them: how many they and the events are, the places as sets, the pre-places, and the excitation sets.
#[derive(Clone, Copy)]
struct Machines<'a> {
    count: usize,
    events: usize,
    sets: &'a [u64],
    pre: &'a [u8; MOVES],
    excited: &'a [u64; EXCITATION_WORDS],
    ghost few: { count ≤ 16 },
    ghost small: { events ≤ 64 },
}

// The machines kept so far: for each event the states common to its pre-places on them, and whether it is on one of them.
#[derive(Drop)]
struct Above {
    common: [u64; EXCITATION_WORDS],
    on: [bool; MAX_EVENTS],
}

impl Machines<'_> {
    // The states common to the pre-places of each event on the machines before m + 1, from those on the machines before m.
    fn extend(&self, m: usize, below: &mut [u64])
        requires { (m < 15) × Sizes (m + 2) self.now.events self.now.sets.now below.old }
        ensures { Extends self.now.sets.now self.now.pre.now m self.now.events below.old below.new }
    {
        for e in 0..self.events {
            let at = e * MAX_MACHINES + m;
            let common = load(below, at);
            store(below, at + 1, meet_pre(common, self.sets, self.pre, m, e));
        }
    }

    // At e * 16 + k the states common to the pre-places of event e on the machines before k.
    fn meet_below(&self, below: &mut [u64])
        requires sizes { Sizes self.now.count self.now.events self.now.sets.now below.old × AllStates self.now.events below.old }
        ensures { Below self.now.sets.now self.now.pre.now self.now.count self.now.events below.new }
    {
        for m in 1..self.count {
            self.extend(m - 1, below);
        }
    }

    // Machine m is kept: its events are on a kept machine, and only states of its pre-places are common.
    fn add(&self, m: usize, above: &mut Above)
        requires { (m < 16) × (m * 256 + 256 ≤ length self.now.sets.now) }
        ensures { Adds self.now.sets.now self.now.pre.now m self.now.events above.old.common above.old.on above.new.common above.new.on }
    {
        for e in 0..self.events {
            let common = load(&above.common, e);
            store(
                &mut above.common,
                e,
                meet_pre(common, self.sets, self.pre, m, e),
            );
            above.on[e] |= is_on(self.pre, m, e);
        }
    }

    // Event e is on a machine before m or on one after it that is kept, and no state outside its excitation set is common to its pre-places there.
    fn is_covered(&self, below: &[u64], above: &Above, m: usize, e: usize) -> bool
        requires { (m < 16) × (e < 64) × (e * 64 + 64 ≤ length below.now) }
        ensures { result ≡ covered_without self.now.pre.now below.now above.now.common above.now.on self.now.excited.now m e }
    {
        if !above.on[e] && !is_effective(self.pre, m, e) {
            return false;
        }
        let common = meet(load(below, e * MAX_MACHINES + m), load(&above.common, e));
        let excited = self.excited;
        lowest(without(common, load(excited, e))).is_none()
    }

    // Without machine m there are others, and they cover every event.
    fn is_redundant(&self, below: &[u64], above: &Above, others: usize, m: usize) -> bool
        requires { (m < 16) × (self.now.events * 64 ≤ length below.now) }
        ensures { result ≡ redundant self.now.pre.now below.now above.now.common above.now.on self.now.excited.now others m self.now.events }
    {
        0 < others && (0..self.events).all(|e| self.is_covered(below, above, m, e))
    }

    // From the highest machine to the lowest: one that is redundant beside those still kept is dropped.
    fn drop_redundant(&self, below: &[u64]) -> Kept
        requires sizes { Sizes self.now.count self.now.events self.now.sets.now below.now }
        requires below { Below self.now.sets.now self.now.pre.now self.now.count self.now.events below.now }
        ensures { ThinsBySets self.now.pre.now self.now.sets.now self.now.excited.now self.now.count self.now.events result }
    {
        let mut above = Above {
            common: [FULL_WORD; EXCITATION_WORDS],
            on: [false; MAX_EVENTS],
        };
        let mut kept = 0u16;
        let mut size = 0;
        for m in (0..self.count).rev() {
            let others = m + size;
            let stays = !self.is_redundant(below, &above, others, m);
            if stays {
                self.add(m, &mut above);
            }
            kept = kept * 2 + u16::from(stays);
            size += usize::from(stays);
        }
        Kept {
            machines: kept,
            size,
        }
    }
}

// 11 and 12 of all machines, and then what Thin keeps, with two rows that are lent: `sets` for the places as sets, `below` for the states common to pre-places.
fn thin(
    plan: &Tables,
    excited: &[u64; EXCITATION_WORDS],
    pre: &[u8; MOVES],
    sets: &mut [u64],
    below: &mut [u64],
) -> Result<Kept, Refusal>
    requires counts_bounded { CountsBounded plan.now.counts }
    requires sizes { Sizes plan.now.counts.machines plan.now.counts.events sets.old below.old }
    requires rows { PlaceSets plan.now.place plan.now.counts.states (length sets.old) 0 sets.old × AllStates plan.now.counts.events below.old }
    ensures { Thins plan.now.counts pre.now plan.now.place excited.now result }
{
    check_cover_in(plan, excited, pre, sets)?;
    let machines = Machines {
        count: plan.counts.machines,
        events: plan.counts.events,
        sets,
        pre,
        excited,
    };
    machines.meet_below(below);
    Ok(machines.drop_redundant(below))
}

// Rows for so many events at most, of 16 sets each: the fewer the events, the less there is to clear.
const FEW_EVENTS: usize = 4;

const SOME_EVENTS: usize = 16;

// Thin with a row of empty sets that is lent.
fn thin_by_sets(
    plan: &Tables,
    excited: &[u64; EXCITATION_WORDS],
    pre: &[u8; MOVES],
    sets: &mut [u64],
) -> Result<Kept, Refusal>
    requires counts_bounded { CountsBounded plan.now.counts }
    requires machines_in_bounds { (plan.now.counts.machines * 256 ≤ length sets.old) × PlaceSets plan.now.place plan.now.counts.states (length sets.old) 0 sets.old }
    ensures { Thins plan.now.counts pre.now plan.now.place excited.now result }
{
    let events = plan.counts.events;
    if events <= FEW_EVENTS {
        let mut few = [FULL_WORD; 256];
        return thin(plan, excited, pre, sets, &mut few);
    }
    if events <= SOME_EVENTS {
        let mut some = [FULL_WORD; 1024];
        return thin(plan, excited, pre, sets, &mut some);
    }
    let mut below = [FULL_WORD; 4096];
    thin(plan, excited, pre, sets, &mut below)
}

// 11 and 12 of all machines, and then what Thin keeps, by one row of sets.
pub fn remove_redundant(
    plan: &Tables,
    excited: &[u64; EXCITATION_WORDS],
    pre: &[u8; MOVES],
) -> Result<Kept, Refusal>
    requires { CountsBounded plan.now.counts }
    ensures { Thins plan.now.counts pre.now plan.now.place excited.now result }
{
    if plan.counts.machines <= FEW_MACHINES {
        let mut few = [0u64; FEW_PLACE_WORDS];
        return thin_by_sets(plan, excited, pre, &mut few);
    }
    let mut sets = [0u64; PLACE_WORDS];
    thin_by_sets(plan, excited, pre, &mut sets)
}
