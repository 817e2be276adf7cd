// Merge: which places of each machine become one, and the rows of the machines that this leaves.
#![tactic(auto)]

ghost use Rattle.std.specs.Prelude.{◌≡◌, suc, ◌+◌, ◌*◌, ◌<◌, ◌≤◌, length};
ghost use Rattle.closure.specs.Covers.{CountsBounded, PlaceSets};
ghost use Rattle.merging.specs.Bars.{Ends, Full, SeenSizes, seen_by, seen_in};
ghost use Rattle.merging.specs.Numbers.{SmallRow};
ghost use Rattle.merging.specs.Merges.{NewNumbers, MachineMet, MergeRows, MachineMerged, MachinesMerged, Merges, RestSame};

use bar_rows::{BarRows, WORDS};
use bars::meet_later;
use closure::{FEW_MACHINES, FEW_PLACE_WORDS, PLACE_WORDS, check_cover_in};
use model::{MAX_PLACES, MAX_STATES, Refusal};
use numbers::{fill, narrow_common, number_places, renumber_moves, unite};
use rows::{MOVES, Moves, Tables};
use state_set::FULL_WORD;
use transition_system::EXCITATION_WORDS;

mod bar_rows; // what tells which places of a machine bar each other
mod bars; // which they are
mod numbers; // the new number of each place, and the rows with it

// The new numbers of the places of a machine, and how many there are.
fn new_numbers(rows: &BarRows, number: &mut [u8; MAX_PLACES]) -> usize
    requires small { SmallRow number.old }
    requires seen_sizes { SeenSizes (suc rows.now.m) rows.now.events (seen_by rows.now) × Ends (suc rows.now.m) rows.now.events rows.now.moves.now.pre rows.now.moves.now.post }
    ensures { NewNumbers (seen_by rows.now) rows.now.m rows.now.size rows.now.events result number.new }
{
    let mut bars = [0u64; WORDS];
    rows.bar_places(&mut bars);
    number_places(&bars, rows.size, number)
}

// The states common to the pre-places of each event, now on machine m too, whose places have new numbers. No BarRows lends it its rows, since it changes one of them.
fn meet_machine(
    sets: &[u64],
    m: usize,
    size: usize,
    number: &[u8; MAX_PLACES],
    pre: &[u8; MOVES],
    events: usize,
    earlier: &mut [u64; WORDS],
)
    requires { (m < 16) × (size ≤ 64) × (events ≤ 64) × (m * 256 + 256 ≤ length sets.now) × SmallRow number.now }
    ensures { MachineMet sets.now m size number.now pre.now events earlier.old earlier.new }
{
    let mut unions = [0u64; WORDS];
    unite(sets, m, size, number, &mut unions);
    narrow_common(&unions, pre, m, events, earlier);
}

// What the pass leaves as it is: the places as sets, the states common to the pre-places of each event on the machines after each, and the excitation sets.
#[derive(Clone, Copy)]
struct Lent<'a> {
    sets: &'a [u64],
    later: &'a [u64],
    excited: &'a [u64; EXCITATION_WORDS],
}

impl Lent<'_> {
    // Machine m with its places merged: its moves, its start and its count of places by the new numbers, and the states still common to the pre-places of each event.
    fn merge_machine(
        &self,
        m: usize,
        plan: &mut Tables,
        moves: &mut Moves,
        earlier: &mut [u64; WORDS],
    )
        requires m_lt_machines { (m < plan.old.counts.machines) × CountsBounded plan.old.counts × MergeRows plan.old.counts plan.old.place plan.old.sizes moves.old.pre moves.old.post }
        requires seen_sizes { SeenSizes plan.old.counts.machines plan.old.counts.events (seen_in self.now moves.old earlier.old) }
        ensures merged { MachineMerged plan.old.counts (seen_in self.now moves.old earlier.old) m plan.old.place plan.old.sizes plan.new.place plan.new.sizes moves.new.pre moves.new.post earlier.new }
        ensures rest { RestSame plan.old plan.new }
    {
        let events = plan.counts.events;
        let size = plan.sizes[m];
        let mut number = [0u8; MAX_PLACES];
        let rows = BarRows {
            m,
            size,
            events,
            sets: self.sets,
            moves,
            earlier,
            later: self.later,
            excited: self.excited,
        };
        let groups = new_numbers(&rows, &mut number);
        renumber_moves(&number, m, events, moves);
        let start = m * MAX_STATES + plan.counts.initial;
        plan.place[start] = number[usize::from(plan.place[start])];
        plan.sizes[m] = groups;
        meet_machine(self.sets, m, size, &number, &moves.pre, events, earlier);
    }

    // Each machine in turn, beside the merged ones before it and those after it.
    fn merge_machines(&self, plan: &mut Tables, moves: &mut Moves, earlier: &mut [u64; WORDS])
        requires counts_bounded { CountsBounded plan.old.counts × MergeRows plan.old.counts plan.old.place plan.old.sizes moves.old.pre moves.old.post }
        requires seen_sizes { SeenSizes plan.old.counts.machines plan.old.counts.events (seen_in self.now moves.old earlier.old) }
        ensures merged { MachinesMerged plan.old.counts (seen_in self.now moves.old earlier.old) plan.old.place plan.old.sizes plan.new.place plan.new.sizes moves.new.pre moves.new.post }
        ensures rest { RestSame plan.old plan.new }
    {
        for m in 0..plan.counts.machines {
            self.merge_machine(m, plan, moves, earlier);
        }
    }
}

// 11 and 12, then the pass, with two rows that are lent: `sets` for the places as sets, `later` for the states common to pre-places on later machines.
fn merge_with(
    plan: &mut Tables,
    moves: &mut Moves,
    excited: &[u64; EXCITATION_WORDS],
    sets: &mut [u64],
    later: &mut [u64],
) -> Result<(), Refusal>
    requires counts_bounded { CountsBounded plan.old.counts × MergeRows plan.old.counts plan.old.place plan.old.sizes moves.old.pre moves.old.post }
    requires machines_in_bounds { (plan.old.counts.machines * 256 ≤ length sets.old) × PlaceSets plan.old.place plan.old.counts.states (length sets.old) 0 sets.old }
    requires events_in_bounds { (plan.old.counts.events * 64 ≤ length later.old) × Full plan.old.counts.events later.old }
    ensures merges { Merges plan.old.counts plan.old.place plan.old.sizes moves.old.pre moves.old.post excited.now result plan.new.place plan.new.sizes moves.new.pre moves.new.post }
    ensures rest { RestSame plan.old plan.new }
{
    check_cover_in(plan, excited, &moves.pre, sets)?;
    meet_later(
        sets,
        &moves.pre,
        plan.counts.machines,
        plan.counts.events,
        later,
    );
    let mut earlier = [0u64; WORDS];
    fill(plan.counts.states, plan.counts.events, &mut earlier);
    let lent = Lent {
        sets,
        later,
        excited,
    };
    lent.merge_machines(plan, moves, &mut earlier);
    Ok(())
}

// So many events at most, with few machines, take shorter rows, which take less time to clear.
const FEW_EVENTS: usize = 4;

// 11 and 12 of the machines, and then their places merged: rows of moves, starts and counts of places by the new numbers.
pub fn merge_places(
    plan: &mut Tables,
    moves: &mut Moves,
    excited: &[u64; EXCITATION_WORDS],
) -> Result<(), Refusal>
    requires { CountsBounded plan.old.counts × MergeRows plan.old.counts plan.old.place plan.old.sizes moves.old.pre moves.old.post }
    ensures merges { Merges plan.old.counts plan.old.place plan.old.sizes moves.old.pre moves.old.post excited.now result plan.new.place plan.new.sizes moves.new.pre moves.new.post }
    ensures rest { RestSame plan.old plan.new }
{
    if plan.counts.events <= FEW_EVENTS && plan.counts.machines <= FEW_MACHINES {
        let mut sets = [0u64; FEW_PLACE_WORDS];
        let mut later = [FULL_WORD; 256];
        return merge_with(plan, moves, excited, &mut sets, &mut later);
    }
    let mut sets = [0u64; PLACE_WORDS];
    let mut later = [FULL_WORD; 4096];
    merge_with(plan, moves, excited, &mut sets, &mut later)
}
