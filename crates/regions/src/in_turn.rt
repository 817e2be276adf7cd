// 8 to 10 machine by machine, which names machine and event.
ghost use Rattle.std.specs.Prelude.{◌≡◌, ◌+◌, ◌*◌, ◌<◌, ◌≤◌, ◌==◌, position, slice_range};
ghost use Rattle.regions.specs.Moves.{MoveRows};
ghost use Rattle.regions.specs.Indexed.{Chained};
ghost use Rattle.regions.specs.Crossings.{ScannedTo, EarlierKept};
ghost use Rattle.regions.specs.Regions.{CheckableAlong, ToldAlong};

use super::chains::Chains;
use super::crossings::{agrees, crossing_at, pre_of};
use model::{MAX_MACHINES, MAX_STATES, Refusal};
use rows::{Moves, NO_STATE, Tables, UNPLACED};

// 10: the lowest event for which a place of machine m is no region; before it, the move of each event is put into the rows.
fn scan_events(plan: &Tables, chains: Chains, m: usize, moves: &mut Moves) -> Option<usize>
    requires transitions_bound { (plan.now.counts.transitions ≤ 1024) × (plan.now.counts.events ≤ 64) × (m < 16) }
    requires chained { Chained plan.now.counts.transitions plan.now.counts.events chains.first.now chains.next.now × MoveRows moves.old.pre moves.old.post }
    ensures earlier_kept { EarlierKept m moves.old.pre moves.old.post moves.new.pre moves.new.post }
    ensures scanned_along { let p = plan.now in ScannedTo p.counts p.source p.target p.place chains.entry.first.now chains.entry.next.now m moves.new.pre moves.new.post result }
{
    let n = plan.counts.transitions; // read once, not again after each store
    let mut uneven = None;
    'events: for e in 0..plan.counts.events {
        let mut k = chains.begin(e);
        let one = crossing_at(plan, m, k);
        while k < n {
            if !agrees(one, crossing_at(plan, m, k)) {
                uneven = Some(e);
                break 'events;
            }
            k = chains.after(k);
        }
        moves.pre[e * MAX_MACHINES + m] = pre_of(one);
        moves.post[e * MAX_MACHINES + m] = one.post;
    }
    uneven
}

// 9: the lowest state that machine m has in no place.
fn uncovered_state(plan: &Tables, m: usize) -> Option<usize>
    requires { (m < 16) × (plan.now.counts.states ≤ 256) }
    ensures { result ≡ position (λ x. x == 255) (slice_range plan.now.place (m * 256) (m * 256 + plan.now.counts.states)) }
{
    let from = m * MAX_STATES;
    plan.place[from..from + plan.counts.states]
        .iter()
        .position(|place| *place == UNPLACED)
}

// The refusal that comes first: 8, 9, 10 of each machine in turn. Passed, the rows have the move of each event on each machine.
pub fn check_in_turn(plan: &Tables, chains: Chains, moves: &mut Moves) -> Result<(), Refusal>
    requires { let p = plan.now in CheckableAlong p.counts p.source p.target p.duplicate p.place chains.first.now chains.next.now moves.old.pre moves.old.post }
    ensures { let p = plan.now in ToldAlong p.counts p.source p.target p.duplicate p.place chains.entry.first.now chains.entry.next.now result moves.new.pre moves.new.post }
{
    for machine in 0..plan.counts.machines {
        let state = plan.duplicate[machine];
        if state != NO_STATE {
            return Err(Refusal::DuplicateState { machine, state }); // 8 doubled
        }
        if let Some(state) = uncovered_state(plan, machine) {
            return Err(Refusal::UncoveredState { machine, state }); // 9 missing
        }
        if let Some(event) = scan_events(plan, chains, machine, moves) {
            return Err(Refusal::NotARegion { machine, event }); // 10 uneven
        }
    }
    Ok(())
}
