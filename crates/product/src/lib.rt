// Run: the machines together, from given places over a list of events.
#![tactic(auto)]

ghost use Rattle.std.specs.Prelude.{◌≡◌, [], ◌∷◌, not, cond, ◌||◌, ◌*◌, ◌+◌, ◌<◌, ◌≤◌, eqb, nat_le, position, MatchOption};
ghost use Rattle.std.proofs.Math.Option.{none, some};
ghost use Rattle.model.specs.Lists.{lowest};
ghost use Rattle.model.specs.Refusal as Checked;
ghost use Rattle.model.specs.Cases.{tabled};
ghost use Rattle.model.specs.Services.{ran_answer};
ghost use Rattle.rows.specs.Told.{entry};
ghost use Rattle.product.specs.Answers.{run_answer};
ghost use Rattle.product.specs.Lanes as Lanes;
ghost use Rattle.product.specs.Stepping.{Standing, PlaceBounds, blocks_at, Steps, IsPadded, EventsOn, RunsFrom, Runs, RunsEvents};

use model::{MAX_MACHINES, MAX_PLACES, MAX_STATES, Refusal};
use rows::{MOVES, Moves, Tables};

// What became of a list of events.
#[derive(Clone, Copy)]
pub enum Outcome {
    // it ran to its end
    Whole,
    // so many events ran, and this is the lowest machine that blocked the next
    Blocked { ran: usize, machine: usize },
    Refused(Refusal),
}

// The place of each machine, 0 for machine numbers not in use; all 0 where the call is refused. Outcome and places are no Result: so the papers have the answer.
#[derive(Clone, Copy)]
pub struct RunAnswer {
    pub outcome: Outcome,
    pub places: [u8; MAX_MACHINES],
}

pub fn refused(why: Refusal) -> RunAnswer
    ensures { run_answer result ≡ ran_answer (Checked.refused (tabled why)) }
{
    RunAnswer {
        outcome: Outcome::Refused(why),
        places: [0u8; MAX_MACHINES],
    }
}

// The place of each machine with this state.
pub fn places_of(plan: &Tables, state: usize) -> [u8; MAX_MACHINES]
    requires { (state < 256) × (plan.now.counts.machines ≤ 16) }
    ensures { Standing (λ k. entry plan.now.place (k * 256 + state)) plan.now.counts.machines result }
{
    let mut places = [0u8; MAX_MACHINES];
    for m in 0..plan.counts.machines {
        places[m] = plan.place[m * MAX_STATES + state];
    }
    places
}

// An event on the machines together: the lowest machine that blocks it, and where they stand then.
#[derive(Drop)]
pub struct Stepped {
    pub blocker: Option<usize>,
    pub places: [u8; MAX_MACHINES],
}

// A pre-place below this says that the event is on the machine.
const PLACE_BOUND: u8 = MAX_PLACES as u8;

// A machine that has the event stands in its pre-place. Both are asked of each, so that the lanes have no branch.
fn is_ready(on: bool, from: u8, place: u8) -> bool
    ensures { result ≡ (not on || eqb place from) }
{
    !on | (place == from)
}

// Where a machine stands after the event: in its post-place if it has the event.
fn place_after(on: bool, to: u8, place: u8) -> u8
    ensures { result ≡ cond on to place }
{
    if on { to } else { place }
}

// The lowest machine that has event e and stands elsewhere than in its pre-place.
pub fn blocking_machine(
    pre: &[u8; MOVES],
    machines: usize,
    places: [u8; MAX_MACHINES],
    e: usize,
) -> Option<usize>
    requires { (machines ≤ 16) × (e < 64) }
    ensures { MatchOption result (lowest (blocks_at pre.now places e) machines ≡ none) (λ m. lowest (blocks_at pre.now places e) machines ≡ some m) }
{
    let at = e * MAX_MACHINES;
    for m in 0..machines {
        let from = pre[at + m];
        if !is_ready(from < PLACE_BOUND, from, places[m]) {
            return Some(m);
        }
    }
    None
}

// The bound of each machine's pre-places; 0 for machine numbers not in use, which have no event.
pub fn place_bounds(machines: usize) -> [u8; MAX_MACHINES]
    requires { machines ≤ 16 }
    ensures { PlaceBounds machines result }
{
    let mut bounds = [0u8; MAX_MACHINES];
    bounds[..machines].fill(PLACE_BOUND);
    bounds
}

// Where the machines go by event e from these places, if each that has it is ready for it. All sixteen machine numbers are taken alike, so that they are one vector.
// Their count is read from a row, and which machine blocks is no part of this: where the count is known the loop is unrolled, and only before that is it small enough
// to be compiled into each loop that calls it.
pub fn move_lanes(
    moves: &Moves,
    bounds: [u8; MAX_MACHINES],
    places: [u8; MAX_MACHINES],
    e: usize,
    count: &[usize; 1],
) -> Option<[u8; MAX_MACHINES]>
    requires { (e < 64) × (count.now ≡ 16 ∷ []) }
    ensures { Lanes.Moves moves.now.pre moves.now.post bounds places e result }
{
    let at = e * MAX_MACHINES;
    let mut moved = places;
    let mut ready = true;
    for m in 0..count[0] {
        let from = moves.pre[at + m];
        let on = from < bounds[m];
        ready &= is_ready(on, from, places[m]);
        moved[m] = place_after(on, moves.post[at + m], places[m]);
    }
    if ready { Some(moved) } else { None }
}

// Event e from these places: which machine blocks is asked only where one does.
fn step(
    moves: &Moves,
    machines: usize,
    bounds: [u8; MAX_MACHINES],
    places: [u8; MAX_MACHINES],
    e: usize,
) -> Stepped
    requires { (machines ≤ 16) × PlaceBounds machines bounds × (e < 64) }
    ensures { Steps moves.now.pre moves.now.post machines places e result }
{
    if let Some(after) = move_lanes(moves, bounds, places, e, &[MAX_MACHINES]) {
        return Stepped {
            blocker: None,
            places: after,
        };
    }
    Stepped {
        blocker: blocking_machine(&moves.pre, machines, places, e),
        places,
    }
}

// 14: the lowest position of an event that is not declared.
fn unknown_event(events: &[u8], declared: usize) -> Option<usize>
    ensures { result ≡ position (λ e. nat_le declared e) events.now }
{
    events.iter().position(|e| usize::from(*e) >= declared)
}

// The events one after another, as far as the first that a machine blocks.
fn run_from(moves: &Moves, machines: usize, start: [u8; MAX_MACHINES], events: &[u8]) -> RunAnswer
    requires { (machines ≤ 16) × IsPadded machines start × EventsOn moves.now.pre moves.now.post machines events.now }
    ensures { RunsFrom moves.now.pre moves.now.post machines start events.now (run_answer result) }
{
    let bounds = place_bounds(machines);
    let mut places = start;
    for (ran, event) in events.iter().enumerate() {
        let next = step(moves, machines, bounds, places, usize::from(*event));
        places = next.places;
        if let Some(machine) = next.blocker {
            return RunAnswer {
                outcome: Outcome::Blocked { ran, machine },
                places,
            };
        }
    }
    RunAnswer {
        outcome: Outcome::Whole,
        places,
    }
}

// The events are declared, or the lowest position of one that is not is refused; then they run.
pub fn run_events(
    moves: &Moves,
    machines: usize,
    declared: usize,
    start: [u8; MAX_MACHINES],
    events: &[u8],
) -> RunAnswer
    requires { Runs moves.now.pre moves.now.post machines declared start }
    ensures { RunsEvents moves.now.pre moves.now.post machines declared start events.now (run_answer result) }
{
    if let Some(position) = unknown_event(events, declared) {
        return refused(Refusal::UnknownEvent { position }); // 14 odd call
    }
    run_from(moves, machines, start, events)
}
