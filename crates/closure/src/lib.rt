// Refusals 11 and 12: the machines together.
#![tactic(auto)]

ghost use Rattle.std.specs.Prelude.{◌≡◌, not, ◌&&◌, ℕ, suc, ◌*◌, ◌<◌, ◌≤◌, length};
ghost use Rattle.std.proofs.Math.Option.{none};
ghost use Rattle.model.specs.Lists.{lowest};
ghost use Rattle.state_set.specs.Member.{member, state_found};
ghost use Rattle.rows.specs.Tables.{verdict_refusal};
ghost use Rattle.closure.specs.Covers.{CountsBounded, PlaceSets, on_machine, on_some, meets, common_to, open_in, open_refusal, CoverJudged};

use model::{MAX_MACHINES, MAX_PLACES, MAX_STATES, Refusal};
use rows::{MOVES, Tables};
use state_set::{StateSet, join_at, load, lowest, meet, single, without};
use transition_system::EXCITATION_WORDS;

// Four words for each place of each machine.
pub const PLACE_WORDS: usize = 4096;

// So many machines at most take a shorter row, which takes less time to clear.
pub const FEW_MACHINES: usize = 2;

pub const FEW_PLACE_WORDS: usize = 512;

// State x joins the set of its place in each machine. The count of machines is a number of its own, since a write to the sets could be one to the tables for all
// that the compiler knows: read from there for each state it costs a seventh of the check.
fn add_state(place: &[u8; 4096], x: usize, machines: usize, sets: &mut [u64])
    requires { (x < 256) × (machines ≤ 16) × (machines * 256 ≤ length sets.old) × PlaceSets place.now x (length sets.old) machines sets.old }
    ensures { PlaceSets place.now (suc x) (length sets.old) machines sets.new }
{
    let one = single(x as u8);
    for m in 0..machines {
        let q = usize::from(place[m * MAX_STATES + x]);
        if q < MAX_PLACES {
            join_at(sets, m * MAX_PLACES + q, one);
        }
    }
}

// The places of all machines as sets, in a row of empty sets.
fn add_states(plan: &Tables, sets: &mut [u64])
    requires { CountsBounded plan.now.counts × (plan.now.counts.machines * 256 ≤ length sets.old) × PlaceSets plan.now.place plan.now.counts.states (length sets.old) 0 sets.old }
    ensures { PlaceSets plan.now.place plan.now.counts.states (length sets.old) plan.now.counts.machines sets.new }
{
    let machines = plan.counts.machines;
    for x in 0..plan.counts.states {
        add_state(&plan.place, x, machines, sets);
    }
}

// Event e is on machine m.
pub fn is_on(pre: &[u8; MOVES], m: usize, e: usize) -> bool
    requires { (m < 16) × (e < 64) }
    ensures { result ≡ on_machine pre.now e m }
{
    usize::from(pre[e * MAX_MACHINES + m]) < MAX_PLACES
}

// Event e is on one of the first machines.
pub fn is_effective(pre: &[u8; MOVES], machines: usize, e: usize) -> bool
    requires { (machines ≤ 16) × (e < 64) }
    ensures { result ≡ on_some pre.now e machines }
{
    (0..machines).any(|m| is_on(pre, m, e))
}

// 11: the lowest event on no machine, if there is one.
fn ineffective_event(pre: &[u8; MOVES], machines: usize, events: usize) -> Option<usize>
    requires { (machines ≤ 16) × (events ≤ 64) }
    ensures { state_found result ≡ lowest (λ e. not (on_some pre.now e machines)) events }
{
    for e in 0..events {
        if !is_effective(pre, machines, e) {
            return Some(e);
        }
    }
    None
}

// Those of these states that are in the pre-place of event e on machine m; all of them where e is not on it.
pub fn meet_pre(common: StateSet, sets: &[u64], pre: &[u8; MOVES], m: usize, e: usize) -> StateSet
    requires { (m < 16) × (e < 64) × (suc m * 256 ≤ length sets.now) }
    ensures { (i : ℕ) → member result i ≡ (member common i && meets sets.now pre.now e m i) }
{
    let q = usize::from(pre[e * MAX_MACHINES + m]);
    if q < MAX_PLACES {
        meet(common, load(sets, m * MAX_PLACES + q))
    } else {
        common
    }
}

// The states common to all pre-places of event e, over all machines.
fn common_states(sets: &[u64], pre: &[u8; MOVES], machines: usize, e: usize) -> StateSet
    requires { (machines ≤ 16) × (e < 64) × (machines * 256 ≤ length sets.now) }
    ensures { (i : ℕ) → member result i ≡ common_to sets.now pre.now e machines i }
{
    let mut common = StateSet::FULL;
    for m in 0..machines {
        common = meet_pre(common, sets, pre, m, e);
    }
    common
}

// 12 for event e: the lowest state common to its pre-places and outside its excitation set.
fn open_state(
    sets: &[u64],
    pre: &[u8; MOVES],
    excited: &[u64; EXCITATION_WORDS],
    machines: usize,
    e: usize,
) -> Option<u8>
    requires { (machines ≤ 16) × (e < 64) × (machines * 256 ≤ length sets.now) }
    ensures { state_found result ≡ open_in sets.now pre.now excited.now machines e }
{
    let common = common_states(sets, pre, machines, e);
    let excitation = load(excited, e);
    lowest(without(common, excitation))
}

// 12: the lowest event whose closure fails, and there the lowest state.
fn check_closed(
    sets: &[u64],
    pre: &[u8; MOVES],
    excited: &[u64; EXCITATION_WORDS],
    machines: usize,
    events: usize,
) -> Result<(), Refusal>
    requires { (machines ≤ 16) × (events ≤ 64) × (machines * 256 ≤ length sets.now) }
    ensures { verdict_refusal result ≡ open_refusal (open_in sets.now pre.now excited.now machines) events }
{
    for e in 0..events {
        if let Some(s) = open_state(sets, pre, excited, machines, e) {
            return Err(Refusal::NotExcitationClosed { // 12 open
                event: e,
                state: usize::from(s),
            });
        }
    }
    Ok(())
}

// 11, then 12, with a row of empty sets. Passed, it has the places as sets.
pub fn check_cover_in(
    plan: &Tables,
    excited: &[u64; EXCITATION_WORDS],
    pre: &[u8; MOVES],
    sets: &mut [u64],
) -> Result<(), Refusal>
    requires counts_bounded { CountsBounded plan.now.counts }
    requires machines_in_bounds { (plan.now.counts.machines * 256 ≤ length sets.old) × PlaceSets plan.now.place plan.now.counts.states (length sets.old) 0 sets.old }
    ensures cover_judged { CoverJudged plan.now.counts pre.now plan.now.place excited.now result }
    ensures place_sets { verdict_refusal result ≡ none → PlaceSets plan.now.place plan.now.counts.states (length sets.old) plan.now.counts.machines sets.new }
{
    let c = plan.counts;
    if let Some(event) = ineffective_event(pre, c.machines, c.events) {
        return Err(Refusal::IneffectiveEvent { event }); // 11 unheld
    }
    add_states(plan, sets);
    check_closed(sets, pre, excited, c.machines, c.events)
}

// 11, then 12.
pub fn check_cover(
    plan: &Tables,
    excited: &[u64; EXCITATION_WORDS],
    pre: &[u8; MOVES],
) -> Result<(), Refusal>
    requires { CountsBounded plan.now.counts }
    ensures { CoverJudged plan.now.counts pre.now plan.now.place excited.now result }
{
    if plan.counts.machines <= FEW_MACHINES {
        let mut few = [0u64; FEW_PLACE_WORDS];
        check_cover_in(plan, excited, pre, &mut few)
    } else {
        let mut sets = [0u64; PLACE_WORDS];
        check_cover_in(plan, excited, pre, &mut sets)
    }
}
