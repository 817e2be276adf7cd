// Refusals 4 to 7: the transition system by itself.
#![tactic(auto)]

ghost use Rattle.std.specs.Prelude.{◌≡◌, List, [], ℕ, suc, ◌*◌, ◌<◌, ◌≤◌, T, length, unwrap_or};
ghost use Rattle.std.proofs.Math.Option.{none};
ghost use Rattle.model.specs.Lists.{index};
ghost use Rattle.model.specs.TransitionSystem.{TransitionSystem, leads, transitions_refusal, system_refusal};
ghost use Rattle.rows.specs.Tables.{verdict_refusal};
ghost use Rattle.rows.specs.Told.{first_transitions, system_of};
ghost use Rattle.rows.specs.Bounded.{Bounded};
ghost use Rattle.state_set.specs.Member.{member};
ghost use Rattle.transition_system.specs.Sets.{Excitations, Has, Successors, Closed, next_refusal, Unused, Unreached, Image, SetsOf, InRows, system_rows};
ghost use Rattle.transition_system.specs.Reaches.{Reaches};

use model::Refusal;
use rows::{Counts, Transitions};
use state_set::{
    StateSet, contains_at, insert, join, load, lowest, single, without, without_lowest,
};

// Rows of sets have four words for each set: the excitation set of each event, the successors of each state.
pub const EXCITATION_WORDS: usize = 256;

const SUCCESSOR_WORDS: usize = 1024;

// A system of at most FEW_STATES states is checked with a shorter row of successors, which takes less time to clear.
const FEW_STATES: usize = 16;

const FEW_SUCCESSOR_WORDS: usize = 64;

// The first of n transitions that leads from state s by event e, if one does.
fn first_leading(transitions: Transitions, n: usize, s: u8, e: u8) -> Option<usize>
    requires { let t = transitions in (n ≤ length t.source.now) × (n ≤ length t.event.now) }
    ensures { let t = transitions.entry in ((targets : List ℕ) → unwrap_or result n ≡ index (leads s e) (first_transitions t.source.now t.event.now targets n)) × (unwrap_or result n ≤ n) }
{
    for k in 0..n {
        if transitions.source[k] == s && transitions.event[k] == e {
            return Some(k);
        }
    }
    None
}

// Transition k, once those before it are in the sets: refused by 4 or 5, or put into them.
fn add_transition(
    transitions: Transitions,
    k: usize,
    excited: &mut [u64; EXCITATION_WORDS],
    successors: &mut [u64],
) -> Result<(), Refusal>
    requires in_rows { let t = transitions in InRows t.source.now t.event.now t.target.now successors.old k }
    requires sets_of { let t = transitions in SetsOf (first_transitions t.source.now t.event.now t.target.now k) excited.old successors.old }
    ensures result_value { let t = transitions.entry in verdict_refusal result ≡ next_refusal t.source.now t.event.now t.target.now k }
    ensures sets_of_2 { let t = transitions.entry in verdict_refusal result ≡ none → SetsOf (first_transitions t.source.now t.event.now t.target.now (suc k)) excited.new successors.new }
{
    let s = transitions.source[k];
    let t = transitions.target[k];
    let e = transitions.event[k];
    // the transitions follow the lines of the states and the events
    let line = k + 3;
    if s == t {
        return Err(Refusal::SelfLoop { line }); // 4 standstill
    }
    if contains_at(excited, usize::from(e), s) {
        // one of the k transitions before this one leads there
        let earlier = first_leading(transitions, k, s, e).unwrap_or(k) + 3;
        return Err(Refusal::Nondeterministic { line, earlier }); // 5 fork
    }
    insert(excited, usize::from(e), s);
    insert(successors, usize::from(s), t);
    Ok(())
}

// 4 and 5 over the transitions in order. The excitation set of each event and the successors of each state are found on the way.
fn add_transitions(
    transitions: Transitions,
    n: usize,
    excited: &mut [u64; EXCITATION_WORDS],
    successors: &mut [u64],
) -> Result<(), Refusal>
    requires by_index { let t = transitions in (k : ℕ) → k < n → InRows t.source.now t.event.now t.target.now successors.old k }
    requires sets_of { SetsOf [] excited.old successors.old }
    ensures result_value { let t = transitions.entry in verdict_refusal result ≡ transitions_refusal [] (first_transitions t.source.now t.event.now t.target.now n) }
    ensures sets_of_2 { let t = transitions.entry in verdict_refusal result ≡ none → SetsOf (first_transitions t.source.now t.event.now t.target.now n) excited.new successors.new }
{
    for k in 0..n {
        add_transition(transitions, k, excited, successors)?;
    }
    Ok(())
}

// 6: the lowest event with no transition, which is one that no state excites, if there is one.
fn unused_event(excited: &[u64; EXCITATION_WORDS], events: usize) -> Option<usize>
    requires { events ≤ 64 }
    ensures { Unused excited.now events result }
{
    for e in 0..events {
        if lowest(load(excited, e)).is_none() {
            return Some(e);
        }
    }
    None
}

// The states to which one of these states leads.
fn successors_of(successors: &[u64], states: StateSet) -> StateSet
    requires { (s : ℕ) → T (member states s) → Has successors.now s }
    ensures { Image successors.now states result }
{
    let mut rest = states;
    let mut all = StateSet::EMPTY;
    while let Some(s) = lowest(rest) {
        rest = without_lowest(rest);
        all = join(all, load(successors, usize::from(s)));
    }
    all
}

// The states that are reached. Those that wait are followed together: no load depends on what another of them finds.
fn reached(successors: &[u64], initial: u8) -> StateSet
    requires { Closed successors.now × Has successors.now initial }
    ensures { (ts : TransitionSystem) → ts.initial ≡ initial → Successors ts.transitions successors.now → Reaches ts result }
{
    let mut found = single(initial);
    let mut waiting = single(initial);
    while lowest(waiting).is_some() {
        let fresh = without(successors_of(successors, waiting), found);
        waiting = fresh;
        found = join(found, fresh);
    }
    found
}

// 7: the lowest of n states that is not reached, if there is one.
fn unreached_state(successors: &[u64], initial: u8, n: usize) -> Option<usize>
    requires { Closed successors.now × Has successors.now initial × (n ≤ 256) }
    ensures { Unreached successors.now initial n result }
{
    let lowest_outside = lowest(without(StateSet::FULL, reached(successors, initial)))?;
    let s = usize::from(lowest_outside);
    if s < n { Some(s) } else { None }
}

// 4 to 7 in the paper's order, with a row of empty sets for the successors. The rows are three parameters, since a struct of them would lie in the stack of each call.
fn check_with(
    c: &Counts,
    source: &[u8],
    event: &[u8],
    target: &[u8],
    excited: &mut [u64; EXCITATION_WORDS],
    successors: &mut [u64],
) -> Result<(), Refusal>
    requires bounded { Bounded (system_rows c.now source.now event.now target.now) × Excitations [] excited.old }
    requires transitions_in_bounds { (c.now.transitions ≤ length source.now) × (c.now.transitions ≤ length event.now) × (c.now.transitions ≤ length target.now) }
    requires successors { Successors [] successors.old × (c.now.states * 4 ≤ length successors.old) }
    ensures result_value { verdict_refusal result ≡ system_refusal (system_of (system_rows c.now source.now event.now target.now)) }
    ensures excitations { verdict_refusal result ≡ none → Excitations (system_of (system_rows c.now source.now event.now target.now)).transitions excited.new }
{
    let transitions = Transitions {
        source,
        event,
        target,
    };
    add_transitions(transitions, c.transitions, excited, successors)?;
    if let Some(event) = unused_event(excited, c.events) {
        return Err(Refusal::UnusedEvent { event }); // 6 idle event
    }
    if let Some(state) = unreached_state(successors, c.initial as u8, c.states) {
        return Err(Refusal::Unreachable { state }); // 7 unreached
    }
    Ok(())
}

// 4 to 7. Passed, `excited` has the excitation set of each event.
pub fn check_transition_system(
    c: &Counts,
    transitions: Transitions,
    excited: &mut [u64; EXCITATION_WORDS],
) -> Result<(), Refusal>
    requires bounded { let t = transitions in Bounded (system_rows c.now t.source.now t.event.now t.target.now) × Excitations [] excited.old }
    requires transitions_in_bounds { let t = transitions in (c.now.transitions ≤ length t.source.now) × (c.now.transitions ≤ length t.event.now) × (c.now.transitions ≤ length t.target.now) }
    ensures result_value { let t = transitions.entry in verdict_refusal result ≡ system_refusal (system_of (system_rows c.now t.source.now t.event.now t.target.now)) }
    ensures excitations { let t = transitions.entry in verdict_refusal result ≡ none → Excitations (system_of (system_rows c.now t.source.now t.event.now t.target.now)).transitions excited.new }
{
    let Transitions {
        source,
        event,
        target,
    } = transitions;
    if c.states <= FEW_STATES {
        let mut few = [0u64; FEW_SUCCESSOR_WORDS];
        check_with(c, source, event, target, excited, &mut few)
    } else {
        let mut successors = [0u64; SUCCESSOR_WORDS];
        check_with(c, source, event, target, excited, &mut successors)
    }
}
