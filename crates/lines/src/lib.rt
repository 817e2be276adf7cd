// The lines of a text, each at a position: their form, and what they hold as numbers.
#![tactic(auto)]

ghost use Rattle.std.specs.Prelude.{◌≡◌, ◌≤◌, ◌&&◌, leb};
ghost use Rattle.model.specs.Reading.{many};
ghost use Rattle.model.specs.Form.{start_given, states_line, events_line, step_line, machine_line, spaced_name};
ghost use Rattle.lines.specs.Lines.{as_given, as_states, rows_of_events, with_names, as_events, StoresNames, as_step, as_machine, without_row};
ghost use Rattle.lines.specs.Marking.{as_names};

use lexer::{
    FigureAt, PackedName, read_figure, read_literal, read_spaced_figure, read_spaced_name,
};
use marks::{Marks, mark_places};
use model::{MAX_EVENTS, MAX_PLACES};
use names::Names;
use rows::{NO_STATE, UNPLACED};

mod marks; // the places of a machine line, marked in a row

// A states line: how many states, the start, and the position after the line.
#[derive(Clone, Copy)]
pub struct StatesLine {
    pub count: usize,
    pub start: usize,
    pub next: usize,
}

// An events line: how many names, and the position after it.
#[derive(Clone, Copy)]
pub struct EventsLine {
    pub count: usize,
    pub next: usize,
}

// The words of a step line: the states, the event's name, and the position after the line.
#[derive(Clone, Copy)]
pub struct StepLine {
    pub source: usize,
    pub name: PackedName,
    pub target: usize,
    pub next: usize,
}

// A machine line: how many places, and whether all its states are declared. With at most 64 places and all states declared also the lowest state that it
// lists twice, and in a row the place of each state, or UNPLACED. NO_STATE stands for no such state, since `duplicate` goes into a row of numbers. An Option of
// the last two is no plainer: too many places are refused before a state that is not declared, so both facts stand beside it.
#[derive(Drop)]
pub struct MachineLine {
    pub places: usize,
    pub declared: bool,
    pub duplicate: usize,
    pub row: [u8; 256],
    pub next: usize,
}

// The start on a states line, at the position after its count: 0 and the same position if none is given.
#[tactic(auto, using(lexer::proofs::Answers::answers), unfolding(model::specs::Form::start_given, crate::specs::Lines::as_given))]
fn read_start(s: &[u8], at: usize) -> FigureAt
    ensures { result ≡ as_given at (start_given s.now at) }
{
    let given = read_literal(s, at, b" start ").and_then(|a| read_figure(s, a));
    given.unwrap_or(FigureAt { value: 0, next: at })
}

// The states line at a position.
#[tactic(auto, using(lexer::proofs::Answers::answers), unfolding(model::specs::Form::states_line, crate::specs::Lines::as_states))]
pub fn read_states(s: &[u8], at: usize) -> Option<StatesLine>
    ensures { result ≡ as_states (states_line s.now at) }
{
    let a = read_literal(s, at, b"(states ")?;
    let count = read_figure(s, a)?;
    let start = read_start(s, count.next);
    let next = read_literal(s, start.next, b")\n")?;
    Some(StatesLine {
        count: count.value,
        start: start.value,
        next,
    })
}

// The names from a position on, each after a space, into rows: of each of the first 64 its position in the text, its length, and its bytes as two numbers.
fn read_names(s: &[u8], at: usize, spot: &mut [usize; MAX_EVENTS], names: &mut Names) -> EventsLine
    ensures value { result ≡ as_names (many spaced_name s.now at) }
    ensures low_after { rows_of_events spot.new names.new ≡ with_names at (rows_of_events spot.old names.old) (many spaced_name s.now at).0 }
    ensures count_kept { names.new.count ≡ names.old.count }
    ensures hints_kept { names.new.hints ≡ names.old.hints }
{
    let mut count = 0;
    let mut next = at;
    while let Some(found) = read_spaced_name(s, next) {
        if count < MAX_EVENTS {
            spot[count] = found.next - found.name.len;
            names.len[count] = found.name.len;
            names.high[count] = found.name.high;
            names.low[count] = found.name.low;
        }
        count += 1;
        next = found.next;
    }
    EventsLine { count, next }
}

// The events line at a position, its names into rows. All names count. If it is not formed, what the rows hold is left open.
pub fn read_events(
    s: &[u8],
    at: usize,
    spot: &mut [usize; MAX_EVENTS],
    names: &mut Names,
) -> Option<EventsLine>
    ensures value { result ≡ as_events (events_line s.now at) }
    ensures stores_names { StoresNames at (events_line s.now at) (rows_of_events spot.old names.old) (rows_of_events spot.new names.new) }
    ensures count_kept { names.new.count ≡ names.old.count }
    ensures hints_kept { names.new.hints ≡ names.old.hints }
{
    let a = read_literal(s, at, b"(events")?;
    let listed = read_names(s, a, spot, names);
    let next = read_literal(s, listed.next, b")\n")?;
    Some(EventsLine {
        count: listed.count,
        next,
    })
}

// The step line at a position, its event still by name.
#[tactic(auto, using(lexer::proofs::Answers::answers, crate::proofs::Steps::step_words), unfolding(crate::specs::Lines::as_step))]
pub fn read_step(s: &[u8], at: usize) -> Option<StepLine>
    ensures { result ≡ as_step (step_line s.now at) }
{
    let a = read_literal(s, at, b"(step ")?;
    let source = read_figure(s, a)?;
    let event = read_spaced_name(s, source.next)?;
    let target = read_spaced_figure(s, event.next)?;
    let next = read_literal(s, target.next, b")\n")?;
    Some(StepLine {
        source: source.value,
        name: event.name,
        target: target.value,
        next,
    })
}

// The row of a machine line is told.
fn has_row(places: usize, declared: bool) -> bool
    ensures { result ≡ (leb places 64 && declared) }
{
    places <= MAX_PLACES && declared
}

// A machine line whose row is not told: one with too many places, or one with a state that is not declared.
#[tactic(auto, unfolding(crate::specs::Lines::without_row))]
fn without_row(places: usize, declared: bool, next: usize) -> MachineLine
    ensures { result ≡ without_row places declared next }
{
    MachineLine {
        places,
        declared,
        duplicate: NO_STATE,
        row: [UNPLACED; 256],
        next,
    }
}

// The machine line at a position, against n states. Each state starts unplaced, before the line is read.
pub fn read_machine(s: &[u8], at: usize, n: usize) -> Option<MachineLine>
    requires { n ≤ 256 }
    ensures { result ≡ as_machine n (machine_line s.now at) }
{
    let mut marks = Marks {
        declared: true,
        duplicate: NO_STATE,
        row: [UNPLACED; 256],
    };
    let a = read_literal(s, at, b"(machine")?;
    let places = mark_places(s, a, n, &mut marks)?;
    if places.count == 0 {
        return None;
    }
    let next = read_literal(s, places.next, b")\n")?;
    if !has_row(places.count, marks.declared) {
        return Some(without_row(places.count, marks.declared, next));
    }
    Some(MachineLine {
        places: places.count,
        declared: marks.declared,
        duplicate: marks.duplicate,
        row: marks.row,
        next,
    })
}
