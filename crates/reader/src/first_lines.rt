// The first two lines of a text: the states, and the names of the events.
ghost use Rattle.std.specs.Prelude.{◌≡◌, ◌≤◌, ◌&&◌, leb, IfOk};
ghost use Rattle.lines.specs.Lines.{rows_of_events};
ghost use Rattle.reader.specs.Sections.{StatesRead, no_names, ReadsEvents, FirstRead, with_name_rows};

use lines::{read_events, read_states};
use model::{MAX_EVENTS, MAX_STATES, MAX_TEXT, Refusal};
use names::Names;
use rows::Tables;

// How many states, which of them is the initial one, and the position after their line.
#[derive(Drop)]
struct States {
    count: usize,
    initial: usize,
    next: usize,
}

// So many states are within the limits.
fn within_states(count: usize) -> bool
    ensures { result ≡ (leb 1 count && leb count 256) }
{
    1 <= count && count <= MAX_STATES
}

// The states of a text, if it and they are within the limits.
fn declared_states(s: &[u8]) -> Result<States, Refusal>
    ensures { StatesRead s.now result }
{
    if MAX_TEXT < s.len() {
        return Err(Refusal::LimitExceeded { line: 0 }); // 2 oversize
    }
    let Some(line) = read_states(s, 0) else {
        return Err(Refusal::Malformed { line: 1 }); // 1 misformed
    };
    if !within_states(line.count) {
        return Err(Refusal::LimitExceeded { line: 1 }); // 2 oversize
    }
    if line.count <= line.start {
        return Err(Refusal::Undeclared { line: 1 }); // 3 stranger
    }
    Ok(States {
        count: line.count,
        initial: line.start,
        next: line.next,
    })
}

// The names of the events line at a position, into rows of 0: the position after it.
fn declared_events(
    s: &[u8],
    at: usize,
    spot: &mut [usize; MAX_EVENTS],
    names: &mut Names,
) -> Result<usize, Refusal>
    requires { rows_of_events spot.old names.old ≡ no_names }
    ensures reads_events { ReadsEvents s.now at result names.new.count (rows_of_events spot.new names.new) }
    ensures count_bound { IfOk result (λ _. names.new.count ≤ 64) }
{
    let Some(line) = read_events(s, at, spot, names) else {
        return Err(Refusal::Malformed { line: 2 }); // 1 misformed
    };
    if MAX_EVENTS < line.count {
        return Err(Refusal::LimitExceeded { line: 2 }); // 2 oversize
    }
    names.count = line.count;
    if !names.distinct() {
        return Err(Refusal::Undeclared { line: 2 }); // 3 stranger
    }
    Ok(line.next)
}

// What the first two lines declare beside the names: how many states, the initial one, and the position after them.
#[derive(Drop)]
pub struct Declared {
    pub states: usize,
    pub initial: usize,
    pub next: usize,
}

// The first two lines of a text: the names into rows of 0, with their hints.
pub fn read_first_lines(s: &[u8], plan: &mut Tables, names: &mut Names) -> Result<Declared, Refusal>
    requires { rows_of_events plan.old.name_at names.old ≡ no_names }
    ensures first_read { FirstRead s.now result names.new.count (rows_of_events plan.new.name_at names.new) }
    ensures others { plan.new ≡ with_name_rows plan.old plan.new.name_at plan.new.name_len }
    ensures lengths { IfOk result (λ _. plan.new.name_len ≡ names.new.«len») }
{
    let first = declared_states(s)?;
    let next = declared_events(s, first.next, &mut plan.name_at, names)?;
    plan.name_len = names.len;
    names.fill_hints();
    Ok(Declared {
        states: first.count,
        initial: first.initial,
        next,
    })
}
