// The step lines, each against the states and events that the first two lines declare.
ghost use Rattle.std.specs.Prelude.{◌≡◌, ◌≤◌, IfOk};
ghost use Rattle.reader.specs.Sections.{Declares, StepRead, ReadsSteps, rows_of_steps, with_step_rows};

use lines::read_step;
use model::{MAX_TRANSITIONS, Refusal};
use names::Names;
use quick_step_line::{QuickStep, read_step_quickly};
use rows::Tables;

// The step line at a position, after k others, against n states and the names: none, its refusal, or its numbers. It is read word by word.
fn read_words(
    s: &[u8],
    at: usize,
    n: usize,
    names: &Names,
    k: usize,
) -> Result<Option<QuickStep>, Refusal>
    requires { (names.now.count ≤ 64) × (k ≤ 1024) }
    ensures { StepRead s.now at n names.now.count names.now.«len» names.now.«high» names.now.«low» k result }
{
    let Some(step) = read_step(s, at) else {
        return Ok(None);
    };
    let line = 3 + k;
    if MAX_TRANSITIONS <= k {
        return Err(Refusal::LimitExceeded { line }); // 2 oversize
    }
    let Some(event) = names.find(step.name) else {
        return Err(Refusal::Undeclared { line }); // 3 stranger
    };
    if n <= step.source || n <= step.target {
        return Err(Refusal::Undeclared { line }); // 3 stranger
    }
    Ok(Some(QuickStep {
        source: step.source,
        event,
        target: step.target,
        next: step.next,
    }))
}

// The same line, by words only where it is not read quickly.
fn step_at(
    s: &[u8],
    at: usize,
    n: usize,
    names: &Names,
    k: usize,
) -> Result<Option<QuickStep>, Refusal>
    requires { (names.now.count ≤ 64) × (k ≤ 1024) × Declares names.now.count names.now.«len» names.now.«high» names.now.«low» }
    ensures { StepRead s.now at n names.now.count names.now.«len» names.now.«high» names.now.«low» k result }
{
    let Some(step) = read_step_quickly(s, at, n, names) else {
        return read_words(s, at, n, names, k);
    };
    if MAX_TRANSITIONS <= k {
        return Err(Refusal::LimitExceeded { line: 3 + k }); // 2 oversize
    }
    Ok(Some(step))
}

// Step lines: how many were read, and the position after them.
#[derive(Drop)]
pub struct Section {
    pub count: usize,
    pub next: usize,
}

// The step lines at a position, against n states and the names, into the tables.
pub fn read_transitions(
    s: &[u8],
    at: usize,
    n: usize,
    names: &Names,
    plan: &mut Tables,
) -> Result<Section, Refusal>
    requires { (n ≤ 256) × (names.now.count ≤ 64) × Declares names.now.count names.now.«len» names.now.«high» names.now.«low» }
    ensures result_bound { IfOk result (λ r. r.count ≤ 1024) }
    ensures reads_steps { ReadsSteps s.now at n names.now.count names.now.«len» names.now.«high» names.now.«low» result (rows_of_steps plan.old) (rows_of_steps plan.new) }
    ensures others { plan.new ≡ with_step_rows plan.old (rows_of_steps plan.new) }
{
    let mut count = 0;
    let mut next = at;
    while let Some(step) = step_at(s, next, n, names, count)? {
        plan.source[count] = step.source as u8;
        plan.event[count] = step.event as u8;
        plan.target[count] = step.target as u8;
        count += 1;
        next = step.next;
    }
    Ok(Section { count, next })
}
