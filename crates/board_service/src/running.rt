// A list of names on the machines of a sheet: each is looked up and run at once. After a block the others are only looked up, since one that is odd turns the
// answer into 14.
ghost use Rattle.std.specs.Prelude.{◌<◌, ◌≤◌, length};
ghost use Rattle.sheet_reader.specs.Lent.{lent};
ghost use Rattle.product.specs.Answers.{run_answer};
ghost use Rattle.board_service.specs.Boards.{FindsOdd, EndsBlocked, RunsNames};

use super::name_list::next_name;
use model::{MAX_MACHINES, Refusal};
use names::Names;
use product::{Outcome, RunAnswer, blocking_machine, move_lanes, place_bounds, refused};
use sheet_reader::SheetRows;

// The first name from a position on that is not ended or on no move, by how many names stand before it; `before` stand before the first of these.
fn odd_name(names: &[u8], at: usize, before: usize, sheet: &Names) -> Option<usize>
    requires { (sheet.now.count ≤ 64) × (before ≤ at) × (at ≤ length names.now) }
    ensures { FindsOdd names.now at before sheet.now.count sheet.now.«len» sheet.now.«high» sheet.now.«low» result }
{
    let mut position = before;
    let mut i = at;
    // a name moves the position by its length, so this is no for
    while i < names.len() {
        let Some(known) = next_name(names, i, sheet) else {
            return Some(position);
        };
        position += 1;
        i = known.next;
    }
    None
}

// The answer where a machine has blocked a name, and `at` is the position after this name.
fn end_blocked(
    names: &[u8],
    at: usize,
    sheet: &Names,
    ran: usize,
    machine: usize,
    places: [u8; MAX_MACHINES],
) -> RunAnswer
    requires { (sheet.now.count ≤ 64) × (ran < at) × (at ≤ length names.now) }
    ensures { EndsBlocked names.now at sheet.now.count sheet.now.«len» sheet.now.«high» sheet.now.«low» ran machine places (run_answer result) }
{
    if let Some(position) = odd_name(names, at, ran + 1, sheet) {
        return refused(Refusal::UnknownEvent { position }); // 14 odd call
    }
    RunAnswer {
        outcome: Outcome::Blocked { ran, machine },
        places,
    }
}

// The names one after another, from the start places.
pub fn run_names(names: &[u8], sheet: &SheetRows, machines: usize) -> RunAnswer
    requires { (sheet.now.names.count ≤ 64) × (machines ≤ 16) }
    ensures { RunsNames names.now machines sheet.now.names.count (lent sheet.now.names sheet.now.moves) sheet.now.starts (run_answer result) }
{
    let bounds = place_bounds(machines);
    let sixteen = [MAX_MACHINES; 1];
    let mut places = sheet.starts;
    let mut ran = 0;
    let mut i = 0;
    // nor is this
    while i < names.len() {
        let Some(known) = next_name(names, i, &sheet.names) else {
            return refused(Refusal::UnknownEvent { position: ran }); // 14 odd call
        };
        let Some(after) = move_lanes(&sheet.moves, bounds, places, known.event, &sixteen) else {
            // one of the machines is not ready
            let pre = &sheet.moves.pre;
            let machine = blocking_machine(pre, machines, places, known.event).unwrap();
            return end_blocked(names, known.next, &sheet.names, ran, machine, places);
        };
        places = after;
        ran += 1;
        i = known.next;
    }
    RunAnswer {
        outcome: Outcome::Whole,
        places,
    }
}
