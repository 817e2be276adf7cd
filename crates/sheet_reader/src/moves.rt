// The moves of a machine's line: each is looked up, tested and stored at once.
ghost use Rattle.std.specs.Prelude.{◌≡◌, ◌<◌, ◌≤◌, is_ok};
ghost use Rattle.model.specs.Board.{good_ends};
ghost use Rattle.sheet_reader.specs.Lent.{lent, Holding};
ghost use Rattle.sheet_reader.specs.Storing.{StoresMove, AddsMove, ReadsMove, ReadsMoves};

use model::{MAX_EVENTS, MAX_MACHINES, MAX_PLACES};
use names::Names;
use quick_move::read_move_quickly;
use rows::Moves;
use sheet_lines::{MoveLine, read_move};

// A pre-place below this says that the event is on the machine.
const PLACE_BOUND: u8 = MAX_PLACES as u8;

// A machine of a sheet: its number, and how many places it has.
#[derive(Clone, Copy)]
pub struct Machine {
    pub number: usize,
    pub places: usize,
    ghost numbered: { number < 16 },
    ghost small: { places ≤ 64 },
}

// The line of a machine is faulty, and the rows are of no use any more.
#[derive(Clone, Copy)]
pub struct BadLine;

// The ends of a move are places of the machine, and differ.
fn good_ends(from: usize, to: usize, places: usize) -> bool
    ensures { result ≡ good_ends places from to }
{
    from < places && to < places && from != to
}

// Stores the move of event e on a machine, unless its ends are not two places of the machine or the event is on it already.
fn store_move(
    moves: &mut Moves,
    machine: Machine,
    e: usize,
    from: usize,
    to: usize,
) -> Result<(), BadLine>
    requires { e < 64 }
    ensures { StoresMove machine.number machine.places e from to moves.old.pre moves.old.post (is_ok result) moves.new.pre moves.new.post }
{
    if !good_ends(from, to, machine.places) {
        return Err(BadLine);
    }
    let at = e * MAX_MACHINES + machine.number;
    if moves.pre[at] < PLACE_BOUND {
        return Err(BadLine);
    }
    moves.pre[at] = from as u8;
    moves.post[at] = to as u8;
    Ok(())
}

// Here and below, names and moves are lent without the starts of the sheet: no contract has to say that those stay.

// Stores a move by its words. A name that is not yet there gets an entry and a hint.
fn add_move(
    names: &mut Names,
    moves: &mut Moves,
    machine: Machine,
    x: MoveLine,
) -> Result<(), BadLine>
    requires { names.old.count ≤ 64 }
    ensures count_bound { names.new.count ≤ 64 }
    ensures adds_move { AddsMove machine.number machine.places names.old.count (lent names.old moves.old) x (is_ok result) names.new.count (lent names.new moves.new) }
{
    let e = names.find(x.name).unwrap_or(names.count);
    if MAX_EVENTS <= e {
        return Err(BadLine);
    }
    store_move(moves, machine, e, x.pre, x.post)?;
    if e < names.count {
        return Ok(());
    }
    names.len[e] = x.name.len;
    names.high[e] = x.name.high;
    names.low[e] = x.name.low;
    names.count += 1;
    names.add_hint(x.name, e);
    Ok(())
}

// Stores the move at a position, word by word: the position after it, if a move stands there.
fn read_words(
    s: &[u8],
    at: usize,
    names: &mut Names,
    moves: &mut Moves,
    machine: Machine,
) -> Result<Option<usize>, BadLine>
    requires { names.old.count ≤ 64 }
    ensures { ReadsMove s.now at machine.number machine.places names.old.count (lent names.old moves.old) result names.new.count (lent names.new moves.new) }
{
    let Some(x) = read_move(s, at) else {
        return Ok(None);
    };
    add_move(names, moves, machine, x)?;
    Ok(Some(x.next))
}

// The same, by words only where the move is not read quickly.
fn next_move(
    s: &[u8],
    at: usize,
    names: &mut Names,
    moves: &mut Moves,
    machine: Machine,
) -> Result<Option<usize>, BadLine>
    requires { names.old.count ≤ 64 }
    ensures { ReadsMove s.now at machine.number machine.places names.old.count (lent names.old moves.old) result names.new.count (lent names.new moves.new) }
{
    let Some(x) = read_move_quickly(s, at, names) else {
        return read_words(s, at, names, moves, machine);
    };
    store_move(moves, machine, x.event, x.pre, x.post)?;
    Ok(Some(x.next))
}

// The moves of a machine from a position on, into the rows: the position after them.
pub fn read_moves(
    s: &[u8],
    at: usize,
    names: &mut Names,
    moves: &mut Moves,
    machine: Machine,
) -> Result<usize, BadLine>
    requires { (names.old.count ≤ 64) × Holding names.old.count (lent names.old moves.old) }
    ensures { ReadsMoves s.now at machine.number machine.places names.old.count (lent names.old moves.old) result names.new.count (lent names.new moves.new) }
{
    let mut i = at;
    while let Some(next) = next_move(s, i, names, moves, machine)? {
        i = next;
    }
    Ok(i)
}
