// What a text holds once it is read, as counts and rows of numbers, and the moves of its machines. Reader and checks have these in common.
#![tactic(auto)]

ghost use Rattle.std.specs.Prelude.{◌≡◌};
ghost use Rattle.rows.specs.Tables.{FreshTables, NoMoves};

use model::{MAX_EVENTS, MAX_MACHINES, MAX_TRANSITIONS};

// In a row of places: the state is in no place.
pub const UNPLACED: u8 = 255;

// A number that no state has.
pub const NO_STATE: usize = 256;

// In the row of pre-places: the event is not on the machine.
pub const NOT_ON: u8 = 255;

// A row of moves has an entry for each event of each machine.
pub const MOVES: usize = 1024;

// How many states, events, transitions and machines a text has, and its initial state. Their bounds are clauses and no ghost field, since the model counts any value (`counts_of`),
// within the bounds or not.
#[derive(Clone, Copy)]
pub struct Counts {
    pub states: usize,
    pub initial: usize,
    pub events: usize,
    pub transitions: usize,
    pub machines: usize,
}

// The transitions of a text in the order of the lines, as rows that are lent, of any length.
#[derive(Clone, Copy)]
pub struct Transitions<'a> {
    pub source: &'a [u8],
    pub event: &'a [u8],
    pub target: &'a [u8],
}

// What a text holds, in rows. Document 01: a plan and its split. Rows of numbers and no rows of structs: the core works on numbers, and a check reads one row of them.
// An entry that is not in use is 0, in `duplicate` NO_STATE, in `place` UNPLACED.
#[derive(Drop)]
pub struct Tables {
    pub counts: Counts,
    // for each event the position of its name in the text, and the name's length
    pub name_at: [usize; MAX_EVENTS],
    pub name_len: [usize; MAX_EVENTS],
    // for each transition, in the order of the lines
    pub source: [u8; MAX_TRANSITIONS],
    pub event: [u8; MAX_TRANSITIONS],
    pub target: [u8; MAX_TRANSITIONS],
    // for each machine how many places it has, and the lowest state that it lists twice or NO_STATE
    pub sizes: [usize; MAX_MACHINES],
    pub duplicate: [usize; MAX_MACHINES],
    // at m * 256 + x the place of state x in machine m, or UNPLACED
    pub place: [u8; 4096],
}

impl Tables {
    // No text is read into them yet.
    pub fn fresh() -> Tables
        ensures { FreshTables result }
    {
        Tables {
            counts: Counts {
                states: 0,
                initial: 0,
                events: 0,
                transitions: 0,
                machines: 0,
            },
            name_at: [0; MAX_EVENTS],
            name_len: [0; MAX_EVENTS],
            source: [0; MAX_TRANSITIONS],
            event: [0; MAX_TRANSITIONS],
            target: [0; MAX_TRANSITIONS],
            sizes: [0; MAX_MACHINES],
            duplicate: [NO_STATE; MAX_MACHINES],
            place: [UNPLACED; 4096],
        }
    }

    // The rows of the transitions, lent together.
    pub fn transitions(&self) -> Transitions<'_>
        ensures { (result.source.now ≡ self.now.source) × (result.event.now ≡ self.now.event) × (result.target.now ≡ self.now.target) }
    {
        Transitions {
            source: &self.source,
            event: &self.event,
            target: &self.target,
        }
    }
}

// The moves of the events on the machines: at e * 16 + m the pre-place and the post-place of event e on machine m. Two rows, so that the sixteen pre-places of an event are one vector.
#[derive(Drop)]
pub struct Moves {
    pub pre: [u8; MOVES],
    pub post: [u8; MOVES],
}

impl Moves {
    // No event is on a machine.
    pub fn none() -> Moves
        ensures { NoMoves result }
    {
        Moves {
            pre: [NOT_ON; MOVES],
            post: [0; MOVES],
        }
    }
}
