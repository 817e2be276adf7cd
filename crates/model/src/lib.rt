// The types that the crates share. The model's definitions (specs/) and theorems (proofs/) are what the crates above cite.
#![tactic(auto)]

// The bounds of document 01, "The text".
pub const MAX_TEXT: usize = 32768;

pub const MAX_STATES: usize = 256;

pub const MAX_EVENTS: usize = 64;

pub const MAX_TRANSITIONS: usize = 1024;

pub const MAX_MACHINES: usize = 16;

pub const MAX_PLACES: usize = 64;

// A step record, as a caller lends it, a caller in C too. Document 01: from-state, event number, to-state.
#[repr(C)]
#[derive(Clone, Copy)]
pub struct Transition {
    pub source: u8,
    pub event: u8,
    pub target: u8,
}

// Why a call is refused. Document 01 has the table; a comment gives its number and word there, here and where it is said.
#[derive(Clone, Copy)]
pub enum Refusal {
    // 1 misformed
    Malformed { line: usize },
    // 2 oversize; line 0 is the whole text
    LimitExceeded { line: usize },
    // 3 stranger
    Undeclared { line: usize },
    // 4 standstill
    SelfLoop { line: usize },
    // 5 fork
    Nondeterministic { line: usize, earlier: usize },
    // 6 idle event
    UnusedEvent { event: usize },
    // 7 unreached
    Unreachable { state: usize },
    // 8 doubled
    DuplicateState { machine: usize, state: usize },
    // 9 missing
    UncoveredState { machine: usize, state: usize },
    // 10 uneven
    NotARegion { machine: usize, event: usize },
    // 11 unheld
    IneffectiveEvent { event: usize },
    // 12 open
    NotExcitationClosed { event: usize, state: usize },
    // 13 short sheet
    BufferTooShort { needed: usize },
    // 14 odd call
    UnknownEvent { position: usize },
    // 15 bad sheet; line 0 is the whole sheet
    BadSheet { line: usize },
}
