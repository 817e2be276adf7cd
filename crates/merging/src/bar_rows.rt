// The rows that tell which places of a machine bar each other. They stand apart from `bars`, since the specs that its contracts cite name the struct.
ghost use Rattle.std.specs.Prelude.{◌<◌, ◌≤◌};

use rows::Moves;
use transition_system::EXCITATION_WORDS;

// Four words for each place of a machine, or for each event.
pub const WORDS: usize = 256;

// What tells which places of machine m bar each other: how many its places and the events are, the places as sets, the moves, and for each event its excitation set and the
// states common to its pre-places on the machines before m, and those on the machines after each.
#[derive(Clone, Copy)]
pub struct BarRows<'a> {
    pub m: usize,
    pub size: usize,
    pub events: usize,
    pub sets: &'a [u64],
    pub moves: &'a Moves,
    pub earlier: &'a [u64; WORDS],
    pub later: &'a [u64],
    pub excited: &'a [u64; EXCITATION_WORDS],
    ghost numbered: { m < 16 },
    ghost small: { size ≤ 64 },
    ghost few: { events ≤ 64 },
}
