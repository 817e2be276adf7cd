// Where a step line ends, by bit tricks of which nothing is proved but that they stay in range.
ghost use Rattle.std.specs.Prelude.{◌+◌, ◌≤◌, length};

use quick_words::{and_on, count_before, little_endian};

// How far from a position, at most 24, the line is guessed to end: at the first byte below the space. Byte 10 is, and no other of a step line.
pub fn guess_end(s: &[u8], at: usize) -> usize
    requires { at + 24 ≤ length s.now }
    ensures { result ≤ 24 }
{
    let first = count_before(little_endian(s, at), b' ');
    let second = count_before(little_endian(s, at + 8), b' ');
    let third = count_before(little_endian(s, at + 16), b' ');
    and_on(first, and_on(second, third))
}
