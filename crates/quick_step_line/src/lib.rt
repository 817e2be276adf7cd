// A step line read without a branch on its bytes. Where its words lie is guessed by bits, and the guess is verified byte by byte.
#![tactic(auto)]

ghost use Rattle.std.specs.Prelude.{◌≡◌, ◌+◌, ◌-◌, ◌<◌, ◌≤◌, true, length};
ghost use Rattle.model.specs.Bytes.{bytes};
ghost use Rattle.model.proofs.Words.{Spans};
ghost use Rattle.quick_step_line.specs.Quick.{ReadsQuickly, NameSize, Framed};

use guess::guess_end;
use names::Names;
use quick_words::{figure_at, figure_before, four_bytes, is_byte, pack_name};

mod guess; // where the line ends, by bit tricks

// A step line, verified: its states, its event and the position after it.
#[derive(Drop)]
pub struct QuickStep {
    pub source: usize,
    pub event: usize,
    pub target: usize,
    pub next: usize,
}

// The bracket and byte 10 stand at a position.
fn is_end(s: &[u8], at: usize) -> bool
    requires { at + 2 ≤ length s.now }
    ensures { result ≡ true → Spans s.now at (bytes ")\n") (at + 2) }
{
    u16::from_be_bytes([s[at], s[at + 1]]) == 0x290a
}

// The six bytes "(step " stand at a position.
fn is_step(s: &[u8], at: usize) -> bool
    requires { at + 8 ≤ length s.now }
    ensures { result ≡ true → Spans s.now at (bytes "(step ") (at + 6) }
{
    (four_bytes(s, at) == 0x2873_7465) & is_byte(s, at + 4, b'p') & is_byte(s, at + 5, b' ')
}

// The bytes around the words of a step line: its name lies from one position to another, and byte 10 at `end`.
fn is_framed(s: &[u8], at: usize, from: usize, to: usize, end: usize) -> bool
    requires at_in_bounds { at + 8 ≤ length s.now }
    requires le_from { (1 ≤ from) × (from ≤ length s.now) }
    requires le_end { (1 ≤ end) × (end < length s.now) }
    requires to_in_bounds { to < length s.now }
    ensures { result ≡ true → Framed s.now at from to end }
{
    is_step(s, at) & is_byte(s, from - 1, b' ') & is_byte(s, to, b' ') & is_end(s, end - 1)
}

// How many bytes there are from one position to another, if they are at most 16. Otherwise 0, the size of no name, so that the tests fail.
fn name_size(from: usize, to: usize) -> usize
    requires { from + 16 < 18446744073709551616 }
    ensures { NameSize from to result }
{
    let size = to.wrapping_sub(from);
    if size <= 16 { size } else { 0 }
}

// The step line at a position with 40 bytes from there on, since words are read past the end of a line.
fn verified_step(s: &[u8], at: usize, n: usize, names: &Names) -> Option<QuickStep>
    requires { at + 40 ≤ length s.now }
    ensures { ReadsQuickly s.now at n names.now.count names.now.«len» names.now.«high» names.now.«low» result }
{
    // byte 10 is the 13th byte of the shortest step line, and the 32nd of the longest
    let end = at + 12 + guess_end(s, at + 12);
    let a = figure_at(s, at + 6);
    let b = figure_before(s, end - 1);
    let from = at + 7 + a.size;
    let to = end - 2 - b.size;
    let name = pack_name(s, from, name_size(from, to));
    let event = names.hint(name);
    let formed = is_framed(s, at, from, to, end) & a.found & b.found;
    let named = names.is_at(event, name);
    let declared = (a.value < n) & (b.value < n) & (event < names.count);
    if formed & named & declared {
        return Some(QuickStep {
            source: a.value,
            event,
            target: b.value,
            next: end + 1,
        });
    }
    None
}

// The step line at a position, if the hints lead to its event and its words are declared.
pub fn read_step_quickly(s: &[u8], at: usize, n: usize, names: &Names) -> Option<QuickStep>
    ensures { ReadsQuickly s.now at n names.now.count names.now.«len» names.now.«high» names.now.«low» result }
{
    if s.len().saturating_sub(at) < 40 {
        return None;
    }
    verified_step(s, at, n, names)
}
