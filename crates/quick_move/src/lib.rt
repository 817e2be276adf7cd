// A move of a sheet read without a branch on its bytes. Where its name ends is guessed by bits, and the guess is verified byte by byte.
#![tactic(auto)]

ghost use Rattle.std.specs.Prelude.{◌≡◌, true, ◌+◌, ◌<◌, ◌≤◌, length};
ghost use Rattle.model.specs.Bytes.{bytes};
ghost use Rattle.model.proofs.Words.{Spans};
ghost use Rattle.names.specs.Held.{Same};
ghost use Rattle.quick_move.specs.Quick.{ReadsQuickly, Framed};

use lexer::PackedName;
use names::Names;
use quick_words::{four_bytes, guess_size, is_byte, pack_name, short_figure_at};

// A move, verified: its event, its places and the position after it.
#[derive(Drop)]
pub struct QuickMove {
    pub event: usize,
    pub pre: usize,
    pub post: usize,
    pub next: usize,
}

// The seven bytes " (move " stand at a position.
fn is_move(s: &[u8], at: usize) -> bool
    requires { at + 8 ≤ length s.now }
    ensures { result ≡ true → Spans s.now at (bytes " (move ") (at + 7) }
{
    let begins = four_bytes(s, at) == 0x2028_6d6f;
    begins & is_byte(s, at + 4, b'v') & is_byte(s, at + 5, b'e') & is_byte(s, at + 6, b' ')
}

// The bytes around the words of a move: a space behind the name and behind the first figure, and the bracket behind the second.
fn is_framed(s: &[u8], at: usize, to: usize, mid: usize, end: usize) -> bool
    requires at_in_bounds { at + 8 ≤ length s.now }
    requires to_in_bounds { (to < length s.now) × (mid < length s.now) × (end < length s.now) }
    ensures { result ≡ true → Framed s.now at to mid end }
{
    is_move(s, at) & is_byte(s, to, b' ') & is_byte(s, mid, b' ') & is_byte(s, end, b')')
}

// Entry k is one of the names, and is this one.
fn is_known(names: &Names, k: usize, name: PackedName) -> bool
    requires { k < 64 }
    ensures { result ≡ true → (k < names.now.count) × Same names.now.«len» names.now.«high» names.now.«low» name.«len» name.«high» name.«low» k }
{
    names.is_at(k, name) & (k < names.count)
}

// The move at a position with 40 bytes from there on, since words are read past its end.
fn verified_move(s: &[u8], at: usize, names: &Names) -> Option<QuickMove>
    requires { at + 40 ≤ length s.now }
    ensures { ReadsQuickly s.now at names.now.count names.now.«len» names.now.«high» names.now.«low» result }
{
    let from = at + 7;
    let name = pack_name(s, from, guess_size(s, from));
    let to = from + name.len;
    let a = short_figure_at(s, to + 1);
    let mid = to + 1 + a.size;
    let b = short_figure_at(s, mid + 1);
    let end = mid + 1 + b.size;
    let formed = is_framed(s, at, to, mid, end) & a.found & b.found;
    if !formed {
        return None;
    }
    let mut event = names.hint(name);
    if !is_known(names, event, name) {
        event = names.second_hint(name);
        if !is_known(names, event, name) {
            return None;
        }
    }
    Some(QuickMove {
        event,
        pre: a.value,
        post: b.value,
        next: end + 1,
    })
}

// The move at a position, if the hints lead to its name and its figures have at most two digits.
pub fn read_move_quickly(s: &[u8], at: usize, names: &Names) -> Option<QuickMove>
    ensures { ReadsQuickly s.now at names.now.count names.now.«len» names.now.«high» names.now.«low» result }
{
    if s.len().saturating_sub(at) < 40 {
        return None;
    }
    verified_move(s, at, names)
}
