// Words of a text without a branch on their bytes: eight bytes as one number, figures, and names as their numbers.
#![tactic(auto)]

ghost use Rattle.std.specs.Prelude.{◌≡◌, ◌+◌, ◌-◌, ◌*◌, ◌/◌, ◌%◌, ◌^◌, ◌<◌, ◌≤◌, min, true, [], ◌∷◌, length, if◌then◌else◌};
ghost use Rattle.model.specs.Reading.{part};
ghost use Rattle.model.proofs.Words.{Spans};
ghost use Rattle.lexer.specs.Words.{packed};
ghost use Rattle.quick_words.specs.Guessed.{SizedFigure, GuessedFigure, Folds, Packs};

use lexer::PackedName;

// This byte stands at a position.
pub fn is_byte(s: &[u8], at: usize, b: u8) -> bool
    requires { at < length s.now }
    ensures { result ≡ true → Spans s.now at (b ∷ []) (at + 1) }
{
    s[at] == b
}

// The four bytes at a position as a number in base 256. The compiler makes one load of bytes that stand side by side.
pub fn four_bytes(s: &[u8], at: usize) -> u32
    requires { at + 4 ≤ length s.now }
    ensures { result ≡ packed (part s.now at 4) }
{
    u32::from_be_bytes([s[at], s[at + 1], s[at + 2], s[at + 3]])
}

// The eight bytes at a position, the first the lowest.
fn eight_bytes(s: &[u8], at: usize) -> [u8; 8]
    requires { at + 8 ≤ length s.now }
    ensures { result ≡ part s.now at 8 }
{
    [
        s[at],
        s[at + 1],
        s[at + 2],
        s[at + 3],
        s[at + 4],
        s[at + 5],
        s[at + 6],
        s[at + 7],
    ]
}

// The eight bytes at a position as a number in base 256.
pub fn big_endian(s: &[u8], at: usize) -> u64
    requires { at + 8 ≤ length s.now }
    ensures { result ≡ packed (part s.now at 8) }
{
    u64::from_be_bytes(eight_bytes(s, at))
}

// The same with the first byte the lowest.
pub fn little_endian(s: &[u8], at: usize) -> u64
    requires { at + 8 ≤ length s.now }
{
    u64::from_le_bytes(eight_bytes(s, at))
}

// How many of a word's bytes, from the lowest on, are guessed to stand before the first below `bound`. Bytes from 128 on may mislead it.
pub fn count_before(word: u64, bound: u8) -> usize
    ensures { result ≤ 8 }
{
    // a byte below the bound is the first to borrow
    let less = word.wrapping_sub(u64::from(bound) * 0x0101_0101_0101_0101);
    ((less & 0x8080_8080_8080_8080).trailing_zeros() / 8) as usize
}

// So many bytes of a word of eight; if these are all, as many more.
pub fn and_on(count: usize, more: usize) -> usize
    requires { (count ≤ 8) × (more ≤ 16) }
    ensures { result ≤ 8 + more }
{
    if count < 8 { count } else { 8 + more }
}

// How many bytes, at most 16, a name at a position is guessed to have: those before the first below the hyphen, the lowest of its bytes. Nothing is proved of it but
// that it stays in range.
pub fn guess_size(s: &[u8], at: usize) -> usize
    requires { at + 16 ≤ length s.now }
    ensures { result ≤ 16 }
{
    let first = count_before(big_endian(s, at).swap_bytes(), b'-');
    let second = count_before(big_endian(s, at + 8).swap_bytes(), b'-');
    and_on(first, second)
}

// The first bytes of a word of eight.
fn first_bytes(word: u64, count: usize) -> u64
    requires { count ≤ 8 }
    ensures { result ≡ word / 2 ^ (8 * (8 - count)) }
{
    // in two halves, since a shift by 64 is none
    let half = 32 - 4 * count;
    word >> half >> half
}

// A figure that was guessed to have one to three digits. Not an Option: the words after it are found by its size before anything is tested, so that all tests are one.
#[derive(Drop)]
pub struct Figure {
    pub found: bool,
    pub value: usize,
    pub size: usize,
}

// The number that a digit writes.
fn digit_value(b: u8) -> usize
    ensures { result ≡ b % 16 }
{
    usize::from(b % 16)
}

// The number for one digit, for two or for three.
fn by_size(two: bool, three: bool, x: usize, y: usize, z: usize) -> usize
    ensures { result ≡ (if three then z else (if two then y else x)) }
{
    if three {
        z
    } else if two {
        y
    } else {
        x
    }
}

// The figure of the byte a, and of b and c if they are digits too. Its value is x, y or z, by how many they are, and has no leading zero.
fn sized_figure(a: u8, b: u8, c: u8, x: usize, y: usize, z: usize) -> Figure
    ensures { SizedFigure a b c x y z result }
{
    let two = b.is_ascii_digit();
    let three = two & c.is_ascii_digit();
    let value = by_size(two, three, x, y, z);
    let least = by_size(two, three, 0, 10, 100);
    Figure {
        found: a.is_ascii_digit() & (least <= value),
        value,
        size: by_size(two, three, 1, 2, 3),
    }
}

// The figure at a position.
pub fn figure_at(s: &[u8], at: usize) -> Figure
    requires { at + 3 ≤ length s.now }
    ensures { GuessedFigure s.now at (at + result.size) result }
{
    let a = s[at];
    let b = s[at + 1];
    let c = s[at + 2];
    let x = digit_value(a);
    let y = x * 10 + digit_value(b);
    let z = y * 10 + digit_value(c);
    sized_figure(a, b, c, x, y, z)
}

// The figure before a position.
pub fn figure_before(s: &[u8], end: usize) -> Figure
    requires { (3 ≤ end) × (end ≤ length s.now) }
    ensures { GuessedFigure s.now (end - result.size) end result }
{
    let a = s[end - 1];
    let b = s[end - 2];
    let c = s[end - 3];
    let x = digit_value(a);
    let y = digit_value(b) * 10 + x;
    let z = digit_value(c) * 100 + y;
    sized_figure(a, b, c, x, y, z)
}

// The figure at a position, as far as it has at most two digits.
pub fn short_figure_at(s: &[u8], at: usize) -> Figure
    requires { at + 2 ≤ length s.now }
    ensures { GuessedFigure s.now at (at + result.size) result }
{
    let a = s[at];
    let b = s[at + 1];
    let x = digit_value(a);
    let y = x * 10 + digit_value(b);
    // a byte that is no digit in the place of the third
    sized_figure(a, b, 0, x, y, y)
}

// A to Z as a to z in each byte of a word: bit 5 is set where bit 6 is. No byte but a name's comes to a letter, a digit or the hyphen.
fn fold_case(word: u64) -> u64
    ensures { Folds word result }
{
    word | ((word >> 1) & 0x2020_2020_2020_2020)
}

// The bytes at a position, at most 16, as a name. Whole words are folded, so that folding does not wait for the size.
pub fn pack_name(s: &[u8], at: usize, size: usize) -> PackedName
    requires { (at + 16 ≤ length s.now) × (size ≤ 16) }
    ensures len_value { result.«len» ≡ size }
    ensures packs { Packs s.now at size result.«high» result.«low» }
{
    let first = size.min(8);
    PackedName {
        len: size,
        high: first_bytes(fold_case(big_endian(s, at)), first),
        low: first_bytes(fold_case(big_endian(s, at + 8)), size - first),
    }
}
