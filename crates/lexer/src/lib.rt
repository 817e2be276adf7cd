// Words at a position of a text: literals, figures and names. Text and position are two parameters, as those of the model's readers: each contract is an
// equation with one of them.
#![tactic(auto)]

ghost use Rattle.std.specs.Prelude.{◌≡◌, map, ◌+◌, ◌-◌, ◌<◌, min, get_or, take, drop};
ghost use Rattle.model.specs.Bytes.{is_digit, is_letter, is_name_byte, leading};
ghost use Rattle.model.specs.Bytes as Bytes;
ghost use Rattle.model.specs.Reading.{lit_bytes, figure, name};
ghost use Rattle.model.specs.Form.{spaced_figure, spaced_name};
ghost use Rattle.lexer.specs.Words.{as_literal, as_figure, as_name, packed};

// A figure at a position: its value, and the position after it.
#[derive(Clone, Copy)]
pub struct FigureAt {
    pub value: usize,
    pub next: usize,
}

// A name as all that write its event share it: its length, and in small letters its first eight bytes and its others as numbers in base 256.
#[derive(Clone, Copy)]
pub struct PackedName {
    pub len: usize,
    pub high: u64,
    pub low: u64,
}

// A name at a position, and the position after it.
#[derive(Clone, Copy)]
pub struct NameAt {
    pub name: PackedName,
    pub next: usize,
}

#[tactic(auto, unfolding(model::specs::Bytes::is_digit))]
fn is_digit(b: u8) -> bool
    ensures { result ≡ is_digit b }
{
    b.is_ascii_digit()
}

fn is_letter(b: u8) -> bool
    ensures { result ≡ is_letter b }
{
    b.is_ascii_alphabetic()
}

#[tactic(auto, unfolding(model::specs::Bytes::is_name_byte))]
fn is_name_byte(b: u8) -> bool
    ensures { result ≡ is_name_byte b }
{
    is_letter(b) || is_digit(b) || b == b'-'
}

// The byte at a position; past the end 0, which no word holds. An Option is no plainer: 0 fails each test that a byte is put to, so the end needs none.
fn byte_at(s: &[u8], at: usize) -> u8
    ensures { result ≡ get_or s.now at 0 }
{
    s.get(at).copied().unwrap_or(0)
}

// The position after these very bytes. `starts_with` is no plainer: the position may lie past the end, where no slice begins.
pub fn read_literal(s: &[u8], at: usize, w: &[u8]) -> Option<usize>
    ensures { result ≡ as_literal (lit_bytes w.now s.now at) }
{
    for (i, b) in w.iter().enumerate() {
        if s.len() <= at + i || s[at + i] != *b {
            return None;
        }
    }
    Some(at + w.len())
}

// The number that a digit writes.
fn digit(b: u8) -> usize
    ensures { (result ≡ b - 48) × (result < 256) }
{
    usize::from(b.saturating_sub(b'0'))
}

// One to three digits with no leading zero, 0 itself excepted.
pub fn read_figure(s: &[u8], at: usize) -> Option<FigureAt>
    ensures { result ≡ as_figure (figure s.now at) }
{
    let first = byte_at(s, at);
    if !is_digit(first) {
        return None;
    }
    let one = digit(first);
    let second = byte_at(s, at + 1);
    if !is_digit(second) {
        return Some(FigureAt {
            value: one,
            next: at + 1,
        });
    }
    if first == b'0' {
        return None;
    }
    let two = one * 10 + digit(second);
    let third = byte_at(s, at + 2);
    if !is_digit(third) {
        return Some(FigureAt {
            value: two,
            next: at + 2,
        });
    }
    if !is_digit(byte_at(s, at + 3)) {
        return Some(FigureAt {
            value: two * 10 + digit(third),
            next: at + 3,
        });
    }
    None
}

// Name bytes in small letters as a number in base 256, and the position after them.
#[derive(Clone, Copy)]
struct Packed {
    value: u64,
    next: usize,
}

// The name bytes from a position on, at most the eight that 64 bits hold.
fn pack_run(s: &[u8], from: usize) -> Packed
    ensures next_value { result.next ≡ from + min 8 (leading is_name_byte (drop from s.now)) }
    ensures value_value { result.value ≡ packed (map Bytes.lower (take (result.next - from) (drop from s.now))) }
{
    let mut value: u64 = 0;
    for k in 0..8 {
        let b = byte_at(s, from + k);
        if !is_name_byte(b) {
            return Packed {
                value,
                next: from + k,
            };
        }
        // of name bytes capitals alone lack bit 5, and with it they are small letters
        value = value * 256 + u64::from(b | 32);
    }
    Packed {
        value,
        next: from + 8,
    }
}

// 1 to 16 name bytes that begin with a letter.
pub fn read_name(s: &[u8], at: usize) -> Option<NameAt>
    ensures { result ≡ as_name (name s.now at) }
{
    if !is_letter(byte_at(s, at)) {
        return None;
    }
    let first = pack_run(s, at);
    // finds no byte where the first run is shorter than eight
    let second = pack_run(s, first.next);
    let next = second.next;
    let len = next - at;
    if len == 16 && is_name_byte(byte_at(s, next)) {
        return None;
    }
    let name = PackedName {
        len,
        high: first.value,
        low: second.value,
    };
    Some(NameAt { name, next })
}

// A space and a figure, and below a space and a name: one function over the reader would be no shorter than the two.
#[tactic(auto, using(crate::proofs::Answers::answers), unfolding(model::specs::Form::spaced_figure))]
pub fn read_spaced_figure(s: &[u8], at: usize) -> Option<FigureAt>
    ensures { result ≡ as_figure (spaced_figure s.now at) }
{
    let next = read_literal(s, at, b" ")?;
    read_figure(s, next)
}

// A space and a name.
#[tactic(auto, using(crate::proofs::Answers::answers), unfolding(model::specs::Form::spaced_name))]
pub fn read_spaced_name(s: &[u8], at: usize) -> Option<NameAt>
    ensures { result ≡ as_name (spaced_name s.now at) }
{
    let next = read_literal(s, at, b" ")?;
    read_name(s, next)
}
