// Bytes, figures and numerals into a lent buffer; the line that tells a refusal.
#![tactic(auto)]

ghost use Rattle.std.specs.Prelude.{◌≡◌, ◌+◌, ◌-◌, ◌*◌, ◌<◌, ◌≤◌, length};
ghost use Rattle.model.specs.Refusal.{refuse};
ghost use Rattle.model.specs.Bytes.{digits, numeral};
ghost use Rattle.model.specs.Services.{written_refusal};
ghost use Rattle.writers.specs.Written.{Writes};

// The digit that writes a number below 10.
fn digit(n: usize) -> u8
    requires { n < 10 }
    ensures { result ≡ 48 + n }
{
    b'0' + n as u8
}

// Bytes into a lent buffer at a position. The answer is the position after them, here and below. Buffer and position stay two arguments: a struct of both was
// tried, and the proof of `write_refusal` did not close at its return, where the buffer that was lent to the struct comes back. `copy_from_slice` was slower:
// it asks whether the two lie apart even at a word that the code spells out.
pub fn write_bytes(word: &[u8], out: &mut [u8], at: usize) -> usize
    requires { at + length word.now ≤ length out.old }
    ensures { Writes word.now at out.old result out.new }
{
    for (i, byte) in word.iter().enumerate() {
        out[at + i] = *byte;
    }
    at + word.len()
}

// How many digits a number up to 999 has.
pub fn figure_len(n: usize) -> usize
    requires { n ≤ 999 }
    ensures { (result ≡ length (digits n)) × (result ≤ 3) × (1 ≤ result) }
{
    if n < 10 {
        1
    } else if n < 100 {
        2
    } else {
        3
    }
}

// Where the digit of the tens stands in a figure: the last but one, or at the front if there is no other.
fn tens_at(n: usize) -> usize
    ensures { result ≡ length (digits n) - 2 }
{
    usize::from(100 <= n)
}

// How often a unit goes into a number, and what is left.
#[derive(Drop)]
struct CountedOff {
    count: usize,
    rest: usize,
}

// By comparing and subtracting: nothing is divided where a sheet's figures are made (tests/figures).
fn count_off(n: usize, unit: usize) -> CountedOff
    requires { 0 < unit }
    ensures { (n ≡ result.count * unit + result.rest) × (result.rest < unit) }
{
    let mut count = 0;
    let mut rest = n;
    while rest >= unit {
        count += 1;
        rest -= unit;
    }
    CountedOff { count, rest }
}

// A number up to 999. Each digit is stored, a leading zero too, which the digit after it overwrites: so no store hangs on a branch.
pub fn write_figure(n: usize, out: &mut [u8], at: usize) -> usize
    requires { (n ≤ 999) × (at + length (digits n) ≤ length out.old) }
    ensures { Writes (digits n) at out.old result out.new }
{
    let last = figure_len(n) - 1;
    let hundreds = count_off(n, 100);
    let tens = count_off(hundreds.rest, 10);
    out[at] = digit(hundreds.count);
    out[at + tens_at(n)] = digit(tens.count);
    out[at + last] = digit(tens.rest);
    at + last + 1
}

// Any number, in base ten.
pub fn write_numeral(n: usize, out: &mut [u8], at: usize) -> usize
    requires { at + length (numeral n) ≤ length out.old }
    ensures { Writes (numeral n) at out.old result out.new }
{
    if n < 10 {
        out[at] = digit(n);
        return at + 1;
    }
    let i = write_numeral(n / 10, out, at);
    out[i] = digit(n % 10);
    i + 1
}

// A refusal's number and details, at the beginning of the buffer.
pub fn write_refusal(number: usize, detail: usize, second: usize, out: &mut [u8]) -> usize
    requires { length (written_refusal (refuse number detail second)) ≤ length out.old }
    ensures { Writes (written_refusal (refuse number detail second)) 0 out.old result out.new }
{
    let a = write_bytes(b"(refused ", out, 0);
    let b = write_numeral(number, out, a);
    let c = write_bytes(b" ", out, b);
    let d = write_numeral(detail, out, c);
    let e = write_bytes(b" ", out, d);
    let f = write_numeral(second, out, e);
    write_bytes(b")\n", out, f)
}
