// The sheet: its length, and its bytes.
#![tactic(auto)]

ghost use Rattle.std.specs.Prelude.{◌≡◌, ◌+◌, ◌<◌, ◌≤◌, ◌&&◌, ltb, length, take, drop};
ghost use Rattle.model.specs.Bytes.{digits};
ghost use Rattle.model.specs.Sheet.{move_bytes};
ghost use Rattle.rows.specs.Told.{entry};
ghost use Rattle.rows.specs.Bounded.{NamesInside};
ghost use Rattle.writers.specs.Written.{Writes};
ghost use Rattle.sheet.specs.Written.{head_bytes, places_bytes, named_moves};
ghost use Rattle.sheet.specs.Lengths.{event_length, moves_length, heads_length};
ghost use Rattle.sheet.specs.Within.{WritesWithin};
ghost use Rattle.sheet.specs.Rows.{SheetBounds, SheetReady, sheet_size, SheetLength, SheetLeft};

use model::{MAX_MACHINES, MAX_PLACES, MAX_STATES};
use rows::{Moves, Tables};
use writers::{figure_len, write_bytes, write_figure};

// ---- lengths

// The bytes of the first line, of a machine's line and of a move that are the same in each.
const FIRST_LINE: usize = 12;

const MACHINE_LINE: usize = 30;

const MOVE: usize = 10;

// How many digits a place's number has.
fn place_len(n: u8) -> u8
    ensures { (result ≡ length (digits n)) × (result ≤ 3) }
{
    figure_len(usize::from(n)) as u8
}

// Machine m is one of the machines, and an event with this pre-place is on it.
fn has_move(pre: u8, m: u8, machines: u8) -> bool
    ensures { result ≡ (ltb m machines && ltb pre 64) }
{
    m < machines && usize::from(pre) < MAX_PLACES
}

// The moves of event e on the machines. The rows have an entry for each machine that there could be: the loop goes over all of them, and has its counter as a
// byte too, so that 16 machines are 16 bytes.
fn event_len(name: usize, moves: &Moves, e: usize, machines: u8) -> usize
    requires { (name ≤ 16) × (e < 64) × (machines ≤ 16) }
    ensures { (result ≡ event_length name moves.now.pre moves.now.post e machines) × (result ≤ 512) }
{
    let from = e * MAX_MACHINES;
    let mut count: u8 = 0;
    let mut figures: u8 = 0;
    let mut lane: u8 = 0;
    for m in 0..MAX_MACHINES {
        let q = moves.pre[from + m];
        let both = place_len(q) + place_len(moves.post[from + m]);
        if has_move(q, lane, machines) {
            count += 1;
            figures += both;
        }
        lane += 1;
    }
    usize::from(count) * (MOVE + name) + usize::from(figures)
}

// The moves of all events.
fn moves_len(plan: &Tables, moves: &Moves) -> usize
    requires { SheetBounds plan.now.counts plan.now.name_len plan.now.sizes plan.now.place }
    ensures length { result ≡ moves_length plan.now.name_len moves.now.pre moves.now.post plan.now.counts.machines plan.now.counts.events }
    ensures bound { result ≤ 32768 }
{
    let machines = plan.counts.machines as u8;
    let mut total = 0;
    for e in 0..plan.counts.events {
        total += event_len(plan.name_len[e], moves, e, machines);
    }
    total
}

// What the lines of the machines have beside moves.
fn heads_len(plan: &Tables) -> usize
    requires { SheetBounds plan.now.counts plan.now.name_len plan.now.sizes plan.now.place }
    ensures length { result ≡ heads_length plan.now.sizes plan.now.place plan.now.counts.initial plan.now.counts.machines }
    ensures bound { result ≤ 1024 }
{
    let mut total = 0;
    for m in 0..plan.counts.machines {
        let size = figure_len(plan.sizes[m]);
        let start = figure_len(usize::from(plan.place[m * MAX_STATES + plan.counts.initial]));
        total += MACHINE_LINE + figure_len(m) + size + start;
    }
    total
}

// The whole sheet: its first line, and a line for each machine.
pub fn sheet_len(plan: &Tables, moves: &Moves) -> usize
    requires { SheetBounds plan.now.counts plan.now.name_len plan.now.sizes plan.now.place }
    ensures { SheetLength plan.now.counts plan.now.name_len plan.now.sizes plan.now.place moves.now.pre moves.now.post result }
{
    let first = FIRST_LINE + figure_len(plan.counts.machines);
    first + heads_len(plan) + moves_len(plan, moves)
}

// ---- bytes

const LONGEST_NAME: usize = 16;

// A word by way of a copy. The compiler does not know that text and buffer lie apart; so it makes one load and one store.
fn write_copied(word: &[u8], out: &mut [u8], at: usize) -> usize
    requires { (length word.now ≡ 16) × (at + 16 ≤ length out.old) }
    ensures { Writes word.now at out.old result out.new }
{
    let mut copy = [0u8; LONGEST_NAME];
    copy.copy_from_slice(word);
    write_bytes(&copy, out, at)
}

// The name that stands at a place of the text, in a sheet of a known size. Where text and sheet go on for it, as many bytes are written as the longest name has:
// those behind the name are overwritten by what follows it. The answer is the position after the name, here and below.
fn write_name(
    text: &[u8],
    start: usize,
    len: usize,
    out: &mut [u8],
    at: usize,
    size: usize,
) -> usize
    requires { (len ≤ 16) × (start + len ≤ length text.now) × (at + len ≤ size) × (size ≤ length out.old) }
    ensures { WritesWithin (take len (drop start text.now)) at size out.old result out.new }
{
    if (text.len() - start).min(size - at) < LONGEST_NAME {
        let end = start + len;
        return write_bytes(&text[start..end], out, at);
    }
    let end = start + LONGEST_NAME;
    write_copied(&text[start..end], out, at);
    at + len
}

// What stands behind the name of a move.
fn write_places(pre: u8, post: u8, out: &mut [u8], at: usize) -> usize
    requires { at + length (places_bytes pre post) ≤ length out.old }
    ensures { Writes (places_bytes pre post) at out.old result out.new }
{
    let a = write_bytes(b" ", out, at);
    let b = write_figure(usize::from(pre), out, a);
    let c = write_bytes(b" ", out, b);
    let d = write_figure(usize::from(post), out, c);
    write_bytes(b")", out, d)
}

fn write_move(
    text: &[u8],
    start: usize,
    len: usize,
    pre: u8,
    post: u8,
    out: &mut [u8],
    at: usize,
    size: usize,
) -> usize
    requires len_bound { (len ≤ 16) × (start + len ≤ length text.now) × (size ≤ length out.old) }
    requires post_bound { at + length (move_bytes (take len (drop start text.now)) pre post) ≤ size }
    ensures { WritesWithin (move_bytes (take len (drop start text.now)) pre post) at size out.old result out.new }
{
    let name = write_bytes(b" (move ", out, at);
    let places = write_name(text, start, len, out, name, size);
    write_places(pre, post, out, places)
}

// The moves of the events on machine m.
fn write_moves(
    text: &[u8],
    plan: &Tables,
    moves: &Moves,
    m: usize,
    out: &mut [u8],
    at: usize,
    size: usize,
) -> usize
    requires m_bound { (m < 16) × SheetBounds plan.now.counts plan.now.name_len plan.now.sizes plan.now.place }
    requires inside { NamesInside text.now plan.now.name_at plan.now.name_len plan.now.counts.events }
    requires events_bound { (at + length (named_moves text.now plan.now.name_at plan.now.name_len moves.now.pre moves.now.post m plan.now.counts.events) ≤ size) × (size ≤ length out.old) }
    ensures { WritesWithin (named_moves text.now plan.now.name_at plan.now.name_len moves.now.pre moves.now.post m plan.now.counts.events) at size out.old result out.new }
{
    let mut i = at;
    for e in 0..plan.counts.events {
        let k = e * MAX_MACHINES + m;
        let q = moves.pre[k];
        if usize::from(q) < MAX_PLACES {
            let post = moves.post[k];
            i = write_move(
                text,
                plan.name_at[e],
                plan.name_len[e],
                q,
                post,
                out,
                i,
                size,
            );
        }
    }
    i
}

// What stands before the moves of machine m.
fn write_head(m: usize, size: usize, start: u8, out: &mut [u8], at: usize) -> usize
    requires { (m ≤ 999) × (size ≤ 999) × (at + length (head_bytes m size start) ≤ length out.old) }
    ensures { Writes (head_bytes m size start) at out.old result out.new }
{
    let a = write_bytes(b"(machine ", out, at);
    let b = write_figure(m, out, a);
    let c = write_bytes(b" (places ", out, b);
    let d = write_figure(size, out, c);
    let e = write_bytes(b") (start ", out, d);
    let f = write_figure(usize::from(start), out, e);
    write_bytes(b")", out, f)
}

// The whole sheet, at the beginning of the buffer.
pub fn write_sheet(text: &[u8], plan: &Tables, moves: &Moves, out: &mut [u8], size: usize)
    requires sheet_ready { SheetReady text.now plan.now.counts plan.now.name_at plan.now.name_len plan.now.sizes plan.now.place moves.now.pre moves.now.post }
    requires size_value { (size ≡ sheet_size text.now plan.now.counts plan.now.name_at plan.now.name_len plan.now.sizes plan.now.place moves.now.pre moves.now.post) × (size ≤ length out.old) }
    ensures { SheetLeft text.now plan.now.counts plan.now.name_at plan.now.name_len plan.now.sizes plan.now.place moves.now.pre moves.now.post out.old out.new }
{
    let machines = plan.counts.machines;
    let a = write_bytes(b"(accepted ", out, 0);
    let b = write_figure(machines, out, a);
    let mut i = write_bytes(b")\n", out, b);
    for m in 0..machines {
        let initial = plan.counts.initial;
        let start = plan.place[m * MAX_STATES + initial];
        let head = write_head(m, plan.sizes[m], start, out, i);
        let end = write_moves(text, plan, moves, m, out, head, size);
        i = write_bytes(b")\n", out, end);
    }
}
