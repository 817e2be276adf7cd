// The places of a machine line, marked in a row as they are read.
ghost use Rattle.std.specs.Prelude.{◌≡◌, ◌≤◌};
ghost use Rattle.model.specs.Reading.{many};
ghost use Rattle.model.specs.Form.{place, spaced_figure};
ghost use Rattle.lines.specs.Marking.{marking, marked, marked_all, up_to64, opened, PlaceRead, PlacesRead};

use lexer::{read_figure, read_literal, read_spaced_figure};
use model::MAX_PLACES;
use rows::UNPLACED;

// What is known of a machine's states so far: whether all are declared, the lowest that was listed twice, or NO_STATE as in the row of numbers that takes it,
// and in a row the place of each, or UNPLACED.
#[derive(Drop)]
pub struct Marks {
    pub declared: bool,
    pub duplicate: usize,
    pub row: [u8; 256],
}

impl Marks {
    // A state of place p goes into the row if it is below n; the first place that lists it counts.
    fn mark(&mut self, n: usize, p: u8, x: usize)
        requires { n ≤ 256 }
        ensures { marking self.new ≡ marked n p (marking self.old) x }
    {
        if n <= x {
            self.declared = false;
        } else if self.row[x] == UNPLACED {
            self.row[x] = p;
        } else {
            self.duplicate = self.duplicate.min(x);
        }
    }
}

// The other states of a place, each after a space, and the position after them.
fn mark_states(s: &[u8], at: usize, n: usize, p: u8, marks: &mut Marks) -> usize
    requires { n ≤ 256 }
    ensures next_value { result ≡ (many spaced_figure s.now at).1 }
    ensures row_after { marking marks.new ≡ marked_all n p (marking marks.old) (many spaced_figure s.now at).0 }
{
    let mut next = at;
    while let Some(state) = read_spaced_figure(s, next) {
        marks.mark(n, p, state.value);
        next = state.next;
    }
    next
}

// A place, after the bracket that opens it, and the position after it. Where it is missing the row is of no use any more.
fn mark_place(s: &[u8], at: usize, n: usize, p: u8, marks: &mut Marks) -> Option<usize>
    requires { n ≤ 256 }
    ensures { PlaceRead n p (marking marks.old) (opened s.now at) result (marking marks.new) }
{
    let first = read_figure(s, at)?;
    marks.mark(n, p, first.value);
    let end = mark_states(s, first.next, n, p, marks);
    read_literal(s, end, b")")
}

// The number of a place. Past the limit any but UNPLACED serves, since the row is dropped.
fn place_number(k: usize) -> u8
    ensures { result ≡ up_to64 k }
{
    k.min(MAX_PLACES) as u8
}

// How many places a machine line lists, and the position after them.
#[derive(Clone, Copy)]
pub struct Places {
    pub count: usize,
    pub next: usize,
}

// The places of a machine line, unless one has no form.
pub fn mark_places(s: &[u8], at: usize, n: usize, marks: &mut Marks) -> Option<Places>
    requires { n ≤ 256 }
    ensures { PlacesRead n (marking marks.old) s.now (many place s.now at) result (marking marks.new) }
{
    let mut count = 0;
    let mut next = at;
    while let Some(opened) = read_literal(s, next, b" (") {
        next = mark_place(s, opened, n, place_number(count), marks)?;
        count += 1;
    }
    Some(Places { count, next })
}
