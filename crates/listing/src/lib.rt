// The transitions of a text as one row of numbers, three to a transition; and step records filled from such a row.
#![tactic(auto)]

ghost use Rattle.std.specs.Prelude.{◌≡◌, map, ◌<◌, ◌≤◌, ◌+◌, ◌*◌, length};
ghost use Rattle.model.specs.Cases.{recorded};
ghost use Rattle.rows.specs.Told.{first_transitions};
ghost use Rattle.listing.specs.Records.{record_at, first_records, filled};

use model::Transition;
use rows::Transitions;

// Room for the numbers of 1,024 transitions, the most that a text has.
pub const NUMBERS: usize = 3072;

// Three numbers to each transition, in line order.
pub fn list_transitions(transitions: Transitions, n: usize, numbers: &mut [u8])
    requires { let t = transitions in (n ≤ length t.source.now) × (n ≤ length t.event.now) × (n ≤ length t.target.now) × (3 * n ≤ length numbers.old) }
    ensures { let t = transitions.entry in map recorded (first_records numbers.new n) ≡ first_transitions t.source.now t.event.now t.target.now n }
{
    for k in 0..n {
        let at = 3 * k;
        numbers[at] = transitions.source[k];
        numbers[at + 1] = transitions.event[k];
        numbers[at + 2] = transitions.target[k];
    }
}

// Record i of the row.
fn record_at(numbers: &[u8], i: usize) -> Transition
    requires { 3 * i + 2 < length numbers.now }
    ensures { result ≡ record_at numbers.now i }
{
    let at = 3 * i;
    Transition {
        source: numbers[at],
        event: numbers[at + 1],
        target: numbers[at + 2],
    }
}

// The first k records are filled; the others stay.
pub fn fill(out: &mut [Transition], numbers: &[u8], k: usize)
    requires { (k ≤ length out.old) × (3 * k ≤ length numbers.now) }
    ensures { out.new ≡ filled numbers.now k out.old }
{
    for i in 0..k {
        out[i] = record_at(numbers, i);
    }
}
