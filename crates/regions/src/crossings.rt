// How a transition leads through a machine.
ghost use Rattle.std.specs.Prelude.{◌≡◌, ◌<◌};
ghost use Rattle.regions.specs.Crossings.{crossing_at, agreeing, pre_mark};

use model::MAX_STATES;
use rows::{NOT_ON, Tables};

// From place to place.
#[derive(Clone, Copy, PartialEq)]
pub struct Crossing {
    pub pre: u8,
    pub post: u8,
}

// Transition k through machine m.
pub fn crossing_at(plan: &Tables, m: usize, k: usize) -> Crossing
    requires { (m < 16) × (k < 1024) }
    ensures { let p = plan.now in result ≡ crossing_at p.source p.target p.place m k }
{
    let from = m * MAX_STATES;
    Crossing {
        pre: plan.place[from + usize::from(plan.source[k])],
        post: plan.place[from + usize::from(plan.target[k])],
    }
}

// Both stay in their place, or both lead from one place to the same other place.
pub fn agrees(a: Crossing, b: Crossing) -> bool
    ensures { result ≡ agreeing a b }
{
    if a.pre == a.post {
        b.pre == b.post
    } else {
        a == b
    }
}

// The pre-place of an event whose transitions lead through a machine like this.
pub fn pre_of(a: Crossing) -> u8
    ensures { result ≡ pre_mark a }
{
    if a.pre == a.post { NOT_ON } else { a.pre }
}
