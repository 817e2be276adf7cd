// Refusals 8 to 10 of each machine, and the moves of the events on it.
#![tactic(auto)]

ghost use Rattle.std.specs.Prelude.{◌≤◌, length};
ghost use Rattle.regions.specs.Regions.{Checkable, RegionsTold};

use at_once::pass_at_once;
use chains::{Chains, index_by_event};
use in_turn::check_in_turn;
use model::{MAX_EVENTS, MAX_TRANSITIONS, Refusal};
pub use rows::{MOVES, NOT_ON};
use rows::{Moves, Tables};

mod at_once; // all machines at once: whether all pass, and then the moves
mod chains; // the transitions of each event, one after another
mod crossings; // how a transition leads through a machine
mod in_turn; // machine by machine, which names machine and event
mod lanes; // the places of all machines side by side, and one comparison for all

// So many transitions at most take a shorter chain, which takes less time to clear.
const FEW_TRANSITIONS: usize = 64;

// 8, 9, 10 of each machine, with room for the chains of transitions. Only where not all machines pass at once is the refusal looked for.
fn check_along(plan: &Tables, next: &mut [u16], moves: &mut Moves) -> Result<(), Refusal>
    requires checkable { let p = plan.now in Checkable p.counts p.source p.event p.target p.duplicate p.place moves.old.pre moves.old.post }
    requires room { plan.now.counts.transitions ≤ length next.old }
    ensures { let p = plan.now in RegionsTold p.counts p.source p.event p.target p.duplicate p.place result moves.new.pre moves.new.post }
{
    let mut first = [plan.counts.transitions as u16; MAX_EVENTS];
    index_by_event(plan, &mut first, next);
    let chains = Chains {
        first: &first,
        next,
    };
    if pass_at_once(plan, chains, moves) {
        return Ok(());
    }
    check_in_turn(plan, chains, moves)
}

// 8, 9, 10 of each machine. Passed, the rows have the move of each event on each machine.
pub fn check_regions(plan: &Tables, moves: &mut Moves) -> Result<(), Refusal>
    requires { let p = plan.now in Checkable p.counts p.source p.event p.target p.duplicate p.place moves.old.pre moves.old.post }
    ensures { let p = plan.now in RegionsTold p.counts p.source p.event p.target p.duplicate p.place result moves.new.pre moves.new.post }
{
    if plan.counts.transitions <= FEW_TRANSITIONS {
        let mut next = [0u16; FEW_TRANSITIONS];
        return check_along(plan, &mut next, moves);
    }
    let mut next = [0u16; MAX_TRANSITIONS];
    check_along(plan, &mut next, moves)
}
