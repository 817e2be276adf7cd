// 8 to 10 of all machines at once: whether all pass, and then the moves.
ghost use Rattle.std.specs.Prelude.{◌≡◌, true, ℕ, ◌<◌, ◌≤◌};
ghost use Rattle.rows.specs.Told.{entry};
ghost use Rattle.regions.specs.Regions.{CheckableAlong, PassesAtOnce};

use super::chains::Chains;
use super::lanes::agree_at_once;
use rows::{Moves, NO_STATE, Tables};

// 8: no machine lists a state twice.
fn none_twice(plan: &Tables) -> bool
    requires { plan.now.counts.machines ≤ 16 }
    ensures { result ≡ true → (m : ℕ) → m < plan.now.counts.machines → entry plan.now.duplicate m ≡ 256 }
{
    plan.duplicate[..plan.counts.machines]
        .iter()
        .all(|state| *state == NO_STATE)
}

// 8, 9, 10 of all machines at once. The answer no tells nothing.
pub fn pass_at_once(plan: &Tables, chains: Chains, moves: &mut Moves) -> bool
    requires { let p = plan.now in CheckableAlong p.counts p.source p.target p.duplicate p.place chains.first.now chains.next.now moves.old.pre moves.old.post }
    ensures { let p = plan.now in PassesAtOnce p.counts p.source p.target p.duplicate p.place chains.entry.first.now chains.entry.next.now result moves.new.pre moves.new.post }
{
    none_twice(plan) && agree_at_once(plan, chains, moves)
}
