// Refusals 4 to 10 of rows, in the fixed order.
ghost use Rattle.rows.specs.Bounded.{Bounded};
ghost use Rattle.regions.specs.Regions.{rows_of};
ghost use Rattle.rows.specs.Sizes.{CheckedSizes};
ghost use Rattle.stages.specs.Order.{ChecksRows};
ghost use Rattle.stages.specs.Stages.{Fresh};

use model::Refusal;
use regions::check_regions;
use rows::{Moves, Tables};
use transition_system::{EXCITATION_WORDS, check_transition_system};

// Passed, the rows have the moves and the excitation sets, for 11 and 12 and what comes after.
pub fn check_as_far_as_10(
    plan: &Tables,
    moves: &mut Moves,
    excited: &mut [u64; EXCITATION_WORDS],
) -> Result<(), Refusal>
    requires bounded { Bounded (rows_of plan.now.counts plan.now.source plan.now.event plan.now.target plan.now.duplicate plan.now.place) }
    requires checked_sizes { CheckedSizes plan.now.source plan.now.event plan.now.target plan.now.duplicate plan.now.place × Fresh moves.old.pre moves.old.post excited.old }
    ensures { ChecksRows plan.now.counts plan.now.source plan.now.event plan.now.target plan.now.duplicate plan.now.place moves.new.pre moves.new.post excited.new result }
{
    check_transition_system(&plan.counts, plan.transitions(), excited)?;
    check_regions(plan, moves)
}
