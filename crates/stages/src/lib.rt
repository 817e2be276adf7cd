// A text read and checked as far as a row of document 01's table: what a service begins with.
#![tactic(auto)]

ghost use Rattle.rows.specs.Tables.{FreshTables};
ghost use Rattle.stages.specs.Stages.{ReadAsFarAs7, Fresh, ReadAsFarAs10, ReadAsFarAs12};

use closure::check_cover;
use in_turn::check_as_far_as_10;
use model::Refusal;
use reader::read_rows;
use rows::{Moves, Tables};
pub use transition_system::EXCITATION_WORDS;
use transition_system::check_transition_system;

mod in_turn; // refusals 4 to 10 of rows

// The text's refusal as far as 7. Passed, the tables have what it holds. Inlined, it takes less of the stack of a service.
#[inline]
pub fn read_as_far_as_7(text: &[u8], plan: &mut Tables) -> Result<(), Refusal>
    requires { FreshTables plan.old }
    ensures { ReadAsFarAs7 text.now result plan.new }
{
    read_rows(text, plan)?;
    let mut excited = [0u64; EXCITATION_WORDS];
    check_transition_system(&plan.counts, plan.transitions(), &mut excited)
}

// The text's refusal as far as 10. Passed, the tables have what it holds, and the other rows its machines' moves and the excitation sets.
pub fn read_as_far_as_10(
    text: &[u8],
    plan: &mut Tables,
    moves: &mut Moves,
    excited: &mut [u64; EXCITATION_WORDS],
) -> Result<(), Refusal>
    requires fresh_rows { FreshTables plan.old }
    requires fresh { Fresh moves.old.pre moves.old.post excited.old }
    ensures { ReadAsFarAs10 text.now result plan.new moves.new.pre moves.new.post excited.new }
{
    read_rows(text, plan)?;
    check_as_far_as_10(plan, moves, excited)
}

// The same as far as 12.
pub fn read_as_far_as_12(
    text: &[u8],
    plan: &mut Tables,
    moves: &mut Moves,
    excited: &mut [u64; EXCITATION_WORDS],
) -> Result<(), Refusal>
    requires fresh_rows { FreshTables plan.old }
    requires fresh { Fresh moves.old.pre moves.old.post excited.old }
    ensures { ReadAsFarAs12 text.now result plan.new moves.new.pre moves.new.post excited.new }
{
    read_as_far_as_10(text, plan, moves, excited)?;
    check_cover(plan, excited, &moves.pre)
}
