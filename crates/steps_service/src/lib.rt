// The service Steps. It takes any bytes, and its contract is an equation with the model's definition of it.
#![tactic(auto)]

ghost use Rattle.std.specs.Prelude.{◌≡◌, map, length};
ghost use Rattle.model.specs.Cases.{recorded};
ghost use Rattle.model.specs.Services as Services;
ghost use Rattle.answers.specs.Answers.{answered};
ghost use Rattle.steps_service.specs.Listing.{Lists};

use listing::{NUMBERS, fill, list_transitions};
use model::{Refusal, Transition};
use rows::Tables;
use stages::read_as_far_as_7;

// What Steps answers where `room` records are lent, and the transitions' numbers if they fit.
fn list(text: &[u8], room: usize, row: &mut [u8; NUMBERS]) -> Result<usize, Refusal>
    ensures { Lists text.now room row.new result }
{
    let mut plan = Tables::fresh();
    read_as_far_as_7(text, &mut plan)?;
    let needed = plan.counts.transitions;
    if room < needed {
        return Err(Refusal::BufferTooShort { needed }); // 13 short sheet
    }
    list_transitions(plan.transitions(), needed, row);
    Ok(needed)
}

// Steps: the transitions, in line order, into the first records lent; or the refusal and no record changed.
pub fn steps(text: &[u8], out: &mut [Transition]) -> Result<usize, Refusal>
    ensures { (answered result ≡ (Services.steps text.now (map recorded out.old)).answer)
        × (map recorded out.new ≡ (Services.steps text.now (map recorded out.old)).left) }
{
    let mut row = [0u8; NUMBERS];
    let count = list(text, out.len(), &mut row)?;
    fill(out, &row, count);
    Ok(count)
}
