// The service Merge. It takes any bytes, and its contract is an equation with the model's definition of it.
#![tactic(auto)]

ghost use Rattle.std.specs.Prelude.{◌≡◌};
ghost use Rattle.model.specs.Services as Services;
ghost use Rattle.answers.specs.Answers.{answered};

use check_service::hand_over;
use merging::merge_places;
use model::Refusal;
use rows::{Moves, Tables};
use stages::read_as_far_as_10;
use transition_system::EXCITATION_WORDS;

// Merge: the merged split's sheet into the first bytes of the lent buffer, or the refusal and no byte changed.
#[tactic(auto, using(stages::proofs::Stages::fresh_moves))]
pub fn merge(text: &[u8], out: &mut [u8]) -> Result<usize, Refusal>
    ensures result_value { answered result ≡ (Services.merge text.now out.old).answer }
    ensures out_after { out.new ≡ (Services.merge text.now out.old).left }
{
    let mut plan = Tables::fresh();
    let mut moves = Moves::none();
    let mut excited = [0u64; EXCITATION_WORDS];
    read_as_far_as_10(text, &mut plan, &mut moves, &mut excited)?;
    merge_places(&mut plan, &mut moves, &excited)?; // 11 and 12 too
    hand_over(text, &plan, &moves, out)
}
