// The service Thin. It takes any bytes, and its contract is an equation with the model's definition of it.
#![tactic(auto)]

ghost use Rattle.std.specs.Prelude.{◌≡◌};
ghost use Rattle.model.specs.Services as Services;
ghost use Rattle.thin_service.specs.Answers.{thinned, numbered_set};

pub use irredundant::Kept;
use irredundant::remove_redundant;
use model::Refusal;
use rows::{Moves, Tables};
use stages::read_as_far_as_10;
use transition_system::EXCITATION_WORDS;

// Thin: from the highest machine to the lowest, a machine is dropped if those still kept suffice without it.
#[tactic(auto, using(stages::proofs::Stages::fresh_moves))]
pub fn thin(text: &[u8]) -> Result<Kept, Refusal>
    ensures { thinned result ≡ numbered_set (Services.thin text.now) }
{
    let mut plan = Tables::fresh();
    let mut moves = Moves::none();
    let mut excited = [0u64; EXCITATION_WORDS];
    read_as_far_as_10(text, &mut plan, &mut moves, &mut excited)?;
    remove_redundant(&plan, &excited, &moves.pre)
}
