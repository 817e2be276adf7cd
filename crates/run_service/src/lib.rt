// The service Run. It takes any bytes, and its contract is an equation with the model's definition of it.
#![tactic(auto)]

ghost use Rattle.std.specs.Prelude.{◌≡◌, ℕ, List};
ghost use Rattle.model.specs.Services as Services;
ghost use Rattle.stages.specs.Stages.{ReadAsFarAs12};
ghost use Rattle.product.specs.Answers.{run_answer};

use model::Refusal;
use product::{RunAnswer, places_of, refused, run_events};
use rows::{Moves, Tables};
use stages::read_as_far_as_12;
use transition_system::EXCITATION_WORDS;

// Run: the events one after another on the machines together, from the places with the initial state.
#[tactic(auto, using(stages::proofs::Stages::fresh_moves))]
pub fn run(text: &[u8], events: &[u8]) -> RunAnswer
    ensures { run_answer result ≡ Services.run text.now events.now }
{
    let mut plan = Tables::fresh();
    let mut moves = Moves::none();
    let mut excited = [0u64; EXCITATION_WORDS];
    let read = read_as_far_as_12(text, &mut plan, &mut moves, &mut excited);
    run_in_split(read, &plan, &moves, text, events)
}

// The same on a text that is read as far as 12 into the rows.
pub fn run_in_split(
    read: Result<(), Refusal>,
    plan: &Tables,
    moves: &Moves,
    text: &[u8],
    events: &[u8],
) -> RunAnswer
    requires { (excited : List ℕ) × ReadAsFarAs12 text.now read plan.now moves.now.pre moves.now.post excited }
    ensures { run_answer result ≡ Services.run text.now events.now }
{
    if let Err(why) = read {
        return refused(why);
    }
    let counts = plan.counts;
    let start = places_of(plan, counts.initial);
    run_events(moves, counts.machines, counts.events, start, events)
}
