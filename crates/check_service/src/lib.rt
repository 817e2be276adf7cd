// The service Check and sheet. It takes any bytes, and its contract is an equation with the model's definition of it.
#![tactic(auto)]

ghost use Rattle.std.specs.Prelude.{◌≡◌};
ghost use Rattle.model.specs.Services as Services;
ghost use Rattle.sheet.specs.Rows.{SheetReady};
ghost use Rattle.answers.specs.Answers.{answered};
ghost use Rattle.check_service.specs.Handed.{HandsOver};

use model::Refusal;
use rows::{Moves, Tables};
use sheet::{sheet_len, write_sheet};
use stages::read_as_far_as_12;
use transition_system::EXCITATION_WORDS;

// The sheet into the first bytes of the lent buffer, if it is long enough.
pub fn hand_over(
    text: &[u8],
    plan: &Tables,
    moves: &Moves,
    out: &mut [u8],
) -> Result<usize, Refusal>
    requires { SheetReady text.now plan.now.counts plan.now.name_at plan.now.name_len plan.now.sizes plan.now.place moves.now.pre moves.now.post }
    ensures { HandsOver text.now plan.now.counts plan.now.name_at plan.now.name_len plan.now.sizes plan.now.place moves.now.pre moves.now.post out.old result out.new }
{
    let lent = out.len();
    let size = sheet_len(plan, moves);
    if lent < size {
        return Err(Refusal::BufferTooShort { needed: size }); // 13 short sheet
    }
    write_sheet(text, plan, moves, out, size);
    Ok(size)
}

// Check and sheet: the sheet into the first bytes of the lent buffer, or the refusal and no byte changed.
#[tactic(auto, using(stages::proofs::Stages::fresh_moves))]
pub fn check(text: &[u8], out: &mut [u8]) -> Result<usize, Refusal>
    ensures result_value { answered result ≡ (Services.check text.now out.old).answer }
    ensures out_after { out.new ≡ (Services.check text.now out.old).left }
{
    let mut plan = Tables::fresh();
    let mut moves = Moves::none();
    let mut excited = [0u64; EXCITATION_WORDS];
    read_as_far_as_12(text, &mut plan, &mut moves, &mut excited)?;
    hand_over(text, &plan, &moves, out)
}
