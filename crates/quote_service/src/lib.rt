// The service Quote. It takes any bytes, and its contract is an equation with the model's definition of it.
#![tactic(auto)]

ghost use Rattle.std.specs.Prelude.{◌≡◌};
ghost use Rattle.model.specs.Services as Services;
ghost use Rattle.quotation.specs.Lines.{QuotationReady};
ghost use Rattle.answers.specs.Answers.{answered};
ghost use Rattle.quote_service.specs.Handed.{IsShort, HandsOver};

use irredundant::remove_redundant;
use model::Refusal;
use quotation::write_quotation;
use rows::{MOVES, Moves, Tables};
use stages::read_as_far_as_10;
use transition_system::EXCITATION_WORDS;
use writers::write_bytes;

// The bytes of the longest quotation.
const LONGEST: usize = 2566;

// The quotation of the machines that are kept into the first bytes of the lent buffer, if it is long enough. It is written beside the buffer first,
// since its length is known only then; and apart from the call, so that what is written does not lie in the stack below the thinning.
#[inline(never)]
fn hand_over_quotation(
    text: &[u8],
    plan: &Tables,
    pre: &[u8; MOVES],
    kept: u16,
    out: &mut [u8],
) -> Result<usize, Refusal>
    requires ready { QuotationReady text.now plan.now.counts plan.now.name_at plan.now.name_len plan.now.sizes pre.now }
    requires short { IsShort text.now plan.now.counts plan.now.name_at plan.now.name_len plan.now.sizes pre.now kept }
    ensures { HandsOver text.now plan.now.counts plan.now.name_at plan.now.name_len plan.now.sizes pre.now kept out.old result out.new }
{
    let mut quotation = [0u8; LONGEST];
    let size = write_quotation(text, plan, pre, kept, &mut quotation);
    if out.len() < size {
        return Err(Refusal::BufferTooShort { needed: size }); // 13 short sheet
    }
    write_bytes(&quotation[..size], out, 0);
    Ok(size)
}

// Quote: the quotation of the thinned split into the first bytes of the lent buffer, or the refusal and no byte changed.
#[tactic(auto, using(stages::proofs::Stages::fresh_moves))]
pub fn quote(text: &[u8], out: &mut [u8]) -> Result<usize, Refusal>
    ensures result_value { answered result ≡ (Services.quote text.now out.old).answer }
    ensures out_after { out.new ≡ (Services.quote text.now out.old).left }
{
    let mut plan = Tables::fresh();
    let mut moves = Moves::none();
    let mut excited = [0u64; EXCITATION_WORDS];
    read_as_far_as_10(text, &mut plan, &mut moves, &mut excited)?;
    let kept = remove_redundant(&plan, &excited, &moves.pre)?;
    hand_over_quotation(text, &plan, &moves.pre, kept.machines, out)
}
