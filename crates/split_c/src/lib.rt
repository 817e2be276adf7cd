// The services for C and Rust: each answer is flat, a struct of numbers whose unused fields are 0. include/split.h declares them.
#![tactic(auto)]

ghost use Rattle.std.specs.Prelude.{◌≡◌, map};
ghost use Rattle.model.specs.Cases.{recorded};
ghost use Rattle.model.specs.Services as Services;
ghost use Rattle.model.specs.Board as Board;
ghost use Rattle.thin_service.specs.Answers.{numbered_set};
ghost use Rattle.flat.specs.Flat.{flat_answer, flat_run};
ghost use Rattle.split_c.specs.Flat.{flat_part, flat_set};

use answers::RefusalNumbers;
use flat::{FlatAnswer, FlatRun};
use model::Transition;
use name_service::name_part;
use splitter::{board, check, merge, quote, run, sheet, steps, thin};

#[unsafe(no_mangle)]
pub extern "C" fn split_check(text: &[u8], out: &mut [u8]) -> FlatAnswer
    ensures value { result ≡ flat_answer (Services.check text.now out.old).answer }
    ensures out_after { out.new ≡ (Services.check text.now out.old).left }
{
    FlatAnswer::from(check(text, out))
}

#[unsafe(no_mangle)]
pub extern "C" fn split_steps(text: &[u8], out: &mut [Transition]) -> FlatAnswer
    ensures { (result ≡ flat_answer (Services.steps text.now (map recorded out.old)).answer)
        × (map recorded out.new ≡ (Services.steps text.now (map recorded out.old)).left) }
{
    FlatAnswer::from(steps(text, out))
}

// What name answers: a refusal, or where the name stands in the text. A refusal has three fields of each struct: the C interface.
#[repr(C)]
#[derive(Drop)]
pub struct SplitName {
    pub number: usize,
    pub detail: usize,
    pub second: usize,
    pub from: usize,
    pub size: usize,
}

#[unsafe(no_mangle)]
#[tactic(auto, unfolding(name_service::specs::Parts::part_in))]
pub extern "C" fn split_name(text: &[u8], event: usize) -> SplitName
    ensures { result ≡ flat_part (Services.name text.now event) }
{
    match name_part(text, event) {
        Ok(part) => SplitName {
            number: 0,
            detail: 0,
            second: 0,
            from: part.from,
            size: part.end - part.from,
        },
        Err(why) => {
            let n = RefusalNumbers::from(why);
            SplitName {
                number: n.number,
                detail: n.detail,
                second: n.second,
                from: 0,
                size: 0,
            }
        }
    }
}

#[unsafe(no_mangle)]
pub extern "C" fn split_run(text: &[u8], events: &[u8]) -> FlatRun
    ensures { result ≡ flat_run (Services.run text.now events.now) }
{
    FlatRun::from(run(text, events))
}

// What thin answers: a refusal, or the machines that are kept, bit i for machine i, and how many they are.
#[repr(C)]
#[derive(Drop)]
pub struct SplitSet {
    pub number: usize,
    pub detail: usize,
    pub second: usize,
    pub machines: usize,
    pub size: usize,
}

#[unsafe(no_mangle)]
pub extern "C" fn split_thin(text: &[u8]) -> SplitSet
    ensures { result ≡ flat_set (numbered_set (Services.thin text.now)) }
{
    match thin(text) {
        Ok(kept) => SplitSet {
            number: 0,
            detail: 0,
            second: 0,
            machines: usize::from(kept.machines),
            size: kept.size,
        },
        Err(why) => {
            let n = RefusalNumbers::from(why);
            SplitSet {
                number: n.number,
                detail: n.detail,
                second: n.second,
                machines: 0,
                size: 0,
            }
        }
    }
}

// What merge and quote answer is flat as what check answers.
#[unsafe(no_mangle)]
pub extern "C" fn split_merge(text: &[u8], out: &mut [u8]) -> FlatAnswer
    ensures value { result ≡ flat_answer (Services.merge text.now out.old).answer }
    ensures out_after { out.new ≡ (Services.merge text.now out.old).left }
{
    FlatAnswer::from(merge(text, out))
}

#[unsafe(no_mangle)]
pub extern "C" fn split_quote(text: &[u8], out: &mut [u8]) -> FlatAnswer
    ensures value { result ≡ flat_answer (Services.quote text.now out.old).answer }
    ensures out_after { out.new ≡ (Services.quote text.now out.old).left }
{
    FlatAnswer::from(quote(text, out))
}

// The two calls on a sheet, as a board has them (board_c).
#[unsafe(no_mangle)]
pub extern "C" fn split_sheet(bytes: &[u8], out: &mut [u8]) -> FlatAnswer
    ensures value { result ≡ flat_answer (Board.rewrite bytes.now out.old).answer }
    ensures out_after { out.new ≡ (Board.rewrite bytes.now out.old).left }
{
    FlatAnswer::from(sheet(bytes, out))
}

#[unsafe(no_mangle)]
pub extern "C" fn split_board(bytes: &[u8], names: &[u8]) -> FlatRun
    ensures { result ≡ flat_run (Board.board_run bytes.now names.now) }
{
    FlatRun::from(board(bytes, names))
}
