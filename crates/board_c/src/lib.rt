// A board's two calls for C and Rust, and nothing of the planner's: each answer is flat, a struct of numbers whose unused fields are 0. include/board.h declares them.
#![tactic(auto)]

ghost use Rattle.std.specs.Prelude.{◌≡◌};
ghost use Rattle.model.specs.Board as Board;
ghost use Rattle.flat.specs.Flat.{flat_answer, flat_run};

use board_service::{board, sheet};
use flat::{FlatAnswer, FlatRun};

#[unsafe(no_mangle)]
pub extern "C" fn board_sheet(bytes: &[u8], out: &mut [u8]) -> FlatAnswer
    ensures value { result ≡ flat_answer (Board.rewrite bytes.now out.old).answer }
    ensures out_after { out.new ≡ (Board.rewrite bytes.now out.old).left }
{
    FlatAnswer::from(sheet(bytes, out))
}

#[unsafe(no_mangle)]
pub extern "C" fn board_run(bytes: &[u8], names: &[u8]) -> FlatRun
    ensures { result ≡ flat_run (Board.board_run bytes.now names.now) }
{
    FlatRun::from(board(bytes, names))
}
