// The calls that are given a sheet. They take any bytes, and each contract is an equation with the model's definition of the call.
#![tactic(auto)]

ghost use Rattle.std.specs.Prelude.{◌≡◌};
ghost use Rattle.model.specs.Board as Board;
ghost use Rattle.answers.specs.Answers.{answered};
ghost use Rattle.product.specs.Answers.{run_answer};
ghost use Rattle.board_service.specs.Boards.{RunsBoard};

use model::Refusal;
use product::{RunAnswer, refused};
use running::run_names;
use sheet_reader::{SheetRows, read_sheet};
use writers::write_bytes;

mod name_list; // a name of the list, looked up
mod running; // the names one after another

// The machines of a sheet into the first bytes of the lent buffer, or the refusal and no byte changed. A good sheet is what its machines write, so its bytes are
// copied.
pub fn sheet(sheet: &[u8], out: &mut [u8]) -> Result<usize, Refusal>
    ensures result_value { answered result ≡ (Board.rewrite sheet.now out.old).answer }
    ensures out_after { out.new ≡ (Board.rewrite sheet.now out.old).left }
{
    let mut rows = SheetRows::fresh();
    read_sheet(sheet, &mut rows)?; // 15 bad sheet
    let size = sheet.len();
    if out.len() < size {
        return Err(Refusal::BufferTooShort { needed: size }); // 13 short sheet
    }
    Ok(write_bytes(sheet, out, 0))
}

// What a list of names comes to on the machines of a sheet, and how many machines there are. That is 0 where the sheet is bad, and no Option: so `RunsBoard` has it.
#[derive(Drop)]
pub struct BoardRun {
    pub machines: usize,
    pub answer: RunAnswer,
}

pub fn run_board(sheet: &[u8], names: &[u8]) -> BoardRun
    ensures { RunsBoard sheet.now names.now result.machines result.answer }
{
    let mut rows = SheetRows::fresh();
    match read_sheet(sheet, &mut rows) {
        Ok(machines) => BoardRun {
            machines,
            answer: run_names(names, &rows, machines),
        },
        Err(why) => BoardRun {
            machines: 0,
            answer: refused(why), // 15 bad sheet
        },
    }
}

// The run from the sheet alone: the events by their names, each ended by byte 10, from the start places.
pub fn board(sheet: &[u8], names: &[u8]) -> RunAnswer
    ensures { run_answer result ≡ Board.board_run sheet.now names.now }
{
    run_board(sheet, names).answer
}
