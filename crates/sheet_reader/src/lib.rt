// Reads a sheet into rows: the names on it, and the moves by event and machine. Document 02, slip 1.
#![tactic(auto)]

ghost use Rattle.sheet_reader.specs.Lent.{lent};
ghost use Rattle.sheet_reader.specs.Sheets.{FreshSheet, ReadsSheet};

use lexer::FigureAt;
use machine_line::read_line;
use model::{MAX_EVENTS, MAX_MACHINES, MAX_TEXT, Refusal};
use names::{HINTS, Names};
use rows::{MOVES, Moves, NOT_ON};
use sheet_lines::read_count;

mod machine_line; // the line of a machine
mod moves; // its moves, one after another

// What a sheet holds: the names on it, the moves of its machines, and the place that each machine starts in.
#[derive(Drop)]
pub struct SheetRows {
    pub names: Names,
    pub moves: Moves,
    pub starts: [u8; MAX_MACHINES],
}

impl SheetRows {
    // No sheet is read into them yet. Apart from its caller, in whose frame the compiler would keep the rows twice, and written out, since it would keep those of
    // `Names::none` and `Moves::none` twice too. Both rows of moves have one filling, so that they are cleared where they lie: with 0 in one of them they are made beside it and copied.
    #[inline(never)]
    pub fn fresh() -> SheetRows
        ensures { FreshSheet result }
    {
        SheetRows {
            names: Names {
                count: 0,
                len: [0; MAX_EVENTS],
                high: [0; MAX_EVENTS],
                low: [0; MAX_EVENTS],
                hints: [0; HINTS],
            },
            moves: Moves {
                pre: [NOT_ON; MOVES],
                post: [NOT_ON; MOVES],
            },
            starts: [0; MAX_MACHINES],
        }
    }
}

// How many machines a sheet has, which go into fresh rows. Where a line of it is faulty the rows are of no use.
pub fn read_sheet(s: &[u8], sheet: &mut SheetRows) -> Result<usize, Refusal>
    requires { FreshSheet sheet.old }
    ensures { ReadsSheet s.now result sheet.new.names.count (lent sheet.new.names sheet.new.moves) sheet.new.starts }
{
    if MAX_TEXT < s.len() {
        return Err(Refusal::BadSheet { line: 0 });
    }
    let Some(FigureAt { value: n, next }) = read_count(s, 0) else {
        return Err(Refusal::BadSheet { line: 1 });
    };
    if n < 1 || MAX_MACHINES < n {
        return Err(Refusal::BadSheet { line: 1 });
    }
    let mut i = next;
    for k in 0..n {
        let Ok(line) = read_line(s, i, &mut sheet.names, &mut sheet.moves, k) else {
            return Err(Refusal::BadSheet { line: k + 2 });
        };
        sheet.starts[k] = line.start as u8;
        i = line.next;
    }
    if i < s.len() {
        return Err(Refusal::BadSheet { line: n + 2 });
    }
    Ok(n)
}
