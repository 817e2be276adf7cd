// The line of a machine: its head, its moves and its end.
ghost use Rattle.std.specs.Prelude.{◌<◌, ◌≤◌};
ghost use Rattle.sheet_reader.specs.Lent.{lent, Holding};
ghost use Rattle.sheet_reader.specs.Lines.{ReadsLine};

use super::moves::{BadLine, Machine, read_moves};
use lexer::read_literal;
use names::Names;
use rows::Moves;
use sheet_lines::read_head;

// A machine's line: the machine's start, and the position after the line.
#[derive(Clone, Copy)]
pub struct LineAt {
    pub start: usize,
    pub next: usize,
}

// The line of machine m at a position, its moves into the rows.
pub fn read_line(
    s: &[u8],
    at: usize,
    names: &mut Names,
    moves: &mut Moves,
    m: usize,
) -> Result<LineAt, BadLine>
    requires { (names.old.count ≤ 64) × (m < 16) × Holding names.old.count (lent names.old moves.old) }
    ensures { ReadsLine s.now at m names.old.count (lent names.old moves.old) result names.new.count (lent names.new moves.new) }
{
    let Some(head) = read_head(s, at) else {
        return Err(BadLine);
    };
    if !head.is_good(m) {
        return Err(BadLine);
    }
    let machine = Machine {
        number: m,
        places: head.places,
    };
    let end = read_moves(s, head.next, names, moves, machine)?;
    let Some(next) = read_literal(s, end, b")\n") else {
        return Err(BadLine);
    };
    Ok(LineAt {
        start: head.start,
        next,
    })
}
