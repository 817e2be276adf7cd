// A name of a list of names, each ended by byte 10, and its event by the rows of a sheet.
ghost use Rattle.std.specs.Prelude.{◌+◌, ◌≤◌, length};
ghost use Rattle.board_service.specs.Listed.{LooksUp, NameGuessed, ReadsName};

use lexer::{PackedName, read_literal, read_name};
use names::Names;
use quick_words::{guess_size, is_byte, pack_name};

// The event that a name of the list is, and the position after the name's byte 10.
#[derive(Clone, Copy)]
pub struct EventAt {
    pub event: usize,
    pub next: usize,
}

// The number of a name on the sheet.
fn look_up(sheet: &Names, name: PackedName) -> Option<usize>
    requires { sheet.now.count ≤ 64 }
    ensures { LooksUp sheet.now.count sheet.now.«len» sheet.now.«high» sheet.now.«low» name.«len» name.«high» name.«low» result }
{
    let k = sheet.hint(name);
    if k < sheet.count && sheet.is_at(k, name) {
        return Some(k);
    }
    sheet.find(name)
}

// The name at a position with 17 bytes from there on, if the hint leads to it; else nothing is known of it. The tests are one branch.
fn verified_name(names: &[u8], at: usize, sheet: &Names) -> Option<EventAt>
    requires { at + 17 ≤ length names.now }
    ensures { NameGuessed names.now at sheet.now.count sheet.now.«len» sheet.now.«high» sheet.now.«low» result }
{
    let name = pack_name(names, at, guess_size(names, at));
    let end = at + name.len;
    let event = sheet.hint(name);
    let named = sheet.is_at(event, name);
    if is_byte(names, end, b'\n') & named & (event < sheet.count) {
        return Some(EventAt {
            event,
            next: end + 1,
        });
    }
    None
}

// The name at a position, word by word. There is none if it is not ended, or on no move.
fn read_words(names: &[u8], at: usize, sheet: &Names) -> Option<EventAt>
    requires { sheet.now.count ≤ 64 }
    ensures { ReadsName names.now at sheet.now.count sheet.now.«len» sheet.now.«high» sheet.now.«low» result }
{
    let found = read_name(names, at)?;
    let next = read_literal(names, found.next, b"\n")?;
    let event = look_up(sheet, found.name)?;
    Some(EventAt { event, next })
}

// The same, by words only where it is not verified at once.
pub fn next_name(names: &[u8], at: usize, sheet: &Names) -> Option<EventAt>
    requires { (sheet.now.count ≤ 64) × (at ≤ length names.now) }
    ensures { ReadsName names.now at sheet.now.count sheet.now.«len» sheet.now.«high» sheet.now.«low» result }
{
    if names.len() - at < 17 {
        return read_words(names, at, sheet);
    }
    if let Some(known) = verified_name(names, at, sheet) {
        return Some(known);
    }
    read_words(names, at, sheet)
}
