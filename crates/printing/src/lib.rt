// What the program prints for each service, at the beginning of a buffer of 32,768 bytes; each answers how many bytes that is.
#![tactic(auto)]

ghost use Rattle.std.specs.Prelude.{◌+◌, ◌*◌, ◌≤◌, ℕ, List, length, take};
ghost use mathlib.Core.List.{flat_map};
ghost use Rattle.model.specs.Cases.{tabled};
ghost use Rattle.model.specs.Services.{written_refusal};
ghost use Rattle.model.specs.Printed.{transition_line, printed_steps, printed_name, places_word, printed_run, joined, printed_thin, printed_board};
ghost use Rattle.rows.specs.Told.{first_transitions};
ghost use Rattle.stages.specs.Stages.{ReadAsFarAs7, ReadAsFarAs12};
ghost use Rattle.writers.specs.Written.{Writes};
ghost use Rattle.answers.specs.Answers.{answered};
ghost use Rattle.product.specs.Answers.{outcome_is};
ghost use Rattle.printing.specs.Shown.{Shows, FitsBuffer, lent_line, FewMachines, outcome_line, kept_below};

use answers::RefusalNumbers;
use board_service::run_board;
use irredundant::Kept;
use model::{MAX_MACHINES, MAX_TEXT, Refusal};
use name_service::{NamePart, name_in_plan};
use product::{Outcome, RunAnswer};
use rows::{Moves, Tables};
use run_service::run_in_split;
use stages::read_as_far_as_7;
use thin_service::thin;
use writers::{write_bytes, write_numeral, write_refusal};

// The calls whose answer `print_lent` prints.
pub use board_service::sheet;
pub use check_service::check;
pub use merge_service::merge;
pub use quote_service::quote;

fn print_refusal(why: Refusal, out: &mut [u8; MAX_TEXT]) -> usize
    ensures { Shows (written_refusal (tabled why)) result out.new }
{
    let row = RefusalNumbers::from(why);
    write_refusal(row.number, row.detail, row.second, out)
}

// What a call has left in the buffer, if no more bytes than are lent; a refusal's line otherwise.
pub fn print_lent(answer: Result<usize, Refusal>, lent: usize, out: &mut [u8; MAX_TEXT]) -> usize
    requires { FitsBuffer (answered answer) }
    ensures { Shows (lent_line lent (answered answer) out.old) result out.new }
{
    match answer {
        Err(why) => print_refusal(why, out),
        Ok(size) => {
            if lent < size {
                return print_refusal(Refusal::BufferTooShort { needed: size }, out); // 13 short sheet
            }
            size
        }
    }
}

// Three numbers below 256 make a line of 19 bytes at most.
#[tactic(auto, using(writers::proofs::Refusals::numeral_three, writers::proofs::Writing::writes_length))]
fn write_transition(source: u8, event: u8, target: u8, out: &mut [u8], at: usize) -> usize
    requires { at + 19 ≤ length out.old }
    ensures writes { Writes (transition_line (record { source = source; event = event; target = target })) at out.old result out.new }
    ensures upper_bound { result ≤ at + 19 }
{
    let a = write_bytes(b"(step ", out, at);
    let b = write_numeral(usize::from(source), out, a);
    let c = write_bytes(b" ", out, b);
    let d = write_numeral(usize::from(event), out, c);
    let e = write_bytes(b" ", out, d);
    let f = write_numeral(usize::from(target), out, e);
    write_bytes(b")\n", out, f)
}

#[tactic(auto, using(writers::proofs::Writing::writes_length, crate::proofs::Steps::listed_none, crate::proofs::Steps::listed_room))]
fn write_transitions(plan: &Tables, out: &mut [u8], at: usize) -> usize
    requires { (plan.now.counts.transitions ≤ 1024) × (at + plan.now.counts.transitions * 19 ≤ length out.old) }
    ensures { Writes (flat_map transition_line (first_transitions plan.now.source plan.now.event plan.now.target plan.now.counts.transitions)) at out.old result out.new }
{
    let mut i = at;
    for k in 0..plan.counts.transitions {
        i = write_transition(plan.source[k], plan.event[k], plan.target[k], out, i);
    }
    i
}

// The transitions' count and a line for each, if no more than are lent.
#[tactic(auto, using(writers::proofs::Refusals::numeral_most, writers::proofs::Writing::writes_length))]
pub fn print_steps(text: &[u8], lent: usize, out: &mut [u8; MAX_TEXT]) -> usize
    ensures { Shows (printed_steps text.now lent) result out.new }
{
    let mut plan = Tables::fresh();
    if let Err(why) = read_as_far_as_7(text, &mut plan) {
        return print_refusal(why, out);
    }
    let count = plan.counts.transitions;
    if lent < count {
        return print_refusal(Refusal::BufferTooShort { needed: count }, out); // 13 short sheet
    }
    let a = write_bytes(b"(steps ", out, 0);
    let b = write_numeral(count, out, a);
    let c = write_bytes(b")\n", out, b);
    write_transitions(&plan, out, c)
}

// The name of an event of a text that is read as far as 7 into the tables.
pub fn print_name(
    read: Result<(), Refusal>,
    plan: &Tables,
    text: &[u8],
    event: usize,
    out: &mut [u8; MAX_TEXT],
) -> usize
    requires { ReadAsFarAs7 text.now read plan.now }
    ensures { Shows (printed_name text.now event) result out.new }
{
    match name_in_plan(read, plan, text, event) {
        Err(why) => print_refusal(why, out),
        Ok(NamePart { from, end }) => {
            let a = write_bytes(&text[from..end], out, 0);
            write_bytes(b"\n", out, a)
        }
    }
}

// The places of the machines, and the end of the line.
#[tactic(auto, using(writers::proofs::Refusals::numeral_three, writers::proofs::Writing::writes_length))]
fn write_places(places: &[u8], out: &mut [u8], at: usize) -> usize
    requires { (length places.now ≤ 16) × (at + 100 ≤ length out.old) }
    ensures { Writes (places_word places.now) at out.old result out.new }
{
    let mut i = write_bytes(b"(places", out, at);
    for place in places {
        let a = write_bytes(b" ", out, i);
        i = write_numeral(usize::from(*place), out, a);
    }
    write_bytes(b"))\n", out, i)
}

// How far a run went, and the places of so many machines; or the refusal's line.
#[tactic(auto, using(crate::proofs::Runs::few_whole, crate::proofs::Runs::few_blocked, writers::proofs::Refusals::numeral_most, writers::proofs::Writing::writes_length))]
fn print_ran(answer: RunAnswer, machines: usize, out: &mut [u8; MAX_TEXT]) -> usize
    requires { FewMachines (outcome_is answer.outcome) machines }
    ensures { Shows (outcome_line (outcome_is answer.outcome) (take machines answer.places)) result out.new }
{
    match answer.outcome {
        Outcome::Refused(why) => print_refusal(why, out),
        Outcome::Whole => {
            let a = write_bytes(b"(whole ", out, 0);
            write_places(&answer.places[..machines], out, a)
        }
        Outcome::Blocked { ran, machine } => {
            let a = write_bytes(b"(blocked ", out, 0);
            let b = write_numeral(ran, out, a);
            let c = write_bytes(b" ", out, b);
            let d = write_numeral(machine, out, c);
            let e = write_bytes(b" ", out, d);
            write_places(&answer.places[..machines], out, e)
        }
    }
}

// The run of a list of events on the machines of a text that is read as far as 12 into the rows.
pub fn print_run(
    read: Result<(), Refusal>,
    plan: &Tables,
    moves: &Moves,
    text: &[u8],
    events: &[u8],
    out: &mut [u8; MAX_TEXT],
) -> usize
    requires { (excited : List ℕ) × ReadAsFarAs12 text.now read plan.now moves.now.pre moves.now.post excited }
    ensures { Shows (printed_run text.now events.now) result out.new }
{
    let answer = run_in_split(read, plan, moves, text, events);
    print_ran(answer, plan.counts.machines, out)
}

// The run of a list of names on the machines of a sheet.
pub fn print_board(sheet: &[u8], names: &[u8], out: &mut [u8; MAX_TEXT]) -> usize
    ensures { Shows (printed_board sheet.now names.now) result out.new }
{
    let run = run_board(sheet, names);
    print_ran(run.answer, run.machines, out)
}

// The numbers of the machines that are kept, with a space between them.
#[tactic(auto, using(writers::proofs::Writing::writes_length, crate::proofs::Lengths::numeral_two, crate::proofs::Kept::keeping_none))]
fn write_kept(machines: u16, out: &mut [u8], at: usize) -> usize
    requires { at + 100 ≤ length out.old }
    ensures writes { Writes (joined (kept_below machines 16)) at out.old result out.new }
    ensures upper_bound { result ≤ at + 64 }
{
    let mut i = at;
    for m in 0..MAX_MACHINES {
        if machines >> m & 1 == 1 {
            if i > at {
                i = write_bytes(b" ", out, i);
            }
            i = write_numeral(m, out, i);
        }
    }
    i
}

#[tactic(auto, using(writers::proofs::Refusals::numeral_most, writers::proofs::Writing::writes_length))]
pub fn print_thin(text: &[u8], out: &mut [u8; MAX_TEXT]) -> usize
    ensures { Shows (printed_thin text.now) result out.new }
{
    match thin(text) {
        Err(why) => print_refusal(why, out),
        Ok(Kept { machines, size }) => {
            let a = write_bytes(b"(kept ", out, 0);
            let b = write_numeral(size, out, a);
            let c = write_bytes(b" (", out, b);
            let d = write_kept(machines, out, c);
            write_bytes(b"))\n", out, d)
        }
    }
}
