// What the program answers to the words of its command line and the text, or the sheet, on its standard input.
#![tactic(auto)]

ghost use Rattle.std.specs.Prelude.{◌≡◌};
ghost use Rattle.printing.specs.Shown.{answered};
ghost use Rattle.command_line.specs.declared.Service.TheVariants.{Name, Run};
ghost use Rattle.command_line.specs.WordRow.{words_in, EachEnded, Lists};
ghost use Rattle.command_line.specs.Program.{answer_by, answer_to};
ghost use Rattle.answering.specs.Known.{known_names};
ghost use Rattle.answering.specs.Left.{LeavesBytes, Leaves};

use command_line::{
    DeclaredNames, Service, events_said, names_said, one_event_said, second_word, service_asked,
    size_said,
};
use model::{MAX_TEXT, MAX_TRANSITIONS, Refusal};
use printing::{
    check, merge, print_board, print_lent, print_name, print_run, print_steps, print_thin, quote,
    sheet,
};
use rows::{Moves, Tables};
use stages::{EXCITATION_WORDS, read_as_far_as_7, read_as_far_as_12};

// The words after the service lie in a row, each ended by byte 0. What is printed stands at the beginning of the buffer, so many bytes; None if the
// words ask for nothing that can be answered.

// What the service leaves in the buffer: the sheet of a text, of a merged text or of a sheet, or a quotation.
fn leave(asked: Service, text: &[u8], out: &mut [u8; MAX_TEXT]) -> Result<usize, Refusal>
    requires { LeavesBytes asked }
    ensures { Leaves asked text.now (answered result) out.new }
{
    match asked {
        Service::Merge => merge(text, out),
        Service::Quote => quote(text, out),
        Service::Sheet => sheet(text, out),
        _ => check(text, out),
    }
}

// The same with so many bytes lent as the words say. They are asked first: where they are no size, nothing is read and nothing is left.
fn answer_lent(asked: Service, words: &[u8], text: &[u8], out: &mut [u8; MAX_TEXT]) -> Option<usize>
    requires { LeavesBytes asked }
    ensures { Lists (answer_by asked (words_in words.now) text.now) result out.new }
{
    let lent = size_said(words, MAX_TEXT)?;
    let answer = leave(asked, text, out);
    Some(print_lent(answer, lent, out))
}

// The names of a text that is refused count for nothing.
#[tactic(auto, unfolding(crate::specs::Known::known_names))]
fn known_names(read: Result<(), Refusal>, events: usize) -> usize
    ensures { result ≡ known_names read events }
{
    match read {
        Ok(()) => events,
        Err(_) => 0,
    }
}

fn answer_name(words: &[u8], text: &[u8], out: &mut [u8; MAX_TEXT]) -> Option<usize>
    ensures { Lists (answer_by Name (words_in words.now) text.now) result out.new }
{
    let mut plan = Tables::fresh();
    let read = read_as_far_as_7(text, &mut plan);
    let names = DeclaredNames {
        at: &plan.name_at,
        len: &plan.name_len,
        count: known_names(read, plan.counts.events),
    };
    let event = one_event_said(words, text, names)?;
    Some(print_name(read, &plan, text, event, out))
}

// The events take the place of the words.
#[tactic(auto, using(stages::proofs::Stages::fresh_moves))]
fn answer_run(words: &mut [u8], text: &[u8], out: &mut [u8; MAX_TEXT]) -> Option<usize>
    ensures { Lists (answer_by Run (words_in words.old) text.now) result out.new }
{
    let mut plan = Tables::fresh();
    let mut moves = Moves::none();
    let mut excited = [0u64; EXCITATION_WORDS];
    let read = read_as_far_as_12(text, &mut plan, &mut moves, &mut excited);
    let names = DeclaredNames {
        at: &plan.name_at,
        len: &plan.name_len,
        count: known_names(read, plan.counts.events),
    };
    let count = events_said(words, text, names)?;
    Some(print_run(read, &plan, &moves, text, &words[..count], out))
}

// A match and no table of functions, since the services take different things. A board's names take the place of the words: as many bytes, since byte 10 ends a name where byte 0 ended a word.
fn answer_by(
    asked: Service,
    words: &mut [u8],
    text: &[u8],
    out: &mut [u8; MAX_TEXT],
) -> Option<usize>
    requires { EachEnded words.old }
    ensures { Lists (answer_by asked (words_in words.old) text.now) result out.new }
{
    match asked {
        Service::Check | Service::Merge | Service::Quote | Service::Sheet => {
            answer_lent(asked, words, text, out)
        }
        Service::Steps => {
            let lent = size_said(words, MAX_TRANSITIONS)?;
            Some(print_steps(text, lent, out))
        }
        Service::Name => answer_name(words, text, out),
        Service::Run => answer_run(words, text, out),
        Service::Thin => {
            if words.is_empty() {
                Some(print_thin(text, out))
            } else {
                None
            }
        }
        Service::Board => {
            names_said(words);
            Some(print_board(text, words, out))
        }
        Service::Help | Service::Explain | Service::Unknown => None,
    }
}

// Any words, and any text or sheet. The row of words is written over.
pub fn answer(words: &mut [u8], text: &[u8], out: &mut [u8; MAX_TEXT]) -> Option<usize>
    requires { EachEnded words.old }
    ensures { Lists (answer_to (words_in words.old) text.now) result out.new }
{
    let asked = service_asked(words);
    let at = second_word(words);
    answer_by(asked, &mut words[at..], text, out)
}
