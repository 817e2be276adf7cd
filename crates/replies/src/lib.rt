// What the words of a command line come to, whatever the text: which of them is wrong, or what they ask for.
#![tactic(auto)]

ghost use Rattle.std.specs.Prelude.{◌≡◌};
ghost use Rattle.command_line.specs.WordRow.{words_in};
ghost use Rattle.replies.specs.Replies.{help_asked, explanation_asked, reply_asked};

use command_line::{Service, second_word, service_asked, word_end};
use wrong_words::{refusal_said, wrong_word};

mod wrong_words; // which words a service takes, and the first that it does not

// What the program does: it says which word is wrong, what it is, how a text is written or what a refusal means, or it serves.
#[derive(Drop)]
pub enum Reply {
    Usage(usize),
    Help,
    TextForm,
    Explanation(usize),
    Service,
}

#[tactic(auto, using(crate::proofs::Replying::helps, crate::proofs::Replying::shows_form))]
fn help_asked(words: &[u8]) -> Reply
    ensures { result ≡ help_asked (words_in words.now) }
{
    if words.is_empty() {
        Reply::Help
    } else {
        Reply::TextForm
    }
}

// 0 explains nothing: a word that says no refusal is wrong before this is asked.
fn explanation_asked(words: &[u8]) -> Reply
    ensures { result ≡ explanation_asked (words_in words.now) }
{
    if words.is_empty() {
        return Reply::Usage(2);
    }
    let end = word_end(words, 0);
    Reply::Explanation(refusal_said(&words[..end]).unwrap_or(0))
}

#[tactic(auto, using(crate::proofs::Replying::tells_wrong))]
pub fn reply_asked(words: &[u8]) -> Reply
    ensures { result ≡ reply_asked (words_in words.now) }
{
    if let Some(number) = wrong_word(words) {
        return Reply::Usage(number);
    }
    let at = second_word(words);
    let asked = service_asked(words);
    match asked {
        Service::Unknown => Reply::Usage(1),
        Service::Help => help_asked(&words[at..]),
        Service::Explain => explanation_asked(&words[at..]),
        _ => Reply::Service,
    }
}
