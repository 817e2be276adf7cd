// Which words a service takes, and the first that it does not.
ghost use Rattle.std.specs.Prelude.{◌≡◌};
ghost use Rattle.command_line.specs.WordRow.{words_in};
ghost use Rattle.replies.specs.Replies.{is_refusal, number_from, refusal_names, refusal_said, says_event, takes_after_explain, takes, least_words, wrong_word};

use command_line::{
    Service, is_name, is_numeral, number_said, second_word, service_asked, word_end,
};

// The refusals by their names; of a name of two words this is the first.
const REFUSAL_NAMES: [&[u8]; 15] = [
    b"misformed",
    b"oversize",
    b"stranger",
    b"standstill",
    b"fork",
    b"idle",
    b"unreached",
    b"doubled",
    b"missing",
    b"uneven",
    b"unheld",
    b"open",
    b"short",
    b"odd",
    b"bad",
];

// Documents 01 and 02 have refusals 1 to 15.
#[tactic(auto, unfolding(crate::specs::Replies::is_refusal))]
fn is_refusal(n: usize) -> bool
    ensures { result ≡ is_refusal n }
{
    (1..=15).contains(&n)
}

// The refusal with this name.
fn refusal_named(word: &[u8]) -> Option<usize>
    ensures { result ≡ number_from 1 word.now refusal_names }
{
    let k = REFUSAL_NAMES.iter().position(|name| word == *name)?;
    Some(k + 1)
}

// The refusal that a word says by its number or its name.
#[tactic(auto, using(crate::proofs::Judging::named))]
pub fn refusal_said(word: &[u8]) -> Option<usize>
    ensures { result ≡ refusal_said word.now }
{
    let Some(n) = number_said(word, 65535) else {
        return refusal_named(word);
    };
    is_refusal(n).then_some(n)
}

#[tactic(auto, unfolding(crate::specs::Replies::says_event))]
fn says_event(word: &[u8]) -> bool
    ensures { result ≡ says_event word.now }
{
    is_name(word) || is_numeral(word)
}

// The refusal, and behind it its two details.
#[tactic(auto, unfolding(crate::specs::Replies::takes_after_explain))]
fn takes_after_explain(k: usize, word: &[u8]) -> bool
    ensures { result ≡ takes_after_explain k word.now }
{
    if k == 0 {
        refusal_said(word).is_some()
    } else {
        k <= 2 && is_numeral(word)
    }
}

// Does the service take this as the kth word after it, counted from 0. A board is handed any word. A match, here and below, since a table of functions would hand them out.
#[tactic(auto, using(command_line::proofs::Spelling::same_bytes), unfolding(crate::specs::Replies::takes))]
fn takes(asked: Service, k: usize, word: &[u8]) -> bool
    ensures { result ≡ takes asked k word.now }
{
    match asked {
        Service::Check | Service::Steps | Service::Merge | Service::Quote | Service::Sheet => {
            k == 0 && is_numeral(word)
        }
        Service::Name => k == 0 && says_event(word),
        Service::Run => says_event(word),
        Service::Help => k == 0 && word == b"text".as_slice(),
        Service::Explain => takes_after_explain(k, word),
        Service::Board => true,
        Service::Thin | Service::Unknown => false,
    }
}

// How many words the service takes at least.
#[tactic(auto, unfolding(crate::specs::Replies::least_words))]
fn least_words(asked: Service) -> usize
    ensures { result ≡ least_words asked }
{
    match asked {
        Service::Name | Service::Explain => 1,
        _ => 0,
    }
}

// The first word that its service does not take, or the one that is missing, by its number on the command line, where the service is word 1.
pub fn wrong_word(words: &[u8]) -> Option<usize>
    ensures { result ≡ wrong_word (words_in words.now) }
{
    let asked = service_asked(words);
    if let Service::Unknown = asked {
        return Some(1);
    }
    // a word begins behind the end of the one before, so no range has these places
    let mut k = 0;
    let mut at = second_word(words);
    while at < words.len() {
        let end = word_end(words, at);
        if !takes(asked, k, &words[at..end]) {
            return Some(k + 2);
        }
        k += 1;
        at = end + 1;
    }
    (k < least_words(asked)).then_some(k + 2)
}
