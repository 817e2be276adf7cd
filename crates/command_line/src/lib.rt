// The words of a command line: the service that is asked for, and the number or the event that a word says.
#![tactic(auto)]

ghost use Rattle.std.specs.Prelude.{◌≡◌, ℕ, ◌≤◌, ◌<◌, length, drop, MatchOption};
ghost use Rattle.std.specs.Option.{unwrap_or};
ghost use mathlib.Core.List.{flat_map};
ghost use Rattle.std.proofs.Math.Option.{none, some};
ghost use Rattle.model.specs.Bytes.{same_name};
ghost use Rattle.model.specs.BoardTable.{ended};
ghost use Rattle.model.specs.Text.{event_number};
ghost use Rattle.rows.specs.Names.{names_in};
ghost use Rattle.command_line.specs.Words.{service_said, is_name_word, said, event_said};
ghost use Rattle.command_line.specs.WordRow.{words_in, only_word, EachEnded, WordCut, BeginsAt, Lists};
ghost use Rattle.command_line.specs.Program.{service_asked, further_words, size_said, one_event_said, events_said};
ghost use Rattle.command_line.specs.Names.{NameRows};

use lexer::read_name;
pub use numerals::{is_numeral, number_said};

mod numerals; // numerals, and the numbers that they write

#[derive(Clone, Copy)]
pub enum Service {
    Check,
    Steps,
    Name,
    Run,
    Thin,
    Merge,
    Quote,
    Sheet,
    Board,
    Help,
    Explain,
    Unknown,
}

// The services by their names.
const SERVICES: [(&[u8], Service); 11] = [
    (b"check", Service::Check),
    (b"steps", Service::Steps),
    (b"name", Service::Name),
    (b"run", Service::Run),
    (b"thin", Service::Thin),
    (b"merge", Service::Merge),
    (b"quote", Service::Quote),
    (b"sheet", Service::Sheet),
    (b"board", Service::Board),
    (b"help", Service::Help),
    (b"explain", Service::Explain),
];

// The names of a text's events: where each begins in the text, its length, and how many there are.
#[derive(Clone, Copy)]
pub struct DeclaredNames<'a> {
    pub at: &'a [usize],
    pub len: &'a [usize],
    pub count: usize,
}

fn service_said(word: &[u8]) -> Service
    ensures { result ≡ service_said word.now }
{
    for (name, service) in &SERVICES {
        if word == *name {
            return *service;
        }
    }
    Service::Unknown
}

// 1 to 16 name bytes that begin with a letter, and nothing after them.
pub fn is_name(word: &[u8]) -> bool
    ensures { result ≡ is_name_word word.now }
{
    read_name(word, 0).is_some_and(|name| name.next == word.len())
}

// Are the two one event: the same bytes, or the same letters in the other case.
#[tactic(auto, using(crate::proofs::Matching::same_small, crate::proofs::Matching::small_same))]
fn same_name(a: &[u8], b: &[u8]) -> bool
    ensures { result ≡ same_name a.now b.now }
{
    a.eq_ignore_ascii_case(b)
}

// The number of the event with this name.
fn event_named(text: &[u8], names: DeclaredNames, word: &[u8]) -> Option<usize>
    requires { NameRows text.now names.at.now names.«len».now names.count }
    ensures { let d = names.entry in unwrap_or result d.count ≡ event_number (names_in text.now d.at.now d.«len».now d.count) word.now }
{
    for e in 0..names.count {
        let from = names.at[e];
        let end = from + names.len[e];
        if same_name(word, &text[from..end]) {
            return Some(e);
        }
    }
    None
}

// The event that a word says by its name or its number. One that is not declared is the count of events, or a number up to 255.
#[tactic(auto, using(crate::proofs::Saying::event_small, crate::proofs::Saying::number_small), unfolding(crate::specs::Words::said, crate::specs::Words::event_said))]
fn event_said(text: &[u8], names: DeclaredNames, word: &[u8]) -> Option<usize>
    requires { NameRows text.now names.at.now names.«len».now names.count }
    ensures result_value { let d = names.entry in said result ≡ event_said (names_in text.now d.at.now d.«len».now d.count) word.now }
    ensures by_index { (n : ℕ) → said result ≡ some n → n < 256 }
{
    if is_name(word) {
        return Some(event_named(text, names, word).unwrap_or(names.count));
    }
    number_said(word, 255)
}

// The words lie in one row of bytes, each ended by byte 0.

// Where the word ends that begins at `at`.
pub fn word_end(words: &[u8], at: usize) -> usize
    requires { at ≤ length words.now }
    ensures { WordCut words.now at result }
{
    match words[at..].iter().position(|b| *b == 0) {
        Some(len) => at + len,
        None => words.len(),
    }
}

// The service that the first word asks for; with no word the program checks.
#[tactic(auto, using(crate::proofs::Cutting::asks_nothing))]
pub fn service_asked(words: &[u8]) -> Service
    ensures { result ≡ service_asked (words_in words.now) }
{
    if words.is_empty() {
        return Service::Check;
    }
    service_said(&words[..word_end(words, 0)])
}

// Where the words after the first begin.
pub fn second_word(words: &[u8]) -> usize
    ensures { (result ≤ length words.now) × (words_in (drop result words.now) ≡ further_words (words_in words.now)) }
{
    (word_end(words, 0) + 1).min(words.len())
}

// The word of a row that has no other.
#[tactic(auto, using(crate::proofs::Cutting::only_none, crate::proofs::Cutting::only_more, crate::proofs::Cutting::only_one))]
fn only_word(words: &[u8]) -> Option<&[u8]>
    ensures { MatchOption result (only_word (words_in words.now) ≡ none) (λ w. only_word (words_in words.now) ≡ some w.now) }
{
    if words.is_empty() {
        return None;
    }
    let end = word_end(words, 0);
    if end + 1 < words.len() {
        return None;
    }
    Some(&words[..end])
}

// The size that one word says, or the usual one where there is no word.
#[tactic(auto, using(crate::proofs::Cutting::usual_size, crate::proofs::Cutting::no_size, crate::proofs::Cutting::one_size), unfolding(crate::specs::Words::said))]
pub fn size_said(words: &[u8], usual: usize) -> Option<usize>
    ensures { said result ≡ size_said usual (words_in words.now) }
{
    if words.is_empty() {
        return Some(usual);
    }
    number_said(only_word(words)?, 65535)
}

// Where the word with this number begins, and the others after it; the end of the row if there is none.
pub fn word_begin(words: &[u8], number: usize) -> usize
    ensures { BeginsAt number words.now result }
{
    let mut at = 0;
    for _ in 1..number {
        at += second_word(&words[at..]);
    }
    at
}

// The event that one word says.
#[tactic(auto, using(crate::proofs::Cutting::no_event, crate::proofs::Cutting::one_event), unfolding(crate::specs::Words::said))]
pub fn one_event_said(words: &[u8], text: &[u8], names: DeclaredNames) -> Option<usize>
    requires { NameRows text.now names.at.now names.«len».now names.count }
    ensures { let d = names.entry in said result ≡ one_event_said (names_in text.now d.at.now d.«len».now d.count) (words_in words.now) }
{
    event_said(text, names, only_word(words)?)
}

// The events that the words say, one for each, at the beginning of the row: how many, or None where a word says none. A word has a byte of its
// own at least, so each event has its place before the words that are still to be read.
#[tactic(auto, unfolding(crate::specs::Words::said))]
pub fn events_said(words: &mut [u8], text: &[u8], names: DeclaredNames) -> Option<usize>
    requires { NameRows text.now names.at.now names.«len».now names.count }
    ensures { let d = names.entry in Lists (events_said (names_in text.now d.at.now d.«len».now d.count) (words_in words.old)) result words.new }
{
    // no iterator over the words: it would borrow the row, whose beginning is written over
    let mut n = 0;
    let mut at = 0;
    while at < words.len() {
        let end = word_end(words, at);
        let event = event_said(text, names, &words[at..end])?;
        words[n] = event as u8;
        n += 1;
        at = end + 1;
    }
    Some(n)
}

// The words as a list of names, each ended by byte 10, in their own row.
pub fn names_said(words: &mut [u8])
    requires { EachEnded words.old }
    ensures { words.new ≡ flat_map ended (words_in words.old) }
{
    for b in words.iter_mut() {
        if *b == 0 {
            *b = b'\n';
        }
    }
}
