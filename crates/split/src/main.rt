// The program: what the words of its command line ask for, on the text, or the sheet, on standard input.
#![tactic(auto)]

ghost use Rattle.std.specs.Prelude.{◌+◌, ◌≤◌, ◌<◌, ◌≡◌, [], ◌∷◌, ◌++◌, length, take};
ghost use Rattle.writers.specs.Written.{Writes};
ghost use Rattle.command_line.specs.WordRow.{words_in, EachEnded};
ghost use Rattle.replies.specs.declared.Reply.TheVariants as R;
ghost use Rattle.replies.specs.Replies.{reply_asked};
ghost use Rattle.split.specs.Gathered.{Gathers};

use answering::answer;
use command_line::{word_begin, word_end};
use help::{put_explanation, put_help, put_missing, put_text_form, put_too_long, put_wrong};
use model::MAX_TEXT;
use replies::{Reply, reply_asked};
use std::env::{Env, FillError};
use std::io::{Input, Print, Read};
use writers::write_bytes;

// One byte more than a text or a sheet may have is read, so that a longer one is refused.
const TEXT_ROOM: usize = MAX_TEXT + 1;

// Linux by default hands over 2 MB of words, eight bytes of it for each word's place: so much holds any list of names.
const MANY_WORDS: usize = 1441792;

// A word and byte 0, which ends it.
fn put_word(word: &[u8], row: &mut [u8], at: usize) -> usize
    requires { at + length word.now < length row.old }
    ensures writes { Writes (word.now ++ (0 ∷ [])) at row.old result row.new }
    ensures upper_bound { result ≤ length row.new }
{
    let end = write_bytes(word, row, at);
    write_bytes(b"\0", row, end)
}

// How many words the command line has; word 0 is the program's own name.
fn count_words(env: &impl Env) -> usize {
    let mut start = [0u8; 1];
    for words in 0..usize::MAX {
        if let Err(FillError::NotPresent) = env.arg(words, &mut start) {
            return words;
        }
    }
    usize::MAX
}

// One that is missing or is longer than the room reads as an empty one.
fn take_word(env: &impl Env, i: usize, word: &mut [u8]) -> usize
    ensures within { result ≤ length word.new }
    ensures counted { result ≡ length (take result word.new) }
{
    env.arg(i, word).unwrap_or(0)
}

// The words after the program's own name, which is word 0, in a row, so many bytes of it; None where they have no room. One that is missing or has
// more than 4,096 bytes reads as an empty one.
fn gather(env: &impl Env, words: usize, row: &mut [u8]) -> Option<usize>
    ensures { Gathers words result row.new }
{
    let mut n = 0;
    for i in 1..words {
        let mut word = [0u8; 4096];
        let len = take_word(env, i, &mut word);
        if row.len() - n <= len {
            return None;
        }
        n = put_word(&word[..len], row, n);
    }
    Some(n)
}

// Until the text is full or its end; a read that fails is taken for the end.
fn read_text(input: &impl Input, text: &mut [u8]) -> usize
    requires { length text.old ≡ 32769 }
    ensures within { result ≤ length text.new }
    ensures counted { result ≡ length (take result text.new) }
{
    let mut reader = input.reader();
    let mut n = 0;
    while n < text.len() {
        let len = reader.read(&mut text[n..]).unwrap_or(0);
        if len == 0 {
            break;
        }
        n += len;
    }
    n
}

// Words of a service have an answer, whatever the text (`served`).
fn serve(rt: &(impl Input + Print), words: &mut [u8])
    requires { (reply_asked (words_in words.old) ≡ R.Service) × EachEnded words.old }
{
    let mut text = [0u8; TEXT_ROOM];
    let n = read_text(rt, &mut text);
    let mut out = [0u8; MAX_TEXT];
    let size = answer(words, &text[..n], &mut out).unwrap();
    let _ = rt.write_all(&out[..size]);
}

fn tell_wrong(err: &impl Print, words: &[u8], number: usize)
    requires { reply_asked (words_in words.now) ≡ R.Usage number }
{
    let at = word_begin(words, number);
    if at < words.len() {
        let end = word_end(words, at);
        put_wrong(err, number, &words[at..end]);
    } else {
        put_missing(err, number);
    }
}

// The word with this number; an empty one where there is none.
fn word(words: &[u8], number: usize) -> &[u8] {
    let at = word_begin(words, number);
    let end = word_end(words, at);
    &words[at..end]
}

// The details are the third word and the fourth.
fn explain(out: &impl Print, words: &[u8], refusal: usize)
    requires { reply_asked (words_in words.now) ≡ R.Explanation refusal }
{
    put_explanation(out, refusal, word(words, 3), word(words, 4));
}

// A match, since what a reply carries differs.
fn respond(rt: &(impl Input + Print), err: &impl Print, words: &mut [u8])
    requires { EachEnded words.old }
{
    let reply = reply_asked(words);
    match reply {
        Reply::Usage(number) => tell_wrong(err, words, number),
        Reply::Help => put_help(rt),
        Reply::TextForm => put_text_form(rt),
        Reply::Explanation(refusal) => explain(rt, words, refusal),
        Reply::Service => serve(rt, words),
    }
}

fn many_words_row() -> [u8; MANY_WORDS]
    ensures { 1441792 ≡ length result }
{
    [0u8; MANY_WORDS]
}

// Only where they do not lie in a small row is a large one cleared.
fn respond_to_many(rt: &(impl Env + Input + Print), err: &impl Print, words: usize) {
    let mut row = many_words_row();
    match gather(rt, words, &mut row) {
        Some(n) => respond(rt, err, &mut row[..n]),
        None => put_too_long(err),
    }
}

fn main(rt: HostRuntime) {
    let err = rt.stderr();
    let words = count_words(&rt);
    let mut row = [0u8; 4096];
    match gather(&rt, words, &mut row) {
        Some(n) => respond(&rt, &err, &mut row[..n]),
        None => respond_to_many(&rt, &err, words),
    }
}
