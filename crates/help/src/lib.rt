// What the program says of itself: which word is wrong, help, how a text is written, and what each refusal means.
#![tactic(auto)]

pub use explanations::put_explanation;
use std::io::Print;

mod explanations; // what each refusal means, and what to do about it

// What is not taken is not written: no answer hangs on it.
fn put(out: &impl Print, words: &[u8]) {
    let _ = out.write_all(words);
}

fn put_usage(out: &impl Print) {
    put(
        out,
        b"; usage: ./split [check [LENT] | steps [LENT] | name EVENT | run [EVENT..] | thin | merge [LENT] | \
          quote [LENT] | sheet [LENT] | board [NAME..] | help [text] | explain REFUSAL [A [B]]] < TEXT or SHEET, or FILE\n",
    );
}

// A word that can be shown in a line: 1 to 40 bytes from ! to ~.
fn is_plain(word: &[u8]) -> bool {
    (1..=40).contains(&word.len()) && word.iter().all(|b| b.is_ascii_graphic())
}

fn put_number(out: &impl Print, number: usize) {
    put(out, b"split: word ");
    let _ = out.print(number);
}

// One line, to standard error, and nothing is answered: a word is wrong, one is missing, or the words are too long to be read.
pub fn put_wrong(out: &impl Print, number: usize, word: &[u8]) {
    put_number(out, number);
    put(out, b" is wrong");
    if is_plain(word) {
        put(out, b": ");
        put(out, word);
    }
    put_usage(out);
}

pub fn put_missing(out: &impl Print, number: usize) {
    put_number(out, number);
    put(out, b" is missing");
    put_usage(out);
}

pub fn put_too_long(out: &impl Print) {
    put(out, b"split: the words are too long to be read");
    put_usage(out);
}

// The services and the refusals, in a screen.
pub fn put_help(out: &impl Print) {
    put(
        out,
        b"Reads a plan and its split, or a sheet, and answers for one service:\n\
          \x20 ./split check [LENT]   the boards' sheet, in LENT bytes (32768); also ./split\n\
          \x20 ./split steps [LENT]   the plan's steps by number, in LENT records (1024)\n\
          \x20 ./split name EVENT     the name of an event\n\
          \x20 ./split run [EVENT..]  runs the events in this order on the machines together\n\
          \x20 ./split thin           drops machines that add nothing, and lists those kept\n\
          \x20 ./split merge [LENT]   check's sheet, with places merged while 11 and 12 pass\n\
          \x20 ./split quote [LENT]   the price of the split, thinned, in cents\n\
          \x20 ./split sheet [LENT]   of a sheet: its machines, written again as check does\n\
          \x20 ./split board [NAME..] of a sheet: runs the events of these names, as run does\n\
          \x20 ./split help [text]    this screen, as -h; with text: how a text is written\n\
          \x20 ./split explain REFUSAL [A [B]]  what it means, and what to do about it\n\
          EVENT is a name or a number from 0 as on line 2. A word with . or /, or -f FILE,\n\
          is the file to read. Status 0: answered, 1: refused, 2: neither. Also --version.\n\
          \n\
          (refused N A B) says why a call is refused; REFUSAL is N or its (first) word:\n\
          \x20  1 misformed   line A                   9 missing     machine A, state B\n\
          \x20  2 oversize    line A; 0: the text     10 uneven      machine A, event B\n\
          \x20  3 stranger    line A                  11 unheld      event A\n\
          \x20  4 standstill  line A                  12 open        event A, state B\n\
          \x20  5 fork        line A, earlier line B  13 short sheet size needed A\n\
          \x20  6 idle event  event A                 14 odd call    position A\n\
          \x20  7 unreached   state A                 15 bad sheet   line A; 0: the sheet\n\
          \x20  8 doubled     machine A, state B\n",
    );
}

// How a text is written, in a screen.
pub fn put_text_form(out: &impl Print) {
    put(
        out,
        b"A text is a plan and its split, in lines of this order:\n\
          \n\
          \x20 (states 4)                 how many states: 0 to 3, and 0 is the start, unless\n\
          \x20                            the line gives another: (states 4 start 3)\n\
          \x20 (events ready brake home)  the events by name, from 0 on; (events) if none\n\
          \x20 (step 0 ready 1)           from-state, event, to-state; none or more lines\n\
          \x20 (machine (0 2) (1 3))      its places with their states; one or more lines\n\
          \n\
          Every line ends in byte 10, the last one too, with no byte 13 before it. One\n\
          space parts two items and none stands elsewhere; no tab, no blank line, no\n\
          comment, no byte order mark. A name has 1 to 16 of a-z, A-Z, 0-9 and hyphen, a\n\
          letter first; ready and READY are one event. A figure has 1 to 3 digits and no\n\
          leading zero, but for 0 itself. A machine has each state in one place, and no\n\
          place is empty.\n\
          \n\
          Bounds: 32768 bytes; 1 to 256 states; 0 to 64 events; 0 to 1024 steps; 1 to 16\n\
          machines; 1 to 64 places in a machine.\n\
          \n\
          A plan can be checked before there is a split: end it with one machine of one\n\
          place with all states, here (machine (0 1 2 3)). ./split steps then checks the\n\
          plan, as far as refusal 7; ./split refuses it by 11 if it has an event.\n",
    );
}
