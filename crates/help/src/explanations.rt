// What each refusal means, and what to do about it. A detail that is said stands for % (the first) or # (the second).
use super::put;
use std::io::Print;

// By the refusal's number, from 1 on.
const EXPLANATIONS: [&[u8]; 15] = [
    // of the text's form and bounds
    b"misformed: line % has not the form of a line that may stand there, or the\n\
      text has no line % though it must.\n\
      Usual causes: byte 13 before byte 10, as Windows ends lines; a byte order mark;\n\
      no byte 10 after the last line; a tab, a second space, or a space at an end; a\n\
      blank line or a comment; an underscore or over 16 bytes in a name; a capital in\n\
      a word that is no name; a figure of four digits or with a leading zero; a step\n\
      line after a machine line.\n\
      ./split help text shows the form.\n",
    b"oversize: line % breaks a bound, or the text ends there and has no machine. Line\n\
      0 stands for the whole text, over 32768 bytes.\n\
      Keep to 32768 bytes, 1 to 256 states, 64 events, 1024 steps, 1 to 16 machines\n\
      and 64 places in a machine. ./split help text says how to check a plan alone.\n",
    b"stranger: line % names a state not below the count (on line 1 the start), an\n\
      event not on line 2, or one event twice, perhaps spelt READY and Ready.\n\
      Declare the event once on line 2, or correct the state or event on line %.\n",
    // of the plan
    b"standstill: the step on line % ends in the state where it began.\n\
      Take the step out, or lead it to another state.\n",
    b"fork: the step on line % has the same state and event as that on line #.\n\
      Give one of the two another event, or take one out.\n",
    b"idle event: no step has event %.\n\
      Add a step of event %, or take it off line 2.\n",
    b"unreached: no steps lead from the start to state %.\n\
      Add the step that leads there, take state % out and number the others anew, or\n\
      give another start on line 1.\n",
    // of a machine
    b"doubled: machine % lists state # twice.\n\
      List state # only once in machine %.\n",
    b"missing: machine % has no place with state #.\n\
      Put state # into a place of machine %.\n",
    b"uneven: a place of machine % is no region: some steps of event # cross its\n\
      border, and not all alike.\n\
      Move states between the places of machine % until all steps of event # enter\n\
      a place, all leave it, or none does either.\n",
    // of an event on no machine, and of closure
    b"unheld: event % is on no machine, so the machines together never run it.\n\
      Add a machine in which the steps of event % lead from one place to another.\n",
    b"open: in state # the machines are ready for event %, and the plan is not.\n\
      Add a machine, or divide a place of one, so that state # is outside a place\n\
      that event % leaves. Some plans have no such place: if every region that the\n\
      steps of event % leave holds state #, no split will do. Then cut the event in\n\
      two and hold a machine in a place between, as examples/gantry.plan does with\n\
      hook-down and hook-up; examples/README.md shows it step by step.\n",
    // of the call, and of a sheet
    b"short sheet: what was lent is too short for the answer, which needs size %.\n\
      Lend % bytes for a sheet or a quotation, or % records for steps.\n",
    b"odd call: the event at position % of the list, from 0, is not declared, or, for\n\
      a board, on no move of its sheet.\n\
      Give the name of an event of line 2, or a number below the count of events; to\n\
      a board, a name as its sheet has it.\n",
    b"bad sheet: line % of the sheet is the first that is faulty, or that is missing.\n\
      Line 0 stands for the whole sheet, over 32768 bytes.\n\
      Usual causes: a refusal or a plan in the place of a sheet (line 1); byte 13\n\
      before byte 10; no byte 10 after the last line; more or fewer machines than\n\
      line 1 says; machines not numbered 0, 1, 2 and so on; a start or an end of a\n\
      move not below the count of places; two ends that are one place; an event twice\n\
      in a machine; over 64 names. ./split check writes a good sheet from the plan\n\
      and its split: correct these, not the sheet.\n",
];

// A detail, or the letter that stands for it.
fn put_detail(out: &impl Print, detail: &[u8], letter: &[u8]) {
    if detail.is_empty() {
        put(out, letter);
    } else {
        put(out, detail);
    }
}

// A detail that is not said is empty.
pub fn put_explanation(out: &impl Print, refusal: usize, first: &[u8], second: &[u8]) {
    let Some(k) = refusal.checked_sub(1) else {
        return;
    };
    let Some(text) = EXPLANATIONS.get(k) else {
        return;
    };
    let mut rest = *text;
    while let Some(at) = rest.iter().position(|b| matches!(*b, b'%' | b'#')) {
        put(out, &rest[..at]);
        if rest[at] == b'%' {
            put_detail(out, first, b"A");
        } else {
            put_detail(out, second, b"B");
        }
        rest = &rest[at + 1..];
    }
    put(out, rest);
}
