// What the program `laprunto` prints of three texts under a list of registers: the answer, and the line at fault.
use crate::print::{print_answer_line, print_line};
use checker::check_in;
use checker::line::offending_line;
use event::{Answer, EVENT_LIMIT, Entry, WORDS, Word};
use memory::listed::Listed;

// The most words of a trace's events.
pub const ROOM: usize = 4800;

// The three texts of a check.
#[derive(Clone, Copy)]
pub struct Texts<'a> {
    pub source: &'a [u8],
    pub target: &'a [u8],
    pub matching: &'a [u8],
}

// What the check of a source and a target found.
pub(crate) fn print_found(rt: &impl Print, texts: Texts<'_>, answer: Answer) {
    print_answer_line(rt, "accepted", answer);
    print_line(rt, offending_line(texts.source, texts.target, answer));
}

// The answer to three texts, and the line at fault.
pub fn print_check(rt: &impl Print, listed: &Listed, texts: Texts<'_>) {
    let mut source_room: [Word; ROOM] = [0; ROOM];
    let mut target_room: [Word; ROOM] = [0; ROOM];
    let mut entry_room: [Entry; EVENT_LIMIT] = [0; EVENT_LIMIT];
    let checked = check_in(
        listed,
        texts.source,
        texts.target,
        texts.matching,
        &mut source_room,
        &mut target_room,
        &mut entry_room,
    );
    print_found(rt, texts, checked.answer);
}
