// The reading of a trace text: judged in one pass, stored in a second, so that a refusal stores nothing.
ghost use Rattle.std.specs.Prelude.{◌≡◌, ◌≤◌, ◌<◌, replicate, false};
ghost use Rattle.memory.specs.Memory.{empty as empty_memory};
ghost use Rattle.event.specs.Room.{put_at};
ghost use Rattle.text.specs.Line.{split_from};
ghost use Rattle.frame.specs.Store.{put_all};
ghost use Rattle.trace.specs.Reading.{Reads, survey_in, room_for, events_of};
ghost use Rattle.trace.specs.Survey.{init_on, survey_inits, survey_events};
ghost use Rattle.event.specs.Limit.{places};

use crate::ahead::next_event;
use crate::fault::{bare_fault, fault_at, is_right};
use crate::form::{form_of, head_fault_of};
use event::room::put;
use event::{Answer, EVENT_LIMIT, Number, PLACES, WORDS, Word, index_of};
use memory::listed::Listed;
use memory::{Memory, Stepped};
use record::form::Form;
use record::{Record, record_of};
use text::line::{line_two, next_line};
use uses::cover::idle_fault;
use uses::{UNTOUCHED, Ways, use_listed};

// What is held of a trace that was read: the number of its events, and its starting memory.
#[derive(Clone, Copy)]
pub struct Held {
    pub events: usize,
    pub memory: Memory,
}

// The lines from line `line` on, which are to be events: each is tried for 2, 4, 3, and its event for 20 and for 5, 6, which come after all lines; `has`
// says which locations have a line. 20 comes before 21, and that before 5 and 6.
#[tactic(auto, using(text::proofs::Walk::line_in))]
fn survey_events(
    listed: &Listed,
    form: Form,
    text: &[u8],
    from: usize,
    line: usize,
    side: Number,
    has: &[bool; PLACES],
    start: Memory,
) -> Result<Held, Answer>
    requires line_le_from { line ≤ from }
    requires from_nonzero { 0 < from }
    ensures { Reads result (survey_events listed.now form side line has.now start (split_from text.now from)) }
{
    let mut last = Stepped {
        memory: start,
        right: true,
    };
    let mut ways: Ways = [UNTOUCHED; PLACES];
    let mut bare: Result<(), Answer> = Ok(());
    let mut found: Result<(), Answer> = Ok(());
    let mut at = from;
    let mut k = line;
    let mut n: usize = 0;
    while let Some(to) = next_line(text, at) {
        let e = match record_of(form, &text[at..to]) {
            None => return Err(Answer::new(2, side, k)),
            Some(Record::Init { place: _, value: _ }) => return Err(Answer::new(4, side, k)),
            Some(Record::AnEvent(e)) => e,
        };
        if EVENT_LIMIT <= n {
            return Err(Answer::new(3, side, k));
        }
        n += 1;
        bare = bare_fault(bare, form, has, e, side, n);
        let clash = use_listed(listed, &mut ways, e);
        last = last.memory.step(e);
        found = fault_at(found, clash, is_right(listed, e, last.right), side, n);
        k += 1;
        at = to + 1;
    }
    if at < text.len() {
        return Err(Answer::new(2, side, k));
    }
    bare?;
    idle_fault(form, side, has, &start.cells, &ways)?;
    found?;
    Ok(Held {
        events: n,
        memory: start,
    })
}

// The location and the value of a line, if it has a starting value.
fn init_on(line: Option<Record>) -> Option<(Word, Word)>
    ensures { result ≡ init_on line }
{
    match line? {
        Record::Init { place, value } => Some((place, value)),
        Record::AnEvent(_) => None,
    }
}

// The lines after line 1: the starting values, then the events.
#[tactic(auto, using(text::proofs::Walk::line_in, crate::proofs::Inits::handed, crate::proofs::Inits::init_in))]
fn survey_lines(
    listed: &Listed,
    form: Form,
    text: &[u8],
    from: usize,
    side: Number,
) -> Result<Held, Answer>
    requires { 2 ≤ from }
    ensures { Reads result (survey_inits listed.now form side 2 0 (replicate places false) empty_memory (split_from text.now from)) }
{
    let mut start = Memory::empty();
    let mut has: [bool; PLACES] = [false; PLACES];
    let mut at = from;
    let mut k: usize = 2;
    let mut low: Word = 0;
    while let Some(to) = next_line(text, at) {
        let Some((place, value)) = init_on(record_of(form, &text[at..to])) else {
            break;
        };
        if place < low {
            return Err(Answer::new(4, side, k));
        }
        let cell = index_of(place);
        start.cells[cell] = value;
        has[cell] = true;
        low = place + 1;
        k += 1;
        at = to + 1;
    }
    survey_events(listed, form, text, at, k, side, &has, start)
}

// The answers of a text but 17, or what is held of it.
#[tactic(auto, using(crate::proofs::Readings::head_refused, crate::proofs::Readings::head_passed, crate::proofs::Readings::line_two_in))]
pub fn survey(listed: &Listed, text: &[u8], side: Number) -> Result<Held, Answer>
    ensures { Reads result (survey_in listed.now side text.now) }
{
    let form = form_of(text);
    head_fault_of(form, text, side)?;
    survey_lines(listed, form, text, line_two(text), side)
}

// Those and 17, for a room of so many words.
pub fn survey_in(listed: &Listed, text: &[u8], side: Number, words: usize) -> Result<Held, Answer>
    ensures { Reads result (room_for side words (survey_in listed.now side text.now)) }
{
    let held = survey(listed, text, side)?;
    if words / WORDS < held.events {
        return Err(Answer::new(17, side, held.events));
    }
    Ok(held)
}

// The events of a text, put one after the other from the start of a room on; one that the room does not hold is not put.
#[tactic(auto, using(crate::proofs::Walks::events_heard, crate::proofs::Stores::put_heard, crate::proofs::Stores::put_none))]
pub fn store(text: &[u8], room: &mut [Word])
    ensures { room.new ≡ put_all put_at room.old 0 (events_of text.now) }
{
    let form = form_of(text);
    let mut at = line_two(text);
    let mut i: usize = 0;
    while let Some(found) = next_event(form, text, at) {
        put(room, i, found.event);
        i += 1;
        at = found.next;
    }
}
