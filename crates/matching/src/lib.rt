// Matching texts, read into a room: an entry to a word. A text is judged in one pass and stored in a second, so that a refusal stores nothing.
#![tactic(auto)]

pub mod entry;

ghost use Rattle.std.specs.Prelude.{◌≡◌, ◌+◌, ◌≤◌, ◌<◌, leb, length, set};
ghost use Rattle.event.specs.Limit.{event_limit};
ghost use Rattle.text.specs.Line.{split_from};
ghost use Rattle.frame.specs.Store.{put_all};
ghost use Rattle.matching.specs.Reading.{Reads, survey_of, room_for, entries_on, entries_of, read_of, room_after};
ghost use Rattle.matching.specs.Survey.{survey_lines};

use entry::entry_of;
use event::{Answer, EVENT_LIMIT, Entry};
use frame::head_fault;
use text::line::{line_two, next_line};

// The most bytes.
const MATCHING_LIMIT: usize = 32400;

// Whether an entry after n others is one too many: an entry is a source event's, so that there are at most as many.
fn is_full(n: usize) -> bool
    ensures { result ≡ leb event_limit n }
{
    EVENT_LIMIT <= n
}

// The lines after line 1: each is tried for 2 and 3; how many entries they are.
#[tactic(auto, using(crate::proofs::Turns::line_in))]
fn survey_lines(text: &[u8], from: usize) -> Result<usize, Answer>
    requires { 2 ≤ from }
    ensures { Reads result (survey_lines 0 (split_from text.now from)) }
{
    let mut at = from;
    let mut n: usize = 0;
    while let Some(to) = next_line(text, at) {
        if entry_of(&text[at..to]).is_none() {
            return Err(Answer::new(2, 3, n + 2));
        }
        if is_full(n) {
            return Err(Answer::new(3, 3, n + 2));
        }
        n += 1;
        at = to + 1;
    }
    if at < text.len() {
        return Err(Answer::new(2, 3, n + 2));
    }
    Ok(n)
}

// Answers 1 to 3 of a text, or its number of entries.
#[tactic(auto, using(crate::proofs::Turns::head_refused, crate::proofs::Turns::head_passed, crate::proofs::Turns::line_two_in))]
fn survey(text: &[u8]) -> Result<usize, Answer>
    ensures { Reads result (survey_of text.now) }
{
    head_fault(text, 3, MATCHING_LIMIT, b"match\t1")?;
    survey_lines(text, line_two(text))
}

// Answers 1 to 3 and 17, for a room of so many words, or the number of entries.
pub fn survey_in(text: &[u8], words: usize) -> Result<usize, Answer>
    ensures { Reads result (room_for words (survey_of text.now)) }
{
    let entries = survey(text)?;
    if words < entries {
        return Err(Answer::new(17, 3, entries));
    }
    Ok(entries)
}

// A word at an index; where the room does not hold it, the room stays as it is.
// By index: of a slice lent by `get_mut` a proof knows the length afterwards, and no element.
fn put(room: &mut [Entry], i: usize, e: Entry)
    ensures { room.new ≡ set room.old i e }
{
    if i < room.len() {
        room[i] = e;
    }
}

// The room with a line's entry at an index; what comes back is the next index.
#[tactic(auto, unfolding(frame::specs::Store::put_all))]
fn put_entry(room: &mut [Entry], i: usize, line: Option<Entry>) -> usize
    requires { i < 18446744073709551615 }
    ensures { (result ≡ i + length (entries_on line)) × (room.new ≡ put_all set room.old i (entries_on line)) }
{
    match line {
        Some(e) => {
            put(room, i, e);
            i + 1
        }
        None => i,
    }
}

// The entries of a text, put one after the other from the start of a room on; one that the room does not hold is not put.
#[tactic(auto, unfolding(crate::specs::Reading::entries_of), using(crate::proofs::Turns::line_in))]
pub fn store(text: &[u8], room: &mut [Entry])
    ensures { room.new ≡ put_all set room.old 0 (entries_of text.now) }
{
    let mut at = line_two(text);
    let mut i: usize = 0;
    while let Some(to) = next_line(text, at) {
        i = put_entry(room, i, entry_of(&text[at..to]));
        at = to + 1;
    }
}

// A matching text read alone: how many entries stand at the front of the room, or a refusal, which changes nothing.
#[tactic(auto, unfolding(crate::specs::Reading::read_of), using(crate::proofs::Readings::room_kept))]
pub fn read(text: &[u8], room: &mut [Entry]) -> Result<usize, Answer>
    ensures { Reads result (read_of text.now room.old) × (room.new ≡ room_after text.now room.old) }
{
    let entries = survey_in(text, room.len())?;
    store(text, room);
    Ok(entries)
}
