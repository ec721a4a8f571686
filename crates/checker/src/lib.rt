// The check of a matching between two trace texts, with a list of registers too (`check_listed`), and the line at fault.
#![tactic(auto)]

pub mod line;

ghost use Rattle.std.specs.Prelude.{◌≡◌, ◌*◌, ◌≤◌, length, take};
ghost use Rattle.registers.specs.Reading.{list_of};
ghost use Rattle.event.specs.Room.{Placed, event_words};
ghost use Rattle.checker.specs.Check.{Checks, ChecksIn, ChecksListed, ReadsTexts, judged_in, lent, refused};
ghost use Rattle.event.specs.Limit.{event_limit};

use event::{Answer, Entry, PLACES, WORDS, Word};
use judge::judge;
use memory::Memory;
use memory::listed::Listed;
use trace::reading::{Held, store, survey_in};

// What a check hands back: its answer, what is held of both traces, and how many entries; all 0 where a reading refuses.
// The answer stands beside what is held, and is no Err of it: both traces are held after 7 to 16 too (`check_in` of specs/Check.antt).
#[derive(Clone, Copy)]
pub struct Checked {
    pub answer: Answer,
    pub source: Held,
    pub target: Held,
    pub entries: usize,
}

// What a refused reading hands back: its answer, and zeros.
pub fn refusal(answer: Answer) -> Checked
    ensures { result ≡ refused answer }
{
    let nothing = Held {
        events: 0,
        memory: Memory::empty(),
    };
    Checked {
        answer,
        source: nothing,
        target: nothing,
        entries: 0,
    }
}

// What is held of both traces and how many entries there are, or the first refusal, for the rooms lent: nothing is stored yet.
// Three texts and three rooms, as docs/CONTRACTS.md names the parameters of `check_in`: a struct of them would be built there to be taken apart here.
#[tactic(auto, unfolding(trace::specs::Reading::read_in, matching::specs::Reading::read_of), using(crate::proofs::Answers::by_source))]
fn read_texts(
    listed: &Listed,
    source: &[u8],
    target: &[u8],
    matching: &[u8],
    source_room: &[Word],
    target_room: &[Word],
    entry_room: &[Entry],
) -> Result<(Held, Held, usize), Answer>
    ensures { ReadsTexts listed.now
        (lent source.now target.now matching.now source_room.now target_room.now entry_room.now)
        result }
{
    let s = survey_in(listed, source, 1, source_room.len())?;
    let t = survey_in(listed, target, 2, target_room.len())?;
    let entries = matching::survey_in(matching, entry_room.len())?;
    Ok((s, t, entries))
}

// The events and entries at the front of the rooms, judged under a list of registers.
#[tactic(auto, unfolding(crate::specs::Check::judged_in))]
fn judged(
    listed: &Listed,
    source: &Held,
    target: &Held,
    entries: usize,
    source_room: &[Word],
    target_room: &[Word],
    entry_room: &[Entry],
) -> Checked
    requires event_words_in_bounds { source.now.events * event_words ≤ length source_room.now }
    requires event_words_in_bounds_2 { target.now.events * event_words ≤ length target_room.now }
    requires entries_in_bounds { entries ≤ length entry_room.now }
    requires events_le_event_limit { (source.now.events ≤ event_limit) × (target.now.events ≤ event_limit) }
    requires placed { Placed (take (source.now.events * event_words) source_room.now) }
    requires placed_2 { Placed (take (target.now.events * event_words) target_room.now) }
    ensures { result ≡ judged_in listed.now source.now target.now entries
        (take (source.now.events * event_words) source_room.now)
        (take (target.now.events * event_words) target_room.now)
        (take entries entry_room.now) }
{
    let answer = judge(
        listed,
        source.memory,
        target.memory,
        &source_room[..source.events * WORDS],
        &target_room[..target.events * WORDS],
        &entry_room[..entries],
    );
    Checked {
        answer,
        source: *source,
        target: *target,
        entries,
    }
}

// A check under a list of registers: the three texts are read and judged; a reading's refusal stores nothing in any room.
pub fn check_in(
    listed: &Listed,
    source: &[u8],
    target: &[u8],
    matching: &[u8],
    source_room: &mut [Word],
    target_room: &mut [Word],
    entry_room: &mut [Entry],
) -> Checked
    ensures { ChecksIn listed.now
        (lent source.now target.now matching.now
        source_room.old target_room.old entry_room.old)
        result source_room.new target_room.new entry_room.new }
{
    let (s, t, entries) = match read_texts(
        listed,
        source,
        target,
        matching,
        source_room,
        target_room,
        entry_room,
    ) {
        Ok(read) => read,
        Err(answer) => return refusal(answer),
    };
    store(source, source_room);
    store(target, target_room);
    matching::store(matching, entry_room);
    judged(
        listed,
        &s,
        &t,
        entries,
        source_room,
        target_room,
        entry_room,
    )
}

// The same without a list: none is listed.
pub fn check(
    source: &[u8],
    target: &[u8],
    matching: &[u8],
    source_room: &mut [Word],
    target_room: &mut [Word],
    entry_room: &mut [Entry],
) -> Checked
    ensures { Checks
        (lent source.now target.now matching.now
        source_room.old target_room.old entry_room.old)
        result source_room.new target_room.new entry_room.new }
{
    check_in(
        &[false; PLACES],
        source,
        target,
        matching,
        source_room,
        target_room,
        entry_room,
    )
}

// With the text of a list and a group of it: the list's answer comes first.
#[tactic(auto, using(crate::proofs::Answers::listed_refused, crate::proofs::Answers::listed_checks))]
pub fn check_listed(
    list: &[u8],
    group: Word,
    source: &[u8],
    target: &[u8],
    matching: &[u8],
    source_room: &mut [Word],
    target_room: &mut [Word],
    entry_room: &mut [Entry],
) -> Checked
    ensures { ChecksListed (list_of group list.now)
        (lent source.now target.now matching.now
        source_room.old target_room.old entry_room.old)
        result source_room.new target_room.new entry_room.new }
{
    match registers::read(list, group) {
        Ok(listed) => check_in(
            &listed,
            source,
            target,
            matching,
            source_room,
            target_room,
            entry_room,
        ),
        Err(found) => refusal(found),
    }
}
