// One check run: the texts checked in rooms of the lengths that the vector says, and all that comes back compared.
use super::back::{words_of, written_back};
use super::call::Call;
use super::tell::{Ran, is_marked, is_right};
use super::vector::{CheckVector, ENTRY_WORDS, Header, SOURCE_WORDS, TARGET_WORDS};
use checker::Checked;
use checker::line::offending_line;
use event::{EVENT_LIMIT, Entry, Word};
use files::check::{ROOM, Texts};
use kinds::is_in;
use text::word::same_bytes;

// What every word and every entry of a room is before a check: none that a vector has.
const MARK: Word = 3735928559;

const ENTRY_MARK: Entry = 3735928559;

// A check, and the rooms that it was lent parts of. They would be Vecs, but no program has a heap.
#[derive(Clone, Copy)]
struct InRooms {
    checked: Checked,
    source: [Word; ROOM],
    target: [Word; ROOM],
    entries: [Entry; EVENT_LIMIT],
}

impl InRooms {
    // The check in rooms of the lengths that the header says.
    fn new(call: Call<'_>, texts: Texts<'_>, header: Header<'_>) -> Self {
        let mut source: [Word; ROOM] = [MARK; ROOM];
        let mut target: [Word; ROOM] = [MARK; ROOM];
        let mut entries: [Entry; EVENT_LIMIT] = [ENTRY_MARK; EVENT_LIMIT];
        let source_words = header.number(SOURCE_WORDS).min(ROOM);
        let target_words = header.number(TARGET_WORDS).min(ROOM);
        let entry_words = header.number(ENTRY_WORDS).min(EVENT_LIMIT);
        let checked = call.check(
            texts,
            &mut source[..source_words],
            &mut target[..target_words],
            &mut entries[..entry_words],
        );
        InRooms {
            checked,
            source,
            target,
            entries,
        }
    }

    // Whether the rooms are as they were, but for what they hold at their fronts: nothing if a reading refuses.
    fn are_unchanged(&self) -> bool {
        let checked = self.checked;
        let refuses = is_in(
            checked.answer.number as Word,
            &[1, 2, 3, 4, 5, 6, 17, 20, 21, 22],
        );
        let held = |count: usize| if refuses { 0 } else { count };
        is_marked(&self.source, words_of(held(checked.source.events)), &MARK)
            && is_marked(&self.target, words_of(held(checked.target.events)), &MARK)
            && is_marked(&self.entries, held(checked.entries), &ENTRY_MARK)
    }
}

// A check, with a list or without.
pub(crate) fn run_check(rt: &impl Print, ordinal: usize, vector: CheckVector<'_>) -> Ran {
    let CheckVector {
        header,
        texts,
        given,
        call,
    } = vector;
    let rooms = InRooms::new(call, texts, header);
    let answer = rooms.checked.answer;
    let line = offending_line(texts.source, texts.target, answer);
    let source_back = written_back(call, texts.source);
    let target_back = written_back(call, texts.target);
    let right = is_right(
        rt,
        ordinal,
        header,
        answer,
        header.is_said(answer),
        &[
            (same_bytes(line, given), b"another line\n"),
            (rooms.are_unchanged(), b"a room changed\n"),
            (source_back.unwrap_or(true), b"another source written\n"),
            (target_back.unwrap_or(true), b"another target written\n"),
        ],
    );
    Ran {
        answer,
        right,
        back: usize::from(source_back.is_some()) + usize::from(target_back.is_some()),
    }
}
