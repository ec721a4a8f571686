// One shortening run: the text shortened into as many bytes as the vector says, both texts compared with what they should be, the other bytes found as they
// were, and the check of what came out accepted.
use super::back::TEXT;
use super::call::Call;
use super::tell::{Ran, is_marked, is_right};
use super::vector::{CheckVector, SOURCE_WORDS, TARGET_WORDS};
use super::written::MARK;
use event::{Answer, EVENT_LIMIT, Entry, Word};
use files::check::{ROOM, Texts};

// Whether the check of a text that was shortened accepts.
fn is_accepted(call: Call<'_>, texts: Texts<'_>) -> bool {
    let mut source_room: [Word; ROOM] = [0; ROOM];
    let mut target_room: [Word; ROOM] = [0; ROOM];
    let mut entry_room: [Entry; EVENT_LIMIT] = [0; EVENT_LIMIT];
    let found = call.check(texts, &mut source_room, &mut target_room, &mut entry_room);
    found.answer.number == 0
}

// Whether a text stands at the front of bytes, and the others are as they were.
fn is_front(out: &[u8], text: &[u8]) -> bool {
    out.starts_with(text) && is_marked(out, text.len(), &MARK)
}

// A shortening, with a list or without: a shortening's header has the bytes lent where a check's has the words.
pub(crate) fn run_short(rt: &impl Print, ordinal: usize, vector: CheckVector<'_>) -> Ran {
    let CheckVector {
        header,
        texts,
        call,
        ..
    } = vector;
    let short = texts.target;
    let matching = texts.matching;
    let mut out: [u8; TEXT] = [MARK; TEXT];
    let mut matching_out: [u8; TEXT] = [MARK; TEXT];
    let bytes = header.number(SOURCE_WORDS).min(TEXT);
    let matching_bytes = header.number(TARGET_WORDS).min(TEXT);
    let made = call.shorten(
        texts.source,
        &mut out[..bytes],
        &mut matching_out[..matching_bytes],
    );
    let answer = Answer::of_bytes(made.map(|_| 0));
    // There is no check of a refused one. Under a refusal there is no text, and no byte is counted.
    let back = if made.is_ok() {
        Some(is_accepted(call, texts))
    } else {
        None
    };
    let counted = made.map_or((0, 0), |short| (short.bytes, short.matching_bytes));
    let told = header.is_said(answer) && counted == (short.len(), matching.len());
    let right = is_right(
        rt,
        ordinal,
        header,
        answer,
        told,
        &[
            (is_front(&out, short), b"another text, or a byte changed\n"),
            (
                is_front(&matching_out, matching),
                b"another matching, or a byte changed\n",
            ),
            (back.unwrap_or(true), b"not accepted\n"),
        ],
    );
    Ran {
        answer,
        right,
        back: usize::from(back.is_some()),
    }
}
