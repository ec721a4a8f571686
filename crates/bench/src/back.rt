// Texts that come back: a lawful trace that is read and written again, a moved one that is moved again. What was refused has no text, and so none that
// comes back; of the others it is said whether they come back as they were.
use super::call::Call;
use super::tell::front;
use event::{WORDS, Word};
use files::check::ROOM;
use text::word::same_bytes;
use trace::form::form_of;

// The most bytes of a text. What is made stands at the front of a room of so many: a Vec needs the heap, which no program has.
pub(crate) const TEXT: usize = 57300;

// The most events of a trace.
const MOST_EVENTS: usize = 800;

// The words of events.
pub(crate) fn words_of(events: usize) -> usize {
    if MOST_EVENTS < events {
        return 0;
    }
    events * WORDS
}

// A trace text, written as it was read.
pub(crate) fn written_back(call: Call<'_>, text: &[u8]) -> Option<bool> {
    let mut room: [Word; ROOM] = [0; ROOM];
    let mut out: [u8; TEXT] = [0; TEXT];
    let held = call.read(text, &mut room).ok()?;
    let words = words_of(held.events).min(ROOM);
    let written = call.write(form_of(text), held.memory, &room[..words], &mut out);
    Some(written.is_ok_and(|bytes| same_bytes(front(&out, bytes), text)))
}

// A text moved from another, moved to the form of that.
pub(crate) fn moved_back(call: Call<'_>, moved: &[u8], text: &[u8]) -> bool {
    let mut out: [u8; TEXT] = [0; TEXT];
    let back = call.move_to(form_of(text), moved, &mut out);
    back.is_ok_and(|bytes| same_bytes(front(&out, bytes), text))
}
