// One writing run: the words of a trace, one of them changed, written into as many bytes as the vector says, and all compared.
use super::back::{TEXT, written_back};
use super::tell::Ran;
use super::vector::{CHANGED_AT, CHANGED_TO, OUT_BYTES, ROOM_WORDS, TextVector};
use super::written::{MARK, ran_with};
use event::Word;
use memory::Memory;
use trace::read;

// One event more than a trace can have.
const LONG_ROOM: usize = 4806;

// A writing, with a list or without; its trace is read without.
pub(crate) fn run_write(rt: &impl Print, ordinal: usize, vector: TextVector<'_>) -> Ran {
    let TextVector {
        header,
        text,
        written,
        call,
    } = vector;
    let mut room: [Word; LONG_ROOM] = [0; LONG_ROOM];
    let mut out: [u8; TEXT] = [MARK; TEXT];
    let memory = read(text, &mut room).map_or(Memory::empty(), |held| held.memory);
    if let Some(word) = room.get_mut(header.number(CHANGED_AT)) {
        *word = header.number(CHANGED_TO) as Word;
    }
    let words = header.number(ROOM_WORDS).min(LONG_ROOM);
    let bytes = header.number(OUT_BYTES).min(TEXT);
    let made = call.write(header.form(), memory, &room[..words], &mut out[..bytes]);
    let back = if made.is_ok() {
        written_back(call, written)
    } else {
        None
    };
    ran_with(rt, ordinal, vector, made, &out, back)
}
