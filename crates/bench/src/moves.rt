// One move run: the text moved into as many bytes as the vector says, all that comes back compared, and what was moved moved back.
use super::back::{TEXT, moved_back};
use super::tell::Ran;
use super::vector::{OUT_BYTES, TextVector};
use super::written::{MARK, ran_with};

// A move, with a list or without.
pub(crate) fn run_move(rt: &impl Print, ordinal: usize, vector: TextVector<'_>) -> Ran {
    let TextVector {
        header,
        text,
        written,
        call,
    } = vector;
    let mut out: [u8; TEXT] = [MARK; TEXT];
    let bytes = header.number(OUT_BYTES).min(TEXT);
    let made = call.move_to(header.form(), text, &mut out[..bytes]);
    let back = if made.is_ok() {
        Some(moved_back(call, written, text))
    } else {
        None
    };
    ran_with(rt, ordinal, vector, made, &out, back)
}
