// What a move or the writer gives: its answer, and the bytes that it was lent.
use super::tell::{Ran, is_marked, is_right};
use super::vector::TextVector;
use event::Answer;

// What every byte is before a call: no byte of a text.
pub(crate) const MARK: u8 = 170;

// All of it compared with what the vector says: the answer, the text at the front, the bytes behind it, and what comes back.
pub(crate) fn ran_with(
    rt: &impl Print,
    ordinal: usize,
    vector: TextVector<'_>,
    made: Result<usize, Answer>,
    out: &[u8],
    back: Option<bool>,
) -> Ran {
    let header = vector.header;
    let text = vector.written;
    let answer = Answer::of_bytes(made);
    let right = is_right(
        rt,
        ordinal,
        header,
        answer,
        header.is_said(answer),
        &[
            (out.starts_with(text), b"another text\n"),
            (is_marked(out, text.len(), &MARK), b"a byte changed\n"),
            (back.unwrap_or(true), b"another text comes back\n"),
        ],
    );
    Ran {
        answer,
        right,
        back: usize::from(back.is_some()),
    }
}
