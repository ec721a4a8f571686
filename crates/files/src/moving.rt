// What the program `laprunto_move` does: the trace of a file moved to a form, the moved text written to another, the answer printed.
use crate::filled::Filled;
use crate::print::{front, print_answer_line};
use crate::read::{Text, read_text, text_buffer};
use crate::write::write_file;
use event::Answer;
use memory::listed::Listed;
use record::form::Form;
use std::rt::Files;
use writer::moving::move_in;

// The file of this name, moved under a list, whose answer comes first. The other file is written only if the move is done, and `done` is printed only if
// it is written. A call, as `list_of` is.
#[inline(never)]
pub fn move_file(
    rt: &(impl Files + Print),
    err: &impl Print,
    list: Result<Listed, Answer>,
    to: Form,
    name: &[u8],
    out_name: &[u8],
) {
    let mut text: Text = Filled::new();
    read_text(rt, name, &mut text);
    // A Vec needs the heap, which the programs have not: what is made stands at the front of a room.
    let mut out = text_buffer();
    let moved = match list {
        Ok(listed) => move_in(&listed, to, text.as_slice(), &mut out),
        Err(refusal) => Err(refusal),
    };
    if let Ok(bytes) = moved
        && !write_file(rt, err, out_name, front(&out, bytes))
    {
        return;
    }
    print_answer_line(rt, "done", Answer::of_bytes(moved));
}
