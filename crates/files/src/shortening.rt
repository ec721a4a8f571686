// What the program `laprunto_shorten` does: the trace of a file shortened, the shortened text and its matching written to two others, the answer printed.
use crate::filled::Filled;
use crate::print::{front, print_answer_line};
use crate::read::{Text, read_text, text_buffer};
use crate::write::write_file;
use event::Answer;
use memory::listed::Listed;
use shorten::shorten_in;
use std::rt::Files;

// The file of this name, shortened under a list, whose answer comes first. The two others are written only if the shortening is done, and `done` is printed
// only if they are. A call, as `list_of` is.
#[inline(never)]
pub fn shorten_file(
    rt: &(impl Files + Print),
    err: &impl Print,
    list: Result<Listed, Answer>,
    name: &[u8],
    out_name: &[u8],
    matching_name: &[u8],
) {
    let mut text: Text = Filled::new();
    read_text(rt, name, &mut text);
    // A Vec needs the heap, which the programs have not: what is made stands at the front of a room.
    let mut out = text_buffer();
    let mut matching = text_buffer();
    let made = match list {
        Ok(listed) => shorten_in(&listed, text.as_slice(), &mut out, &mut matching),
        Err(refusal) => Err(refusal),
    };
    if let Ok(short) = made {
        let written = write_file(rt, err, out_name, front(&out, short.bytes))
            && write_file(
                rt,
                err,
                matching_name,
                front(&matching, short.matching_bytes),
            );
        if !written {
            return;
        }
    }
    print_answer_line(rt, "done", Answer::of_bytes(made.map(|_| 0)));
}
