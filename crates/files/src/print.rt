// The lines that the programs print, on standard output: fields parted by tabs.
ghost use Rattle.std.specs.Prelude.{◌≡◌, take};

use event::Answer;

// What can't be written is left out, and nothing is said of it: no program has an exit status.
pub fn print(rt: &impl Print, text: &[u8]) {
    let _ = rt.write_all(text);
}

// The elements at the front, of as many as there are.
pub(crate) fn front<T>(room: &[T], count: usize) -> &[T]
    ensures { result.now ≡ take count room.now }
{
    &room[..count.min(room.len())]
}

// An answer's number, side and place, and the end of the line.
pub fn print_answer(rt: &impl Print, answer: Answer) {
    let Answer {
        number,
        side,
        place,
    } = answer;
    let _ = println!(rt; "\t{number}\t{side}\t{place}");
}

// The answer line of a program: its word for number 0, else `refused`, and the answer.
pub(crate) fn print_answer_line(rt: &impl Print, done: &str, answer: Answer) {
    let word = if answer.number == 0 { done } else { "refused" };
    print(rt, word.as_bytes());
    print_answer(rt, answer);
}

// A line, if there is one.
pub fn print_line(rt: &impl Print, line: &[u8]) {
    if !line.is_empty() {
        print(rt, line);
        print(rt, b"\n");
    }
}
