// What every vector is asked, and what is printed of one that differs.
use super::vector::Header;
use event::Answer;
use files::print::{print, print_answer};

// What a vector gives: its answer, whether all is as the vector says, and how many texts came back or steps were followed.
#[derive(Clone, Copy)]
pub(crate) struct Ran {
    pub answer: Answer,
    pub right: bool,
    pub back: usize,
}

// The elements at the front; none if there are not so many.
pub(crate) fn front<T>(room: &[T], count: usize) -> &[T] {
    room.get(..count).unwrap_or(&[])
}

// Whether a room is marked from a place on.
pub(crate) fn is_marked<T: PartialEq>(room: &[T], from: usize, mark: &T) -> bool {
    room.iter().skip(from).all(|x| x == mark)
}

// Whether the answer of a vector is told as it should be, and each test of it holds. Where one does not, its ordinal and name are printed, the answer that it
// says and the one given, and what of it differs.
pub(crate) fn is_right(
    rt: &impl Print,
    ordinal: usize,
    header: Header<'_>,
    answer: Answer,
    told: bool,
    tests: &[(bool, &[u8])],
) -> bool {
    if told && tests.iter().all(|test| test.0) {
        return true;
    }
    let [number, side, place] = header.answer();
    let _ = print!(rt; "vector\t{ordinal}\t");
    print(rt, header.name());
    let _ = print!(rt; "\nexpected\t{number}\t{side}\t{place}\ngiven");
    print_answer(rt, answer);
    for (holds, line) in tests {
        if !*holds {
            print(rt, line);
        }
    }
    false
}
