// One list read alone, and its marks compared with the vector's.
use super::tell::{Ran, is_right};
use super::vector::TextVector;
use event::{Answer, Word};
use files::list::NO_LIST;
use memory::listed::Listed;

// Whether the locations listed are those whose byte is `1` among the vector's marks; a refused list has no marks, and lists none.
fn are_listed(listed: &Listed, marks: &[u8]) -> bool {
    for (location, is_listed) in listed.iter().enumerate() {
        if *is_listed != (marks.get(location) == Some(&b'1')) {
            return false;
        }
    }
    true
}

// A list, read for a group.
pub(crate) fn run_list(
    rt: &impl Print,
    ordinal: usize,
    vector: TextVector<'_>,
    group: Word,
) -> Ran {
    let header = vector.header;
    let read = registers::read(vector.text, group);
    let answer = Answer::of_bytes(read.map(|_| 0));
    let listed = read.unwrap_or(NO_LIST);
    let right = is_right(
        rt,
        ordinal,
        header,
        answer,
        header.is_said(answer),
        &[(are_listed(&listed, vector.written), b"other registers\n")],
    );
    Ran {
        answer,
        right,
        back: usize::from(read.is_ok()),
    }
}
