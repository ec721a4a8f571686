// The list of registers of a call: what its file says, or that none is listed.
use crate::args::{Options, name_at};
use crate::filled::Filled;
use crate::read::{Text, read_text};
use event::{Answer, PLACES, Word};
use memory::listed::Listed;
use std::rt::{Env, Files};

// Without a list none is listed.
pub const NO_LIST: Listed = [false; PLACES];

// The group that is meant where none is named.
const FIRST_GROUP: Word = 1;

// The list in the file of this name, for a group. It is a call and not put in, as each function is that makes rooms of texts, so that these lie where those
// of the one before lay.
#[inline(never)]
pub fn list_of(rt: &impl Files, name: &[u8], group: Word) -> Result<Listed, Answer> {
    let mut list: Text = Filled::new();
    read_text(rt, name, &mut list);
    registers::read(list.as_slice(), group)
}

// The list that the options of a call name; without one nothing is refused.
pub fn list_given(rt: &(impl Env + Files), options: Options) -> Result<Listed, Answer> {
    let Some(place) = options.list else {
        return Ok(NO_LIST);
    };
    let name = name_at(rt, place);
    list_of(rt, name.as_slice(), options.group.unwrap_or(FIRST_GROUP))
}
