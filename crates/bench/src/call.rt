// Every call with a list of registers for a group, or without one: one function of each pair, since both are named in README.md and may not go.
use checker::{Checked, check, check_listed};
use event::{Answer, Entry, Word};
use files::check::Texts;
use files::list::NO_LIST;
use memory::Memory;
use memory::listed::Listed;
use record::form::Form;
use shorten::{Shortened, shorten, shorten_listed};
use trace::reading::Held;
use trace::{read, read_listed};
use writer::moving::{move_listed, move_to};
use writer::{write, write_listed};

// The text of a list, and the group whose lines are used.
#[derive(Clone, Copy)]
pub(crate) struct ListFor<'a> {
    pub list: &'a [u8],
    pub group: Word,
}

// A call: with a list, or without.
#[derive(Clone, Copy)]
pub(crate) struct Call<'a> {
    pub list: Option<ListFor<'a>>,
}

impl Call<'_> {
    // Which locations are listed.
    pub fn listed(self) -> Result<Listed, Answer> {
        match self.list {
            Some(ListFor { list, group }) => registers::read(list, group),
            None => Ok(NO_LIST),
        }
    }

    pub fn check(
        self,
        texts: Texts<'_>,
        source_room: &mut [Word],
        target_room: &mut [Word],
        entry_room: &mut [Entry],
    ) -> Checked {
        let Texts {
            source,
            target,
            matching,
        } = texts;
        match self.list {
            Some(ListFor { list, group }) => check_listed(
                list,
                group,
                source,
                target,
                matching,
                source_room,
                target_room,
                entry_room,
            ),
            None => check(
                source,
                target,
                matching,
                source_room,
                target_room,
                entry_room,
            ),
        }
    }

    pub fn read(self, text: &[u8], room: &mut [Word]) -> Result<Held, Answer> {
        match self.list {
            Some(ListFor { list, group }) => read_listed(list, group, text, room),
            None => read(text, room),
        }
    }

    pub fn write(
        self,
        form: Form,
        memory: Memory,
        room: &[Word],
        out: &mut [u8],
    ) -> Result<usize, Answer> {
        match self.list {
            Some(ListFor { list, group }) => write_listed(list, group, form, memory, room, out),
            None => write(form, memory, room, out),
        }
    }

    pub fn move_to(self, to: Form, text: &[u8], out: &mut [u8]) -> Result<usize, Answer> {
        match self.list {
            Some(ListFor { list, group }) => move_listed(list, group, to, text, out),
            None => move_to(to, text, out),
        }
    }

    pub fn shorten(
        self,
        text: &[u8],
        out: &mut [u8],
        matching_out: &mut [u8],
    ) -> Result<Shortened, Answer> {
        match self.list {
            Some(ListFor { list, group }) => shorten_listed(list, group, text, out, matching_out),
            None => shorten(text, out, matching_out),
        }
    }
}
