// Trace texts read into a room (`read`), with a list of registers too (`read_listed`).
#![tactic(auto)]

pub mod ahead;
pub mod fault;
pub mod form;
pub mod reading;

ghost use Rattle.std.specs.Prelude.{◌≡◌};
ghost use Rattle.registers.specs.Reading.{list_of};
ghost use Rattle.trace.specs.Listed.{read_listed, room_listed};
ghost use Rattle.trace.specs.Reading.{Reads, read_in, room_after_in, read_of, room_after};

use event::{Answer, PLACES, Word};
use memory::listed::Listed;
use reading::{Held, store, survey_in};

// A trace text read alone, side 1, under a list of registers: its events at the front of the room, or a refusal, which changes nothing.
pub fn read_in(listed: &Listed, text: &[u8], room: &mut [Word]) -> Result<Held, Answer>
    ensures { Reads result (read_in listed.now 1 text.now room.old) × (room.new ≡ room_after_in listed.now 1 text.now room.old) }
{
    let held = survey_in(listed, text, 1, room.len())?;
    store(text, room);
    Ok(held)
}

// The same without a list: none is listed.
pub fn read(text: &[u8], room: &mut [Word]) -> Result<Held, Answer>
    ensures { Reads result (read_of 1 text.now room.old) × (room.new ≡ room_after 1 text.now room.old) }
{
    read_in(&[false; PLACES], text, room)
}

// With the text of a list and a group of it: the list's answer comes first.
pub fn read_listed(list: &[u8], group: Word, text: &[u8], room: &mut [Word]) -> Result<Held, Answer>
    ensures { Reads result (read_listed (list_of group list.now) text.now room.old)
        × (room.new ≡ room_listed (list_of group list.now) text.now room.old) }
{
    let listed = registers::read(list, group)?;
    read_in(&listed, text, room)
}
