// Trace texts written from a room (`write`) and moved from one form to the other (`moving::move_to`); each with a list of registers too (`write_listed`,
// `moving::move_listed`).
#![tactic(auto)]

pub mod moving;
pub mod put;
pub mod touch;

ghost use Rattle.std.specs.Prelude.{◌≡◌};
ghost use Rattle.registers.specs.Reading.{list_of};
ghost use Rattle.trace.specs.Listed.{write_listed, out_listed};
ghost use Rattle.trace.specs.Writing.{write_in, out_after_in, write_of, out_after};
ghost use Rattle.writer.specs.Wrote.{Wrote};

use event::{Answer, PLACES, Word};
use memory::Memory;
use memory::listed::Listed;
use put::{put_text, size_of};
use record::form::Form;
use refusals::room::{count_of, write_fault};
use touch::touch_all;
use uses::{UNTOUCHED, Ways};

// A starting memory and the events of a part of a room, written under a list of registers as a text of a form at the front of the lent bytes: how many
// bytes it has, or a refusal, with side 0, which changes nothing.
#[tactic(auto, unfolding(trace::specs::Writing::write_in, trace::specs::Writing::out_after_in))]
pub fn write_in(
    listed: &Listed,
    form: Form,
    memory: Memory,
    room: &[Word],
    out: &mut [u8],
) -> Result<usize, Answer>
    ensures { Wrote result (write_in listed.now form memory room.now out.old)
        × (out.new ≡ out_after_in listed.now form memory room.now out.old) }
{
    write_fault(listed, form, memory, room)?;
    let n = count_of(room);
    let mut ways: Ways = [UNTOUCHED; PLACES];
    touch_all(&mut ways, room, n);
    let size = size_of(form, &ways, memory, room, n);
    if out.len() < size {
        return Err(Answer::new(17, 0, size));
    }
    put_text(form, out, &ways, memory, room, n);
    Ok(size)
}

// The same without a list: none is listed.
pub fn write(form: Form, memory: Memory, room: &[Word], out: &mut [u8]) -> Result<usize, Answer>
    ensures { Wrote result (write_of form memory room.now out.old) × (out.new ≡ out_after form memory room.now out.old) }
{
    write_in(&[false; PLACES], form, memory, room, out)
}

// With the text of a list and a group of it: the list's answer comes first.
#[tactic(auto, unfolding(trace::specs::Listed::write_listed, trace::specs::Listed::out_listed))]
pub fn write_listed(
    list: &[u8],
    group: Word,
    form: Form,
    memory: Memory,
    room: &[Word],
    out: &mut [u8],
) -> Result<usize, Answer>
    ensures { Wrote result (write_listed (list_of group list.now) form memory room.now out.old)
        × (out.new ≡ out_listed (list_of group list.now) form memory room.now out.old) }
{
    let listed = registers::read(list, group)?;
    write_in(&listed, form, memory, room, out)
}
