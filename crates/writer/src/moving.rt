// A trace text moved from one form to the other. It is judged (`refusals::moving`), then counted, then stored, each in a walk over the text: no room of
// events is lent or kept.
ghost use Rattle.std.specs.Prelude.{◌≡◌, map, length};
ghost use Rattle.registers.specs.Reading.{list_of};
ghost use Rattle.record.specs.Layout.{event_line};
ghost use Rattle.trace.specs.Listed.{move_listed, moved_listed};
ghost use Rattle.trace.specs.Moving.{move_in, moved_out_in, move_of, moved_out};
ghost use Rattle.trace.specs.Reading.{events_of};
ghost use Rattle.uses.specs.Way.{is_used, ways_of};
ghost use Rattle.trace.specs.Writing.{text_of, text_by};
ghost use Rattle.writer.specs.Put.{Put, Small};
ghost use Rattle.writer.specs.Wrote.{Wrote};

use crate::put::{put_event, put_start};
use event::{Answer, PLACES, Word};
use memory::Memory;
use memory::listed::Listed;
use record::form::Form;
use refusals::moving::survey_to;
use text::line::line_two;
use trace::ahead::next_event;
use trace::form::form_of;
use uses::{UNTOUCHED, Ways, touch};

// The ways after the events of a text.
#[tactic(auto, using(trace::proofs::Walks::events_heard, crate::proofs::Texts::ways_next, crate::proofs::Texts::ways_none))]
fn touch_lines(ways: &mut Ways, text: &[u8])
    ensures { ways.new ≡ ways_of ways.old (events_of text.now) }
{
    let form = form_of(text);
    let mut at = line_two(text);
    while let Some(found) = next_event(form, text, at) {
        touch(ways, found.event);
        at = found.next;
    }
}

// The lines of the events of a text.
#[tactic(auto, using(trace::proofs::Walks::events_heard, crate::proofs::Puts::left_all, crate::proofs::Texts::lines_put))]
fn put_lines(to: Form, out: &mut [u8], at: usize, text: &[u8]) -> usize
    requires { Small at (text_of (map (event_line to) (events_of text.now))) }
    ensures { Put out.old at (text_of (map (event_line to) (events_of text.now))) out.new result }
{
    let form = form_of(text);
    let mut next = at;
    let mut from = line_two(text);
    while let Some(found) = next_event(form, text, from) {
        next = put_event(to, out, next, found.event);
        from = found.next;
    }
    next
}

// The whole text in a form, with the starting memory and the ways at hand.
#[tactic(auto, using(crate::proofs::Texts::trace_sum, crate::proofs::Texts::trace_put))]
fn put_moved(to: Form, out: &mut [u8], ways: &Ways, memory: Memory, text: &[u8]) -> usize
    requires { Small 0 (text_by to (is_used ways.now) memory (events_of text.now)) }
    ensures { Put out.old 0 (text_by to (is_used ways.now) memory (events_of text.now)) out.new result }
{
    let after_start = put_start(to, out, ways, memory);
    put_lines(to, out, after_start, text)
}

// How many bytes it has.
fn moved_size(to: Form, ways: &Ways, memory: Memory, text: &[u8]) -> usize
    requires { Small 0 (text_by to (is_used ways.now) memory (events_of text.now)) }
    ensures { result ≡ length (text_by to (is_used ways.now) memory (events_of text.now)) }
{
    let mut none: [u8; 0] = [];
    put_moved(to, &mut none, ways, memory, text)
}

// A text of the other form, moved to a form under a list of registers, at the front of the lent bytes: how many bytes it has there, or a refusal, which
// changes nothing.
#[tactic(auto, unfolding(trace::specs::Moving::move_in, trace::specs::Moving::moved_out_in, trace::specs::Moving::move_survey_in))]
pub fn move_in(listed: &Listed, to: Form, text: &[u8], out: &mut [u8]) -> Result<usize, Answer>
    ensures { Wrote result (move_in listed.now to text.now out.old) × (out.new ≡ moved_out_in listed.now to text.now out.old) }
{
    let held = survey_to(listed, to, text)?;
    let mut ways: Ways = [UNTOUCHED; PLACES];
    touch_lines(&mut ways, text);
    let size = moved_size(to, &ways, held.memory, text);
    if out.len() < size {
        return Err(Answer::new(17, 0, size));
    }
    put_moved(to, out, &ways, held.memory, text);
    Ok(size)
}

// The same without a list: none is listed.
pub fn move_to(to: Form, text: &[u8], out: &mut [u8]) -> Result<usize, Answer>
    ensures { Wrote result (move_of to text.now out.old) × (out.new ≡ moved_out to text.now out.old) }
{
    move_in(&[false; PLACES], to, text, out)
}

// With the text of a list and a group of it: the list's answer comes first.
#[tactic(auto, unfolding(trace::specs::Listed::move_listed, trace::specs::Listed::moved_listed))]
pub fn move_listed(
    list: &[u8],
    group: Word,
    to: Form,
    text: &[u8],
    out: &mut [u8],
) -> Result<usize, Answer>
    ensures { Wrote result (move_listed (list_of group list.now) to text.now out.old)
        × (out.new ≡ moved_listed (list_of group list.now) to text.now out.old) }
{
    let listed = registers::read(list, group)?;
    move_in(&listed, to, text, out)
}
