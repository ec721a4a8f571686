// The shortened text and its matching, by the flags of the events that stay: each is counted, and then put, in a walk of its own.
ghost use Rattle.std.specs.Prelude.{◌≡◌, false, cond, [], ◌∷◌, ◌++◌, map, ◌+◌, ◌<◌, length, get_or};
ghost use Rattle.matching.specs.Entry.{entry_line};
ghost use Rattle.matching.specs.Text.{match_text};
ghost use Rattle.record.specs.Layout.{event_line};
ghost use Rattle.trace.specs.Reading.{form_of, events_of};
ghost use Rattle.trace.specs.Writing.{text_of, text_by};
ghost use Rattle.uses.specs.Way.{is_used, ways_of};
ghost use Rattle.writer.specs.Put.{Put, Small};
ghost use Rattle.shelf.specs.Short.{pick, numbers};
ghost use Rattle.shorten.specs.Write.{only};

use event::{Event, Word};
use memory::Memory;
use record::form::Form;
use text::line::line_two;
use trace::ahead::next_event;
use trace::form::form_of;
use uses::{Ways, touch};
use writer::put::{put, put_event, put_number_if, put_start};

// Whether the event of an index stays; none beyond the flags does.
fn is_kept(flags: &[bool], i: usize) -> bool
    ensures { result ≡ get_or flags.now i false }
{
    i < flags.len() && flags[i]
}

// The ways after an event, if it stays.
#[tactic(auto, unfolding(uses::specs::Way::ways_of))]
fn touch_if(kept: bool, ways: &mut Ways, e: Event)
    ensures { ways.new ≡ ways_of ways.old (only kept e) }
{
    if kept {
        touch(ways, e);
    }
}

// The ways after the events of a text that stay.
#[tactic(auto, using(trace::proofs::Walks::events_heard, crate::proofs::Kept::ways_kept, crate::proofs::Kept::ways_left))]
pub(crate) fn touch_kept(ways: &mut Ways, flags: &[bool], text: &[u8])
    ensures { ways.new ≡ ways_of ways.old (pick flags.now (events_of text.now)) }
{
    let form = form_of(text);
    let mut at = line_two(text);
    let mut i: usize = 0;
    while let Some(found) = next_event(form, text, at) {
        touch_if(is_kept(flags, i), ways, found.event);
        i += 1;
        at = found.next;
    }
}

// An event's line, with its LF, if it stays.
#[tactic(auto, unfolding(trace::specs::Writing::text_of), using(writer::proofs::Puts::put_none))]
fn put_if(kept: bool, form: Form, out: &mut [u8], at: usize, e: Event) -> usize
    requires { Small at (text_of (map (event_line form) (only kept e))) }
    ensures { Put out.old at (text_of (map (event_line form) (only kept e))) out.new result }
{
    if !kept {
        return at;
    }
    put_event(form, out, at, e)
}

// The lines of the events of a text that stay.
#[tactic(auto, using(trace::proofs::Walks::events_heard, writer::proofs::Puts::left_all, crate::proofs::Kept::kept_none))]
fn put_kept(flags: &[bool], out: &mut [u8], at: usize, text: &[u8]) -> usize
    requires { Small at (text_of (map (event_line (form_of text.now)) (pick flags.now (events_of text.now)))) }
    ensures { Put out.old at (text_of (map (event_line (form_of text.now)) (pick flags.now (events_of text.now)))) out.new result }
{
    let form = form_of(text);
    let mut next_at = at;
    let mut from = line_two(text);
    let mut i: usize = 0;
    while let Some(found) = next_event(form, text, from) {
        next_at = put_if(is_kept(flags, i), form, out, next_at, found.event);
        i += 1;
        from = found.next;
    }
    next_at
}

// The shortened text, with the starting memory and the ways at hand.
#[tactic(auto, using(writer::proofs::Texts::trace_sum))]
pub(crate) fn put_short(
    flags: &[bool],
    out: &mut [u8],
    ways: &Ways,
    memory: Memory,
    text: &[u8],
) -> usize
    requires { Small 0 (text_by (form_of text.now) (is_used ways.now) memory (pick flags.now (events_of text.now))) }
    ensures { Put out.old 0 (text_by (form_of text.now) (is_used ways.now) memory (pick flags.now (events_of text.now))) out.new result }
{
    let after_start = put_start(form_of(text), out, ways, memory);
    put_kept(flags, out, after_start, text)
}

// How many bytes it has.
pub(crate) fn short_size(flags: &[bool], ways: &Ways, memory: Memory, text: &[u8]) -> usize
    requires { Small 0 (text_by (form_of text.now) (is_used ways.now) memory (pick flags.now (events_of text.now))) }
    ensures { result ≡ length (text_by (form_of text.now) (is_used ways.now) memory (pick flags.now (events_of text.now))) }
{
    let mut none: [u8; 0] = [];
    put_short(flags, &mut none, ways, memory, text)
}

// An entry's line, with its LF: `keep` and the number, or `gone`.
#[tactic(auto, using(crate::proofs::Kept::gone_line, crate::proofs::Kept::keep_sum))]
fn put_entry(out: &mut [u8], at: usize, number: Word) -> usize
    requires { Small at (entry_line number ++ 10 ∷ []) }
    ensures { Put out.old at (entry_line number ++ 10 ∷ []) out.new result }
{
    if number == 0 {
        return put(out, at, b"gone\n");
    }
    let after_word = put(out, at, b"keep");
    let after_number = put_number_if(true, out, after_word, number);
    put(out, after_number, b"\n")
}

// The entry of an event, by whether it stays and the number of the next one that does; and that number after it.
fn entry_for(kept: bool, number: Word) -> Word
    ensures { result ≡ cond kept number 0 }
{
    if kept { number } else { 0 }
}

fn number_after(kept: bool, number: Word) -> Word
    requires { number < 18446744073709551615 }
    ensures { result ≡ cond kept (number + 1) number }
{
    if kept { number + 1 } else { number }
}

// The lines of the entries.
#[tactic(auto, using(writer::proofs::Puts::left_all, crate::proofs::Kept::entry_small, crate::proofs::Kept::entries_put))]
fn put_entries(flags: &[bool], out: &mut [u8], at: usize) -> usize
    requires { Small at (text_of (map entry_line (numbers 1 flags.now))) }
    ensures { Put out.old at (text_of (map entry_line (numbers 1 flags.now))) out.new result }
{
    let mut next_at = at;
    let mut number: Word = 1;
    for kept in flags {
        next_at = put_entry(out, next_at, entry_for(*kept, number));
        number = number_after(*kept, number);
    }
    next_at
}

// The matching's text.
#[tactic(auto, using(crate::proofs::Kept::match_sum))]
pub(crate) fn put_matching(flags: &[bool], out: &mut [u8]) -> usize
    requires { Small 0 (match_text (numbers 1 flags.now)) }
    ensures { Put out.old 0 (match_text (numbers 1 flags.now)) out.new result }
{
    let after_header = put(out, 0, b"match\t1\n");
    put_entries(flags, out, after_header)
}

// How many bytes it has.
pub(crate) fn matching_size(flags: &[bool]) -> usize
    requires { Small 0 (match_text (numbers 1 flags.now)) }
    ensures { result ≡ length (match_text (numbers 1 flags.now)) }
{
    let mut none: [u8; 0] = [];
    put_matching(flags, &mut none)
}
