// The bytes of a text, put one part after the other. One walk counts and stores: bytes beyond the end of the room are counted and not stored, so that it
// counts where there is no room at all.
ghost use Rattle.std.specs.Prelude.{◌≡◌, [], ◌∷◌, ◌++◌, map, length, get_or, set};
ghost use Rattle.event.specs.Room.{event_at, onward};
ghost use Rattle.text.specs.Number.{decimal};
ghost use Rattle.record.specs.Layout.{order_words, word_at, event_line};
ghost use Rattle.record.specs.Form.{header};
ghost use Rattle.record.specs.Table.{word_in};
ghost use Rattle.uses.specs.Way.{is_used};
ghost use Rattle.trace.specs.Writing.{text_of, has_line, init_lines, text_by};
ghost use Rattle.writer.specs.Put.{Put, Small, tab_if, bare_line, init_part, start_text};

use crate::touch::has_line;
use event::room::get;
use event::{Event, Word, index_of};
use kinds::is_lawful;
use memory::Memory;
use record::form::{Form, header_bytes};
use record::shape::shape_of;
use record::word::{KIND_WORDS, ORDER_WORDS, ROW, word_in};
use text::write::{DIGITS, put_number};
use uses::Ways;

// A byte at a place; none beyond the end. By an index: what std says of `get_mut` does not tell the bytes afterwards.
fn store_byte(out: &mut [u8], at: usize, b: u8)
    ensures { out.new ≡ set out.old at b }
{
    if at < out.len() {
        out[at] = b;
    }
}

// Bytes from a place on; what comes back is the place after them. Where all lie beyond the end they are counted at once.
#[tactic(auto, using(crate::proofs::Puts::put_beyond, crate::proofs::Puts::left_all, crate::proofs::Puts::left_byte, crate::proofs::Puts::left_no_byte))]
pub fn put(out: &mut [u8], at: usize, bytes: &[u8]) -> usize
    requires { Small at bytes.now }
    ensures { Put out.old at bytes.now out.new result }
{
    if out.len() <= at {
        return at + bytes.len();
    }
    for (i, b) in bytes.iter().enumerate() {
        store_byte(out, at + i, *b);
    }
    at + bytes.len()
}

// The word of a number in a table of words; nothing for a number that has none there.
fn put_word(out: &mut [u8], at: usize, table: &[[u8; ROW]], n: Word) -> usize
    requires { Small at (get_or (map word_in table.now) n []) }
    ensures { Put out.old at (get_or (map word_in table.now) n []) out.new result }
{
    let Some(row) = table.get(index_of(n)) else {
        return at;
    };
    put(out, at, word_in(row))
}

// The word of an order or a mark. Its own function, so that the table is laid out only where a line has the word.
fn put_order(out: &mut [u8], at: usize, order: Word) -> usize
    requires { Small at (word_at order_words order) }
    ensures { Put out.old at (word_at order_words order) out.new result }
{
    put_word(out, at, &ORDER_WORDS, order)
}

// A TAB and an order or a mark, if the line is to have it.
fn put_order_if(wanted: bool, out: &mut [u8], at: usize, order: Word) -> usize
    requires { Small at (tab_if wanted (word_at order_words order)) }
    ensures { Put out.old at (tab_if wanted (word_at order_words order)) out.new result }
{
    if !wanted {
        return at;
    }
    let next = put(out, at, b"\t");
    put_order(out, next, order)
}

// A TAB and a number, if the line is to have it.
pub fn put_number_if(wanted: bool, out: &mut [u8], at: usize, n: Word) -> usize
    requires { Small at (tab_if wanted (decimal n)) }
    ensures { Put out.old at (tab_if wanted (decimal n)) out.new result }
{
    if !wanted {
        return at;
    }
    let mut digits: [u8; DIGITS] = [0; DIGITS];
    let size = put_number(&mut digits, n);
    let next = put(out, at, b"\t");
    put(out, next, &digits[..size])
}

// An event's line, with its LF.
#[tactic(auto, using(crate::proofs::Texts::event_sum))]
pub fn put_event(form: Form, out: &mut [u8], at: usize, e: Event) -> usize
    requires { Small at (event_line form e ++ 10 ∷ []) }
    ensures { Put out.old at (event_line form e ++ 10 ∷ []) out.new result }
{
    let shape = shape_of(form, e.kind);
    let after_kind = put_word(out, at, &KIND_WORDS, e.kind);
    let after_place = put_number_if(shape.place, out, after_kind, e.place);
    let after_order = put_order_if(shape.order, out, after_place, e.order);
    let after_first = put_number_if(shape.first, out, after_order, e.first);
    let after_second = put_number_if(shape.second, out, after_first, e.second);
    let after_mark = put_order_if(shape.mark, out, after_second, e.order);
    let after_code = put_number_if(shape.code, out, after_mark, e.code);
    put(out, after_code, b"\n")
}

// The line of form 1 of an event in a room, with its LF, at the front of the lent bytes; what comes back is its length. A code line is left out, and
// an event outside the layout has no line.
#[tactic(auto, using(crate::proofs::Texts::bare_small))]
pub fn write_event(room: &[Word], i: usize, out: &mut [u8]) -> usize
    ensures { Put out.old 0 (bare_line (event_at room.now i)) out.new result }
{
    let e = get(room, i);
    let bare = Event {
        kind: e.kind,
        place: e.place,
        order: e.order,
        first: e.first,
        second: e.second,
        code: 0,
    };
    if is_lawful(bare) {
        return put_event(Form::One, out, 0, bare);
    }
    0
}

// The `init` line of a location, with its LF, if it is to be there.
#[tactic(auto, using(crate::proofs::Texts::init_sum))]
fn put_init(has: bool, out: &mut [u8], at: usize, place: Word, value: Word) -> usize
    requires { Small at (init_part has place value) }
    ensures { Put out.old at (init_part has place value) out.new result }
{
    if !has {
        return at;
    }
    let after_word = put(out, at, b"init");
    let after_place = put_number_if(true, out, after_word, place);
    let after_value = put_number_if(true, out, after_place, value);
    put(out, after_value, b"\n")
}

// The `init` lines of cells.
#[tactic(auto, using(crate::proofs::Puts::left_all, crate::proofs::Puts::left_small, crate::proofs::Puts::left_none, crate::proofs::Texts::inits_next, crate::proofs::Texts::inits_end))]
fn put_inits(form: Form, out: &mut [u8], at: usize, ways: &Ways, memory: Memory) -> usize
    requires { Small at (text_of (init_lines (has_line form (is_used ways.now)) 0 memory.cells)) }
    ensures { Put out.old at (text_of (init_lines (has_line form (is_used ways.now)) 0 memory.cells)) out.new result }
{
    let mut next = at;
    for (i, value) in memory.cells.iter().enumerate() {
        next = put_init(
            has_line(form, ways[i], *value),
            out,
            next,
            i as Word,
            *value,
        );
    }
    next
}

// The lines of the first n events of a room.
#[tactic(auto, using(trace::proofs::Judged::onward_end, trace::proofs::Judged::onward_all, crate::proofs::Puts::left_all, crate::proofs::Texts::lines_put))]
fn put_events(form: Form, out: &mut [u8], at: usize, room: &[Word], n: usize) -> usize
    requires { Small at (text_of (map (event_line form) (onward room.now 0 n))) }
    ensures { Put out.old at (text_of (map (event_line form) (onward room.now 0 n))) out.new result }
{
    let mut next = at;
    for i in 0..n {
        next = put_event(form, out, next, get(room, i));
    }
    next
}

// Line 1.
fn put_header(form: Form, out: &mut [u8]) -> usize
    ensures { Put out.old 0 (header form ++ 10 ∷ []) out.new result }
{
    let after_line = put(out, 0, &header_bytes(form));
    put(out, after_line, b"\n")
}

// Line 1 and the `init` lines.
#[tactic(auto, using(crate::proofs::Texts::start_sum, crate::proofs::Texts::start_put))]
pub fn put_start(form: Form, out: &mut [u8], ways: &Ways, memory: Memory) -> usize
    requires { Small 0 (start_text form (is_used ways.now) memory) }
    ensures { Put out.old 0 (start_text form (is_used ways.now) memory) out.new result }
{
    let after_header = put_header(form, out);
    put_inits(form, out, after_header, ways, memory)
}

// The whole text, by the ways in which its events use the locations.
#[tactic(auto, using(crate::proofs::Texts::trace_sum, crate::proofs::Texts::trace_put))]
pub(crate) fn put_text(
    form: Form,
    out: &mut [u8],
    ways: &Ways,
    memory: Memory,
    room: &[Word],
    n: usize,
) -> usize
    requires { Small 0 (text_by form (is_used ways.now) memory (onward room.now 0 n)) }
    ensures { Put out.old 0 (text_by form (is_used ways.now) memory (onward room.now 0 n)) out.new result }
{
    let after_start = put_start(form, out, ways, memory);
    put_events(form, out, after_start, room, n)
}

// How many bytes the text has.
pub(crate) fn size_of(form: Form, ways: &Ways, memory: Memory, room: &[Word], n: usize) -> usize
    requires { Small 0 (text_by form (is_used ways.now) memory (onward room.now 0 n)) }
    ensures { result ≡ length (text_by form (is_used ways.now) memory (onward room.now 0 n)) }
{
    let mut none: [u8; 0] = [];
    put_text(form, &mut none, ways, memory, room, n)
}
