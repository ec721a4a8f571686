// The library for C and Rust: reading, writing, moving, shortening, checking and the line at fault, on numbers, slices and arrays.
// `door/laprunto.h` declares them for C; a slice is a pointer and a length there, an array a pointer.
#![tactic(auto)]

pub mod listed;
pub mod run;
pub mod short;

ghost use Rattle.std.specs.Prelude.{◌≡◌};
ghost use Rattle.event.specs.Answer.{answer};
ghost use Rattle.trace.specs.Reading.{form_of, read_of, room_after};
ghost use Rattle.trace.specs.Moving.{move_of, moved_out};
ghost use Rattle.trace.specs.Writing.{write_of, out_after};
ghost use Rattle.matching.specs.Reading.{read_of as matching_of, room_after as entries_after};
ghost use Rattle.checker.specs.Check.{lent};
ghost use Rattle.checker.specs.Line.{offending_line, offending_span, fault_text, span, Spans};
ghost use Rattle.numbers.specs.Numbers.{answer_numbers, form_number, form_numbered};
ghost use Rattle.results.specs.Results.{trace_numbers, matching_numbers};
ghost use Rattle.export.specs.Handed.{starting, Leaves};

use checker::check_in;
use checker::line::offending_span;
use event::{Answer, Entry, Number, PLACES, Word};
use memory::Memory;
use numbers::{form_number, form_numbered};
use results::{
    MatchingRead, TraceRead, lay_check, lay_span, lay_trace, matching_numbers, written_numbers,
};
use trace::form::form_of;
use writer::moving::move_to;

// The form of a trace text, as its number.
#[unsafe(no_mangle)]
pub extern "C" fn laprunto_trace_form(text: &[u8]) -> Number
    ensures { result ≡ form_number (form_of text.now) }
{
    form_number(form_of(text))
}

// A trace text read alone: number, side, place and events, the starting memory, and the room.
#[unsafe(no_mangle)]
pub extern "C" fn laprunto_read_trace(
    text: &[u8],
    room: &mut [Word],
    memory: &mut [Word; PLACES],
    res: &mut [usize; 4],
)
    ensures res_after { res.new ≡ trace_numbers (read_of 1 text.now room.old) }
    ensures memory_after { memory.new ≡ (read_of 1 text.now room.old).memory.cells }
    ensures room_after { room.new ≡ room_after 1 text.now room.old }
{
    let read = trace::read(text, room);
    lay_trace(TraceRead::from(read), memory, res);
}

// A matching text read alone: number, side, place and entries, and the room.
#[unsafe(no_mangle)]
pub extern "C" fn laprunto_read_matching(text: &[u8], room: &mut [Entry], res: &mut [usize; 4])
    ensures res_after { res.new ≡ matching_numbers (matching_of text.now room.old) }
    ensures room_after { room.new ≡ entries_after text.now room.old }
{
    let read = matching::read(text, room);
    *res = matching_numbers(MatchingRead::from(read));
}

// A starting memory and the events of a part of a room, written as a text of a form: number, side and place, and the bytes.
#[unsafe(no_mangle)]
pub extern "C" fn laprunto_write_trace(
    form: Number,
    memory: &[Word; PLACES],
    room: &[Word],
    out: &mut [u8],
    res: &mut [usize; 3],
)
    ensures res_after { res.new ≡ answer_numbers (write_of (form_numbered form) (starting memory.now) room.now out.old) }
    ensures out_after { out.new ≡ out_after (form_numbered form) (starting memory.now) room.now out.old }
{
    let cells = *memory;
    let written = writer::write(form_numbered(form), Memory { cells }, room, out);
    *res = written_numbers(written);
}

// A trace text moved to a form: number, side and place, and the bytes.
#[unsafe(no_mangle)]
pub extern "C" fn laprunto_move_trace(
    to_form: Number,
    text: &[u8],
    out: &mut [u8],
    res: &mut [usize; 3],
)
    ensures res_after { res.new ≡ answer_numbers (move_of (form_numbered to_form) text.now out.old) }
    ensures out_after { out.new ≡ moved_out (form_numbered to_form) text.now out.old }
{
    let moved = move_to(form_numbered(to_form), text, out);
    *res = written_numbers(moved);
}

// A check: number, side, place, source events, target events and entries, both starting memories, and the three rooms.
#[unsafe(no_mangle)]
pub extern "C" fn laprunto_check(
    source: &[u8],
    target: &[u8],
    matching: &[u8],
    source_room: &mut [Word],
    target_room: &mut [Word],
    entry_room: &mut [Entry],
    source_memory: &mut [Word; PLACES],
    target_memory: &mut [Word; PLACES],
    res: &mut [usize; 6],
)
    ensures { Leaves
        (lent source.now target.now matching.now
        source_room.old target_room.old entry_room.old)
        res.new source_memory.new target_memory.new
        source_room.new target_room.new entry_room.new }
{
    let checked = check_in(
        &[false; PLACES],
        source,
        target,
        matching,
        source_room,
        target_room,
        entry_room,
    );
    lay_check(checked, source_memory, target_memory, res);
}

// Where the offending line of a check stands in the target text, for side 2, else in the source text: its start and its end.
#[unsafe(no_mangle)]
pub extern "C" fn laprunto_offending_line(
    source: &[u8],
    target: &[u8],
    number: Number,
    side: Number,
    place: usize,
    from: &mut usize,
    to: &mut usize,
)
    ensures spans { Spans (fault_text source.now target.now (answer number side place))
        (offending_line source.now target.now (answer number side place))
        (span from.new to.new) }
    ensures to_after { span from.new to.new ≡ offending_span source.now target.now (answer number side place) }
{
    let part = offending_span(source, target, Answer::new(number, side, place));
    lay_span(part, from, to);
}
