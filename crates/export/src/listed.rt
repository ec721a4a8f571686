// Lists of registers: one read by itself; reading, writing, moving, checking and the beginning of a run with the text of one, which is read ahead of
// everything else; and the steps of a run with the marks of one.
// Each function stays beside its twin without a list: C calls both by name, with numbers, slices and arrays; what they have in common is said in `results`.
ghost use Rattle.std.specs.Prelude.{◌≡◌, get_or};
ghost use Rattle.registers.specs.Reading.{list_of};
ghost use Rattle.trace.specs.Listed.{read_listed, room_listed, write_listed, out_listed, move_listed, moved_listed};
ghost use Rattle.event.specs.Room.{whole_events};
ghost use Rattle.rules.specs.View.{view_in};
ghost use Rattle.checker.specs.Check.{lent};
ghost use Rattle.changes.specs.Apply.{outcome_by};
ghost use Rattle.steps.specs.Play.{next_by};
ghost use Rattle.numbers.specs.Numbers.{answer_numbers, marks, listing, form_numbered, run_numbered, step_numbered, step_numbers};
ghost use Rattle.results.specs.Results.{trace_numbers};
ghost use Rattle.export.specs.Handed.{starting, LeavesListed};
ghost use Rattle.export.specs.Runs.{BeginsListed, Leaves};

use beginning::start_listed;
use changes::apply_listed;
use checker::check_listed;
use event::{Answer, EVENT_LIMIT, Entry, Number, PLACES, Word};
use memory::Memory;
use numbers::{
    answer_numbers, form_numbered, listed_of, marks_of, run_numbered, step_numbered, step_numbers,
};
use results::{TraceRead, lay_applied, lay_check, lay_start, lay_trace, written_numbers};
use steps::next_listed;
use trace::read_listed;
use writer::moving::move_listed;
use writer::write_listed;

// A list text read alone: number, side and place, and a mark for each location.
#[unsafe(no_mangle)]
pub extern "C" fn laprunto_read_list(
    list: &[u8],
    group: Word,
    res: &mut [usize; 3],
    listed: &mut [u8; PLACES],
)
    ensures res_after { res.new ≡ answer_numbers (list_of group list.now).answer }
    ensures listed_after { listed.new ≡ marks (list_of group list.now).listed }
{
    let (answer, named) = match registers::read(list, group) {
        Ok(named) => (Answer::new(0, 0, 0), named),
        Err(answer) => (answer, [false; PLACES]),
    };
    *listed = marks_of(named);
    *res = answer_numbers(answer);
}

// `laprunto_read_trace` with a list.
#[unsafe(no_mangle)]
pub extern "C" fn laprunto_read_trace_listed(
    list: &[u8],
    group: Word,
    text: &[u8],
    room: &mut [Word],
    memory: &mut [Word; PLACES],
    res: &mut [usize; 4],
)
    ensures res_after { res.new ≡ trace_numbers (read_listed (list_of group list.now) text.now room.old) }
    ensures memory_after { memory.new ≡ (read_listed (list_of group list.now) text.now room.old).memory.cells }
    ensures room_after { room.new ≡ room_listed (list_of group list.now) text.now room.old }
{
    let read = read_listed(list, group, text, room);
    lay_trace(TraceRead::from(read), memory, res);
}

// `laprunto_write_trace` with a list.
#[unsafe(no_mangle)]
pub extern "C" fn laprunto_write_trace_listed(
    list: &[u8],
    group: Word,
    form: Number,
    memory: &[Word; PLACES],
    room: &[Word],
    out: &mut [u8],
    res: &mut [usize; 3],
)
    ensures res_after { res.new ≡ answer_numbers (write_listed (list_of group list.now) (form_numbered form) (starting memory.now)
        room.now out.old) }
    ensures out_after { out.new ≡ out_listed (list_of group list.now) (form_numbered form) (starting memory.now) room.now
        out.old }
{
    let cells = *memory;
    let written = write_listed(
        list,
        group,
        form_numbered(form),
        Memory { cells },
        room,
        out,
    );
    *res = written_numbers(written);
}

// `laprunto_move_trace` with a list.
#[unsafe(no_mangle)]
pub extern "C" fn laprunto_move_trace_listed(
    list: &[u8],
    group: Word,
    to_form: Number,
    text: &[u8],
    out: &mut [u8],
    res: &mut [usize; 3],
)
    ensures res_after { res.new ≡ answer_numbers (move_listed (list_of group list.now) (form_numbered to_form) text.now out.old) }
    ensures out_after { out.new ≡ moved_listed (list_of group list.now) (form_numbered to_form) text.now out.old }
{
    let moved = move_listed(list, group, form_numbered(to_form), text, out);
    *res = written_numbers(moved);
}

// `laprunto_check` with a list.
#[unsafe(no_mangle)]
pub extern "C" fn laprunto_check_listed(
    list: &[u8],
    group: Word,
    source: &[u8],
    target: &[u8],
    matching: &[u8],
    source_room: &mut [Word],
    target_room: &mut [Word],
    entry_room: &mut [Entry],
    source_memory: &mut [Word; PLACES],
    target_memory: &mut [Word; PLACES],
    res: &mut [usize; 6],
)
    ensures { LeavesListed (list_of group list.now)
        (lent source.now target.now matching.now
        source_room.old target_room.old entry_room.old)
        res.new source_memory.new target_memory.new
        source_room.new target_room.new entry_room.new }
{
    let checked = check_listed(
        list,
        group,
        source,
        target,
        matching,
        source_room,
        target_room,
        entry_room,
    );
    lay_check(checked, source_memory, target_memory, res);
}

// `laprunto_start` with a list.
#[unsafe(no_mangle)]
pub extern "C" fn laprunto_start_listed(
    list: &[u8],
    group: Word,
    source: &[u8],
    target: &[u8],
    matching: &[u8],
    source_room: &mut [Word],
    target_room: &mut [Word],
    entry_room: &mut [Entry],
    tags: &mut [usize; EVENT_LIMIT],
    run: &mut [usize; 2],
    res: &mut [usize; 7],
)
    ensures { BeginsListed (list_of group list.now)
        (lent source.now target.now matching.now
        source_room.old target_room.old entry_room.old) tags.old
        res.new run.new
        source_room.new target_room.new entry_room.new tags.new }
{
    let started = start_listed(
        list,
        group,
        source,
        target,
        matching,
        source_room,
        target_room,
        entry_room,
        tags,
    );
    lay_start(started, run, res);
}

// `laprunto_next` with the marks of a list, as `laprunto_read_list` leaves them.
#[unsafe(no_mangle)]
pub extern "C" fn laprunto_next_listed(
    listed: &[u8; PLACES],
    run: &[usize; 2],
    tags: &[usize; EVENT_LIMIT],
    source: &[Word],
    target: &[Word],
    entries: &[Entry],
    swapped: usize,
    step: &mut [usize; 3],
)
    ensures { step.new ≡ step_numbers (next_by (view_in (listing listed.now)) (whole_events source.now)
        (whole_events target.now) entries.now swapped
        (run_numbered (get_or run.now 0 0) (get_or run.now 1 0)) tags.now) }
{
    let named = listed_of(*listed);
    let wanted = next_listed(
        &named,
        run_numbered(run[0], run[1]),
        tags,
        source,
        target,
        entries,
        swapped,
    );
    *step = step_numbers(wanted);
}

// `laprunto_apply` with the marks of a list.
#[unsafe(no_mangle)]
pub extern "C" fn laprunto_apply_listed(
    listed: &[u8; PLACES],
    run: &mut [usize; 2],
    tags: &mut [usize; EVENT_LIMIT],
    source: &[Word],
    target: &[Word],
    kind: usize,
    place: usize,
    number: usize,
) -> usize
    ensures { Leaves (run_numbered (get_or run.old 0 0) (get_or run.old 1 0)) tags.old
        (outcome_by (view_in (listing listed.now)) (whole_events source.now) (whole_events target.now)
        (run_numbered (get_or run.old 0 0) (get_or run.old 1 0)) tags.old (step_numbered kind place number))
        result run.new tags.new }
{
    let named = listed_of(*listed);
    let step = step_numbered(kind, place, number);
    let applied = apply_listed(
        &named,
        run_numbered(run[0], run[1]),
        tags,
        source,
        target,
        step,
    );
    lay_applied(applied, run)
}
