// Runs, step by step.
ghost use Rattle.std.specs.Prelude.{◌≡◌, get_or};
ghost use Rattle.event.specs.Room.{whole_events};
ghost use Rattle.checker.specs.Check.{lent};
ghost use Rattle.changes.specs.Apply.{outcome};
ghost use Rattle.steps.specs.Play.{next_of};
ghost use Rattle.numbers.specs.Numbers.{run_numbered, step_numbered, step_numbers};
ghost use Rattle.export.specs.Runs.{Begins, Leaves};

use beginning::start;
use changes::apply;
use event::{EVENT_LIMIT, Entry, Word};
use numbers::{run_numbered, step_numbered, step_numbers};
use results::{lay_applied, lay_start};
use steps::next;

// A check, and the beginning of a run if it accepts: the check's numbers and how many steps there are, the run's numbers, the three rooms and the tags.
#[unsafe(no_mangle)]
pub extern "C" fn laprunto_start(
    source: &[u8],
    target: &[u8],
    matching: &[u8],
    source_room: &mut [Word],
    target_room: &mut [Word],
    entry_room: &mut [Entry],
    tags: &mut [usize; EVENT_LIMIT],
    run: &mut [usize; 2],
    res: &mut [usize; 7],
)
    ensures { Begins
        (lent source.now target.now matching.now
        source_room.old target_room.old entry_room.old) tags.old
        res.new run.new
        source_room.new target_room.new entry_room.new tags.new }
{
    let started = start(
        source,
        target,
        matching,
        source_room,
        target_room,
        entry_room,
        tags,
    );
    lay_start(started, run, res);
}

// The next step of a run: its kind, its place and its source number. `swapped` is 0, or the place of the swap that was just applied.
#[unsafe(no_mangle)]
pub extern "C" fn laprunto_next(
    run: &[usize; 2],
    tags: &[usize; EVENT_LIMIT],
    source: &[Word],
    target: &[Word],
    entries: &[Entry],
    swapped: usize,
    step: &mut [usize; 3],
)
    ensures { step.new ≡ step_numbers (next_of (whole_events source.now) (whole_events target.now) entries.now
        swapped (run_numbered (get_or run.now 0 0) (get_or run.now 1 0)) tags.now) }
{
    let wanted = next(
        run_numbered(run[0], run[1]),
        tags,
        source,
        target,
        entries,
        swapped,
    );
    *step = step_numbers(wanted);
}

// A step applied by the rules alone; what comes back is whether it was allowed.
#[unsafe(no_mangle)]
pub extern "C" fn laprunto_apply(
    run: &mut [usize; 2],
    tags: &mut [usize; EVENT_LIMIT],
    source: &[Word],
    target: &[Word],
    kind: usize,
    place: usize,
    number: usize,
) -> usize
    ensures { Leaves (run_numbered (get_or run.old 0 0) (get_or run.old 1 0)) tags.old
        (outcome (whole_events source.now) (whole_events target.now)
        (run_numbered (get_or run.old 0 0) (get_or run.old 1 0)) tags.old (step_numbered kind place number))
        result run.new tags.new }
{
    let step = step_numbered(kind, place, number);
    let applied = apply(run_numbered(run[0], run[1]), tags, source, target, step);
    lay_applied(applied, run)
}
