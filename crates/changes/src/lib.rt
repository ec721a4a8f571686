// What a step makes of a trace, by the rules alone: no function here is handed a matching or its entries.
#![tactic(auto)]

pub mod allowed;
mod change;
mod tag;

ghost use Rattle.std.specs.Prelude.{◌≡◌};
ghost use Rattle.event.specs.Room.{whole_events};
ghost use Rattle.rules.specs.View.{view_in};
ghost use Rattle.changes.specs.Apply.{Applies, is_open, outcome, outcome_by};

use change::refuse;
use event::{EVENT_LIMIT, PLACES, Word};
use memory::listed::Listed;
use tag::Ground;

// A step of a run: places count from 1 in the trace as it stands, `number` is the source event's; an inserted event's place is its target number.
// `Done` and `Stuck` are no Option and no error: document 02 and the kinds of a step that C hands over name them as steps.
#[derive(Clone, Copy)]
pub enum Step {
    Remove { place: usize, number: usize },
    Swap { place: usize },
    Insert { place: usize },
    Done,
    Stuck,
}

// A run: whether it has begun, and how many events stand. Which these are the lent array says, in order.
#[derive(Clone, Copy)]
pub struct Run {
    pub begun: bool,
    pub standing: usize,
}

// What comes of a step: the run after it, and whether it was allowed. The flag stays beside the run: a refused step hands back the run too, and so does C.
#[derive(Clone, Copy)]
pub struct Applied {
    pub run: Run,
    pub allowed: bool,
}

// Whether a run has begun and its trace is no longer than the array.
pub fn is_open(run: Run) -> bool
    ensures { result ≡ is_open run }
{
    run.begun && run.standing <= EVENT_LIMIT
}

// The trace after a step, or that the rules do not allow it under a list of registers: the matching plays no part.
pub fn apply_listed(
    listed: &Listed,
    run: Run,
    tags: &mut [usize; EVENT_LIMIT],
    source: &[Word],
    target: &[Word],
    step: Step,
) -> Applied
    ensures { Applies run tags.old
        (outcome_by (view_in listed.now) (whole_events source.now) (whole_events target.now) run tags.old step)
        result tags.new }
{
    if !is_open(run) {
        return refuse(run);
    }
    let ground = Ground {
        listed,
        source,
        target,
    };
    match step {
        Step::Remove { place, number } => ground.remove(run, tags, place, number),
        Step::Swap { place } => ground.swap(run, tags, place),
        Step::Insert { place } => ground.insert(run, tags, place),
        Step::Done | Step::Stuck => refuse(run),
    }
}

// The same without a list: none is listed.
pub fn apply(
    run: Run,
    tags: &mut [usize; EVENT_LIMIT],
    source: &[Word],
    target: &[Word],
    step: Step,
) -> Applied
    ensures { Applies run tags.old
        (outcome (whole_events source.now) (whole_events target.now) run tags.old step) result tags.new }
{
    let listed: Listed = [false; PLACES];
    apply_listed(&listed, run, tags, source, target, step)
}
