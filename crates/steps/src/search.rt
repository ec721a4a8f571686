// The next step of the fixed order, on the trace as it stands.
ghost use Rattle.std.specs.Prelude.{◌≡◌, List, []};
ghost use Rattle.event.specs.declared.Event.{Event};
ghost use Rattle.event.specs.Room.{whole_events};
ghost use Rattle.rules.specs.View.{view_in};
ghost use Rattle.changes.specs.Tags.{trace};
ghost use Rattle.course.specs.Step.{any_gone, missing, order_step, removal, remove_step};

use crate::tag::{is_leaving, is_overtaking, target_number};
use changes::Step;
use changes::allowed::may_remove;
use event::{Entry, Word};
use memory::listed::Listed;

// Whether a gone event remains.
pub(crate) fn any_gone(tags: &[usize], entries: &[Entry]) -> bool
    ensures { (s t : List Event) → result ≡ any_gone entries.now (trace s t tags.now) }
{
    tags.iter().any(|tag| is_leaving(entries, *tag))
}

// The removal of the last gone event that may be removed.
pub(crate) fn removal_step(
    listed: &Listed,
    tags: &[usize],
    source: &[Word],
    target: &[Word],
    entries: &[Entry],
) -> Step
    ensures { result ≡ remove_step (trace (whole_events source.now) (whole_events target.now) tags.now)
        (removal (view_in listed.now) entries.now [] (trace (whole_events source.now) (whole_events target.now) tags.now)) }
{
    for i in (0..tags.len()).rev() {
        let tag = tags[i];
        if is_leaving(entries, tag) && may_remove(listed, tags, source, target, i) {
            return Step::Remove {
                place: i + 1,
                number: tag + 1,
            };
        }
    }
    Step::Stuck
}

// The insertion of the first number that does not stand at its place, up to that of the last target event.
fn missing_step(tags: &[usize], entries: &[Entry], targets: usize) -> Step
    ensures { (s t : List Event) → result ≡ missing entries.now targets 1 (trace s t tags.now) }
{
    for (i, tag) in tags.iter().enumerate() {
        if target_number(entries, *tag) != i + 1 {
            return Step::Insert { place: i + 1 };
        }
    }
    if targets <= tags.len() {
        return Step::Done;
    }
    Step::Insert {
        place: tags.len() + 1,
    }
}

// The swap at the first place from an index on that stands against the target's order, else an insertion.
pub(crate) fn order_step(tags: &[usize], entries: &[Entry], targets: usize, from: usize) -> Step
    ensures { (s t : List Event) → result ≡ order_step entries.now targets from (trace s t tags.now) }
{
    for i in from..tags.len().saturating_sub(1) {
        let place = i + 1;
        if is_overtaking(entries, tags[i], tags[place]) {
            return Step::Swap { place };
        }
    }
    missing_step(tags, entries, targets)
}
