// What a run holds of an event: a number that says where it comes from.
ghost use Rattle.std.specs.Prelude.{◌≡◌};
ghost use Rattle.changes.specs.Tags.{decoded};
ghost use Rattle.course.specs.Step.{leaves, overtakes, target_number};

use event::{EVENT_LIMIT, Entry, number_index};

// The target number of its event; 0 if it is gone.
pub(crate) fn target_number(entries: &[Entry], tag: usize) -> usize
    ensures { result ≡ target_number entries.now (decoded tag) }
{
    if tag < EVENT_LIMIT {
        if tag < entries.len() {
            return number_index(entries[tag]);
        }
        return 0;
    }
    tag - EVENT_LIMIT + 1
}

// Whether its event is to be removed.
pub(crate) fn is_leaving(entries: &[Entry], tag: usize) -> bool
    ensures { result ≡ leaves entries.now (decoded tag) }
{
    target_number(entries, tag) == 0
}

// Whether the events of two numbers are kept, and the first has the greater target number.
pub(crate) fn is_overtaking(entries: &[Entry], tag: usize, next: usize) -> bool
    ensures { result ≡ overtakes entries.now (decoded tag) (decoded next) }
{
    let number = target_number(entries, next);
    number != 0 && number < target_number(entries, tag)
}
