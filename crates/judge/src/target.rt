// Answers 15 and 16: the target events without a source.
ghost use Rattle.std.specs.Prelude.{◌≡◌, List, [], ℕ, ◌≤◌};
ghost use Rattle.event.specs.Room.{Placed, whole_events, capacity};
ghost use Rattle.rules.specs.View.{view_in};
ghost use Rattle.rules.specs.Verdict.{target_answer};
ghost use Rattle.fates.specs.Pass.{fault_of};
ghost use Rattle.event.specs.Told.{Passes};
ghost use Rattle.judge.specs.Pass.{Marked, target_fault_by, unsupported_by};
ghost use Rattle.event.specs.Limit.{event_limit};

use crate::marks::Marks;
use event::room::get;
use event::{Answer, Number, PLACES, WORDS, Word, index_of};
use kinds::is_load_kind;
use memory::listed::Listed;
use sight::{is_load_in, is_wall_in};

// Whether a target event has no source and may not be inserted: it is no load, or the first access to its location since the last
// synchronising event.
fn is_unsupported(sourced: bool, load: bool, fresh: bool) -> bool
    ensures { result ≡ unsupported_by sourced load fresh }
{
    !sourced && (!load || fresh)
}

// 15 or 16 of a target event of a kind, if it shows one.
fn target_fault(kind: Word, unsupported: bool) -> Option<Number>
    ensures { result ≡ fault_of (target_fault_by kind unsupported) }
{
    if !unsupported {
        return None;
    }
    if is_load_kind(kind) {
        return Some(16);
    }
    Some(15)
}

// The first target event that shows one, as an answer that refuses.
pub(crate) fn target_answer(listed: &Listed, target: &[Word], marks: &Marks) -> Result<(), Answer>
    requires target_bound { capacity target.now ≤ event_limit }
    requires placed { Placed target.now }
    ensures { (ns : List ℕ) → Marked marks.now.words ns
        → Passes (target_answer (view_in listed.now) ns 1 [] (whole_events target.now)) result }
{
    let mut fresh: [bool; PLACES] = [true; PLACES];
    for k in 0..target.len() / WORDS {
        let e = get(target, k);
        let at = index_of(e.place);
        let unsupported = is_unsupported(marks.has(k + 1), is_load_in(listed, e), fresh[at]);
        if let Some(fault) = target_fault(e.kind, unsupported) {
            return Err(Answer::new(fault, 2, k + 1));
        }
        if is_wall_in(listed, e) {
            fresh = [true; PLACES];
            continue;
        }
        fresh[at] = false;
    }
    Ok(())
}
