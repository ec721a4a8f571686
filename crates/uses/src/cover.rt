// Answers 20 and 21: a location that an event touches has its line, and a line of 0 is for such a location. The ways in which locations are used say
// which are touched.
ghost use Rattle.std.specs.Prelude.{length, ◌≡◌};
ghost use Rattle.event.specs.Told.{Passes};
ghost use Rattle.memory.specs.Listed.{listed};
ghost use Rattle.uses.specs.Cover.{lacks_line, is_idle, so_far};
ghost use Rattle.uses.specs.Bad.{first_bad};
ghost use Rattle.uses.specs.Way.{is_used};
ghost use Rattle.event.specs.Limit.{places};

use crate::{UNTOUCHED, Ways, way_of};
use event::{Answer, Event, Number, PLACES, Word};
use memory::listed::{Listed, is_listed};
use record::form::{Form, is_silent};

// 20: whether an event touches a location that has no line; `has` lists those that have one.
#[tactic(auto, using(crate::proofs::Ways::way_touches))]
pub fn lacks_line(form: Form, has: &Listed, e: Event) -> bool
    ensures { result ≡ lacks_line form (listed has.now) e }
{
    !is_silent(form, 0) && !is_listed(has, e.place) && way_of(e.kind) != UNTOUCHED
}

// 21: the first line of 0 for a location that no event touches. The first starting value is on line 2.
#[tactic(auto, using(crate::proofs::Idle::silent_idles, crate::proofs::Idle::idle_end, crate::proofs::Idle::no_line, crate::proofs::Idle::idle_here, crate::proofs::Idle::not_idle))]
pub fn idle_fault(
    form: Form,
    side: Number,
    has: &Listed,
    cells: &[Word; PLACES],
    ways: &Ways,
) -> Result<(), Answer>
    requires { length cells.now ≡ places }
    ensures { Passes (first_bad (is_idle form (is_used ways.now)) 21 side 2 (so_far has.now cells.now)) result }
{
    if is_silent(form, 0) {
        return Ok(());
    }
    let mut line: usize = 2;
    for l in 0..PLACES {
        if has[l] {
            if cells[l] == 0 && ways[l] == UNTOUCHED {
                return Err(Answer::new(21, side, line));
            }
            line += 1;
        }
    }
    Ok(())
}
