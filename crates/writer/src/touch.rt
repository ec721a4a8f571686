// Which starting values have a line: the ways in which events use the locations say which are touched.
ghost use Rattle.std.specs.Prelude.{not, ◌≡◌, eqb};
ghost use Rattle.event.specs.Room.{onward};
ghost use Rattle.uses.specs.Way.{ways_of};
ghost use Rattle.trace.specs.Writing.{has_line};

use event::Word;
use event::room::get;
use record::form::{Form, is_silent};
use uses::{UNTOUCHED, Way, Ways, touch};

// Whether a starting value has a line, by how its location is used.
pub(crate) fn has_line(form: Form, way: Way, value: Word) -> bool
    ensures { result ≡ has_line form (λ _. not (eqb way 0)) 0 value }
{
    value != 0 || (!is_silent(form, value) && way != UNTOUCHED)
}

// The ways after the first n events of a room.
#[tactic(auto, using(trace::proofs::Judged::event_next, trace::proofs::Judged::onward_end, crate::proofs::Texts::ways_next, crate::proofs::Texts::ways_none))]
pub(crate) fn touch_all(ways: &mut Ways, room: &[Word], n: usize)
    ensures { ways.new ≡ ways_of ways.old (onward room.now 0 n) }
{
    for i in 0..n {
        touch(ways, get(room, i));
    }
}
