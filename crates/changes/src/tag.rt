// The number that a run holds of an event says where it comes from.
ghost use Rattle.std.specs.Prelude.{◌≡◌};
ghost use Rattle.event.specs.Room.{whole_events};
ghost use Rattle.changes.specs.Change.{is_source};
ghost use Rattle.changes.specs.Tags.{decoded, event_for};

use event::room::get;
use event::{EVENT_LIMIT, Event, Word};
use memory::listed::Listed;

// What the numbers of a run are read by: the list of registers, and the rooms of the source and of the target.
#[derive(Clone, Copy)]
pub(crate) struct Ground<'a> {
    pub listed: &'a Listed,
    pub source: &'a [Word],
    pub target: &'a [Word],
}

impl<'a> Ground<'a> {
    // The event of a number.
    #[tactic(auto, using(sight::proofs::Events::room_at))]
    pub(crate) fn event_of(self, tag: usize) -> Event
        ensures { result ≡ event_for (whole_events self.entry.source.now) (whole_events self.entry.target.now) tag }
    {
        if tag < EVENT_LIMIT {
            return get(self.source, tag);
        }
        get(self.target, tag - EVENT_LIMIT)
    }
}

// Whether its event is the source event of a number.
pub(crate) fn is_source(number: usize, tag: usize) -> bool
    ensures { result ≡ is_source number (decoded tag) }
{
    tag < EVENT_LIMIT && tag + 1 == number
}
