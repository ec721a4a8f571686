// What a step makes of the numbers that stand at the front of the lent array.
ghost use Rattle.std.specs.Prelude.{◌≡◌, ◌≤◌, length};
ghost use Rattle.std.proofs.Math.Option.{none};
ghost use Rattle.event.specs.Room.{whole_events};
ghost use Rattle.rules.specs.View.{view_in};
ghost use Rattle.changes.specs.Apply.{Applies, applied_of, leaving, stands};
ghost use Rattle.changes.specs.Change.{applied};
ghost use Rattle.changes.specs.declared.Step.TheVariants.{Remove, Swap, Insert};
ghost use Rattle.event.specs.Limit.{event_limit};

use crate::tag::Ground;
use crate::{Applied, Run};
use event::EVENT_LIMIT;

// A step that the rules do not allow.
pub(crate) fn refuse(run: Run) -> Applied
    ensures { result ≡ applied_of run none }
{
    Applied {
        run,
        allowed: false,
    }
}

// A step that left so many events.
fn allow(standing: usize) -> Applied
    ensures { result ≡ leaving standing }
{
    Applied {
        run: Run {
            begun: true,
            standing,
        },
        allowed: true,
    }
}

impl<'a> Ground<'a> {
    // The number at a place taken out.
    pub(crate) fn remove(self, run: Run, tags: &mut [usize], place: usize, number: usize) -> Applied
        requires { run.standing ≤ length tags.old }
        ensures { Applies run tags.old
            (applied (view_in self.entry.listed.now) (whole_events self.entry.target.now) (Remove place number)
            (stands (whole_events self.entry.source.now) (whole_events self.entry.target.now) run tags.old)) result tags.new }
    {
        let standing = run.standing;
        if !self.can_remove(&tags[..standing], place, number) {
            return refuse(run);
        }
        tags.copy_within(place..standing, place - 1);
        allow(standing - 1)
    }

    // The numbers at a place and the next exchanged.
    pub(crate) fn swap(self, run: Run, tags: &mut [usize], place: usize) -> Applied
        requires { run.standing ≤ length tags.old }
        ensures { Applies run tags.old
            (applied (view_in self.entry.listed.now) (whole_events self.entry.target.now) (Swap place)
            (stands (whole_events self.entry.source.now) (whole_events self.entry.target.now) run tags.old)) result tags.new }
    {
        let standing = run.standing;
        if !self.can_swap(&tags[..standing], place) {
            return refuse(run);
        }
        tags.swap(place - 1, place);
        allow(standing)
    }

    // The number of the target event put in at its place.
    pub(crate) fn insert(self, run: Run, tags: &mut [usize], place: usize) -> Applied
        requires standing_in_bounds { run.standing ≤ length tags.old }
        requires event_limit_in_bounds { event_limit ≤ length tags.old }
        ensures { Applies run tags.old
            (applied (view_in self.entry.listed.now) (whole_events self.entry.target.now) (Insert place)
            (stands (whole_events self.entry.source.now) (whole_events self.entry.target.now) run tags.old)) result tags.new }
    {
        let standing = run.standing;
        if !self.can_insert(&tags[..standing], place) {
            return refuse(run);
        }
        let i = place - 1;
        tags.copy_within(i..standing, place);
        tags[i] = EVENT_LIMIT + i;
        allow(standing + 1)
    }
}
