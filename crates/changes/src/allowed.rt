// What the rules of change allow on the trace as it stands, under a list of registers.
ghost use Rattle.std.specs.Prelude.{◌≡◌, true, cond, [], ◌+◌, ◌-◌, ◌≤◌, ◌<◌, length, drop};
ghost use Rattle.std.proofs.Math.Option.{none, some};
ghost use Rattle.event.specs.Room.{whole_events};
ghost use Rattle.rules.specs.View.{view_in, apart};
ghost use Rattle.rules.specs.Run.{viewed};
ghost use Rattle.rules.specs.Moves.{near};
ghost use Rattle.changes.specs.Allowed.{holds, stores, may_insert};
ghost use Rattle.changes.specs.Tags.{behind, trace};
ghost use Rattle.changes.specs.Change.{applied};
ghost use Rattle.changes.specs.Apply.{removable_at};
ghost use Rattle.changes.specs.Inner.{exchanged, with_new, without};
ghost use Rattle.changes.specs.declared.Step.TheVariants.{Remove, Swap, Insert};
ghost use Rattle.event.specs.Limit.{event_limit};

use crate::tag::{Ground, is_source};
use event::room::get;
use event::{EVENT_LIMIT, Event, WORDS, Word};
use kinds::USED;
use memory::listed::Listed;
use sight::{is_load_in, is_wall_in};

impl<'a> Ground<'a> {
    // Whether the near access to a location before an index has a value.
    fn holds_before(self, tags: &[usize], i: usize, place: Word, value: Word) -> bool
        requires { i ≤ length tags.now }
        ensures { result ≡ holds value (near (viewed (view_in self.entry.listed.now)) place
            (behind [] (trace (whole_events self.entry.source.now) (whole_events self.entry.target.now) tags.now) i)) }
    {
        for j in (0..i).rev() {
            let e = self.event_of(tags[j]);
            if is_wall_in(self.listed, e) {
                return false;
            }
            if e.place == place {
                return e.first == value;
            }
        }
        false
    }

    // Whether the near access to a location among those that come after is a store.
    fn stores_after(self, after: &[usize], place: Word) -> bool
        ensures { result ≡ stores (near (viewed (view_in self.entry.listed.now)) place
            (trace (whole_events self.entry.source.now) (whole_events self.entry.target.now) after.now)) }
    {
        for tag in after {
            let e = self.event_of(*tag);
            if is_wall_in(self.listed, e) {
                return false;
            }
            if e.place == place {
                return !is_load_in(self.listed, e);
            }
        }
        false
    }

    // Whether the event at an index may be removed; beyond the end there is none.
    #[tactic(auto, using(crate::proofs::Near::removable))]
    fn may_remove(self, tags: &[usize], i: usize) -> bool
        ensures { result ≡ removable_at self.entry.listed.now (whole_events self.entry.source.now) (whole_events self.entry.target.now) tags.now i }
    {
        if tags.len() <= i {
            return false;
        }
        let e = self.event_of(tags[i]);
        if is_wall_in(self.listed, e) {
            return false;
        }
        if is_load_in(self.listed, e) {
            return e.order != USED || self.holds_before(tags, i, e.place, e.first);
        }
        self.holds_before(tags, i, e.place, e.first) || self.stores_after(&tags[i + 1..], e.place)
    }

    // Whether an event may be inserted at an index.
    #[tactic(auto, using(crate::proofs::Near::insertable))]
    fn may_insert(self, tags: &[usize], i: usize, e: Event) -> bool
        requires { i ≤ length tags.now }
        ensures { result ≡ may_insert (viewed (view_in self.entry.listed.now))
            (behind [] (trace (whole_events self.entry.source.now) (whole_events self.entry.target.now) tags.now) i) (view_in self.entry.listed.now e) }
    {
        is_load_in(self.listed, e) && self.holds_before(tags, i, e.place, e.first)
    }

    // Whether two adjacent events may be swapped.
    fn may_swap(self, e: Event, f: Event) -> bool
        ensures { result ≡ apart (view_in self.entry.listed.now e) (view_in self.entry.listed.now f) }
    {
        !is_wall_in(self.listed, e) && !is_wall_in(self.listed, f) && e.place != f.place
    }

    // Whether the source event of a number may be removed from its place in the trace.
    pub(crate) fn can_remove(self, tags: &[usize], place: usize, number: usize) -> bool
        ensures tags_value { applied (view_in self.entry.listed.now) (whole_events self.entry.target.now) (Remove place number)
            (trace (whole_events self.entry.source.now) (whole_events self.entry.target.now) tags.now)
            ≡ cond result (some (trace (whole_events self.entry.source.now) (whole_events self.entry.target.now)
            (without (place - 1) tags.now))) none }
        ensures place_nonzero { result ≡ true → (0 < place) × (place ≤ length tags.now) }
    {
        let Some(i) = place.checked_sub(1) else {
            return false;
        };
        i < tags.len() && is_source(number, tags[i]) && self.may_remove(tags, i)
    }

    // Whether the events at a place and the next may be swapped.
    pub(crate) fn can_swap(self, tags: &[usize], place: usize) -> bool
        ensures tags_value { applied (view_in self.entry.listed.now) (whole_events self.entry.target.now) (Swap place)
            (trace (whole_events self.entry.source.now) (whole_events self.entry.target.now) tags.now)
            ≡ cond result (some (trace (whole_events self.entry.source.now) (whole_events self.entry.target.now)
            (exchanged (place - 1) tags.now))) none }
        ensures place_nonzero { result ≡ true → (0 < place) × (place < length tags.now) }
    {
        let Some(i) = place.checked_sub(1) else {
            return false;
        };
        place < tags.len() && self.may_swap(self.event_of(tags[i]), self.event_of(tags[place]))
    }

    // Whether the target event of a number may be inserted at that place.
    pub(crate) fn can_insert(self, tags: &[usize], place: usize) -> bool
        ensures tags_value { applied (view_in self.entry.listed.now) (whole_events self.entry.target.now) (Insert place)
            (trace (whole_events self.entry.source.now) (whole_events self.entry.target.now) tags.now)
            ≡ cond result (some (trace (whole_events self.entry.source.now) (whole_events self.entry.target.now)
            (with_new (place - 1) (event_limit + (place - 1)) tags.now))) none }
        ensures place_nonzero { result ≡ true → (0 < place) × (place - 1 ≤ length tags.now) × (length tags.now < event_limit) }
    {
        let Some(i) = place.checked_sub(1) else {
            return false;
        };
        i < self.target.len() / WORDS
            && tags.len() < EVENT_LIMIT
            && i <= tags.len()
            && self.may_insert(tags, i, get(self.target, i))
    }
}

// The same for other crates, in parameters of their own: the pages name the function with them.
pub fn may_remove(
    listed: &Listed,
    tags: &[usize],
    source: &[Word],
    target: &[Word],
    i: usize,
) -> bool
    ensures { result ≡ removable_at listed.now (whole_events source.now) (whole_events target.now) tags.now i }
{
    let ground = Ground {
        listed,
        source,
        target,
    };
    ground.may_remove(tags, i)
}
