// Events in a room: six words each, in the order of the struct's fields. No slice of events: C lends rooms of words.
ghost use Rattle.std.specs.Prelude.{◌≡◌};
ghost use Rattle.event.specs.Room.{event_at, put_at};

use crate::{Event, WORDS, Word};

// The event at an index; no event, all 0, where the room does not hold it whole.
#[tactic(auto, unfolding(crate::specs::Room::event_at))]
pub fn get(room: &[Word], i: usize) -> Event
    ensures { result ≡ event_at room.now i }
{
    if room.len() / WORDS <= i {
        return Event::default();
    }
    let at = i * WORDS;
    Event {
        kind: room[at],
        place: room[at + 1],
        order: room[at + 2],
        first: room[at + 3],
        second: room[at + 4],
        code: room[at + 5],
    }
}

// The room with an event at an index; where it does not fit, the room stays as it is.
pub fn put(room: &mut [Word], i: usize, e: Event)
    ensures { room.new ≡ put_at room.old i e }
{
    if room.len() / WORDS <= i {
        return;
    }
    let at = i * WORDS;
    room[at] = e.kind;
    room[at + 1] = e.place;
    room[at + 2] = e.order;
    room[at + 3] = e.first;
    room[at + 4] = e.second;
    room[at + 5] = e.code;
}
