// The alphabet of a trace: words, events, answers; events in a room (`room`).
#![tactic(auto)]

pub mod room;

ghost use Rattle.std.specs.Prelude.{◌≡◌};
ghost use Rattle.event.specs.Answer.{answer};
ghost use Rattle.event.specs.Told.{told};

// A value and a word of an event.
pub type Word = u64;

// A number that is no value: an answer's, a side's, a target event's.
// Kinds, orders, entries and answers are numbers and no enums: rooms and C's arrays hold them (the C interface), and the pages of `rules` say them.
pub type Number = u32;

// An entry of a matching: the target number that a source event is kept as, or 0 for gone.
pub type Entry = Number;

// The locations that there are, and the mutexes.
pub const PLACES: usize = 256;

// The most events of a trace.
pub const EVENT_LIMIT: usize = 800;

// The words of an event in a room.
pub const WORDS: usize = 6;

// An event. `place` is a location or a mutex; `order` an order's number or a load's mark; a field that the kind lacks is 0.
#[derive(Clone, Copy, Default)]
pub struct Event {
    pub kind: Word,
    pub place: Word,
    pub order: Word,
    pub first: Word,
    pub second: Word,
    pub code: Word,
}

// What comes back: document 01's number, the side (0 none, 1 source, 2 target, 3 matching, 4 list) and the place.
#[derive(Clone, Copy)]
pub struct Answer {
    pub number: Number,
    pub side: Number,
    pub place: usize,
}

impl Answer {
    pub fn new(number: Number, side: Number, place: usize) -> Self
        ensures { result ≡ answer number side place }
    {
        Answer {
            number,
            side,
            place,
        }
    }

    // The answer to a writing: 0 with the bytes written, or what refuses.
    pub fn of_bytes(written: Result<usize, Answer>) -> Self
        ensures { result ≡ told (answer 0 0) (λ a. a) written }
    {
        match written {
            Ok(bytes) => Answer::new(0, 0, bytes),
            Err(answer) => answer,
        }
    }
}

// A word as an index: no From, which the library does not have between these types.
pub fn index_of(w: Word) -> usize
    ensures { result ≡ w }
{
    w as usize
}

// A number as an index.
pub fn number_index(n: Number) -> usize
    ensures { result ≡ n }
{
    n as usize
}
