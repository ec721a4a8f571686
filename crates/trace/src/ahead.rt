// The events of a text one by one, each found from the place after the one before it: no room of events is lent or kept.
ghost use Rattle.std.specs.Prelude.{◌≡◌};
ghost use Rattle.trace.specs.Ahead.{Finds, found_from};

use event::Event;
use record::form::Form;
use record::{Record, record_of};
use text::line::next_line;

// An event that was found, and the place after its line.
#[derive(Clone, Copy)]
pub struct Found {
    pub event: Event,
    pub next: usize,
}

// The first event of the lines that start at a place or after it, if there is one.
#[tactic(auto, using(text::proofs::Walk::line_in, crate::proofs::Walks::next_line))]
pub fn next_event(form: Form, text: &[u8], from: usize) -> Option<Found>
    ensures { (result ≡ found_from form text.now from) × Finds form text.now from result }
{
    let mut at = from;
    while let Some(to) = next_line(text, at) {
        if let Some(Record::AnEvent(event)) = record_of(form, &text[at..to]) {
            return Some(Found {
                event,
                next: to + 1,
            });
        }
        at = to + 1;
    }
    None
}
