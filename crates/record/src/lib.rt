// What a line of a trace is: a starting value, an event, or not of the layout. Its fields come through the small reader.
#![tactic(auto)]

pub mod form;
pub mod part;
pub mod shape;
#[cfg(test)]
mod tests;
pub mod word;

ghost use Rattle.std.specs.Prelude.{◌≡◌};
ghost use Rattle.text.specs.Field.{fields_from};
ghost use Rattle.record.specs.Part.{Within, init_of};
ghost use Rattle.record.specs.Record.{event_rest, init_rest, unless_silent, record_of};

use event::{Event, Word};
use form::{Form, is_silent};
use kinds::{LAST_CODE, LAST_PLACE, LAST_VALUE, suits};
use part::{number_if, number_of_field, order_if};
use shape::shape_of;
use text::field::Field;
use text::reader::{field_of, moved, new, next};
use text::take::ends_at;
use text::word::same_bytes;
use word::kind_of;

// What a line of the layout says.
#[derive(Clone, Copy)]
pub enum Record {
    Init { place: Word, value: Word },
    AnEvent(Event),
}

// An `init` line by its two fields.
#[tactic(auto, unfolding(crate::specs::Part::init_of), using(text::proofs::Takes::ended, text::proofs::Takes::not_ended))]
fn init_of(line: &[u8], place: Field, value: Field) -> Option<Record>
    requires { Within line.now place × Within line.now value }
    ensures { result ≡ init_of line.now place value }
{
    let place = number_of_field(line, place, LAST_PLACE)?;
    let value = number_of_field(line, value, LAST_VALUE)?;
    if !ends_at(line, value.next) {
        return None;
    }
    Some(Record::Init {
        place: place.value,
        value: value.value,
    })
}

// An `init` line from the field after its word on. The reader hands out a field, is moved behind it, and hands out the next.
#[tactic(auto, using(crate::proofs::Walk::no_place, crate::proofs::Walk::no_value, crate::proofs::Walk::both_found, text::proofs::Fields::field_in))]
fn init_rest(line: &[u8], at: usize) -> Option<Record>
    ensures { result ≡ init_rest (fields_from line.now at) }
{
    let reader = new(line, at);
    let Some(place) = next(reader) else {
        return None;
    };
    let Some(value) = next(moved(reader, place.to + 1)) else {
        return None;
    };
    init_of(line, place, value)
}

// A line, if it is not that of a silent zero.
#[tactic(auto, unfolding(crate::specs::Record::unless_silent))]
fn unless_silent(form: Form, line: Option<Record>) -> Option<Record>
    ensures { result ≡ unless_silent form line }
{
    match line {
        Some(Record::Init { place: _, value }) if is_silent(form, value) => None,
        other => other,
    }
}

// An event's line from the field after its word on.
#[tactic(auto, using(crate::proofs::Taking::taken_event))]
fn event_rest(form: Form, kind: Word, line: &[u8], at: usize) -> Option<Record>
    ensures { result ≡ event_rest form kind (fields_from line.now at) }
{
    let shape = shape_of(form, kind);
    let place = number_if(shape.place, line, at, LAST_PLACE)?;
    let order = order_if(shape.order, line, place.next, 0)?;
    let first = number_if(shape.first, line, order.next, LAST_VALUE)?;
    let second = number_if(shape.second, line, first.next, LAST_VALUE)?;
    let mark = order_if(shape.mark, line, second.next, order.value)?;
    let code = number_if(shape.code, line, mark.next, LAST_CODE)?;
    // Asked of the fields and not of the event: an event that is built, lent to be judged and copied again stalls the machine on every line (docs/DECISIONS.md).
    let is_lawful = suits(
        kind,
        place.value,
        mark.value,
        first.value,
        second.value,
        code.value,
    );
    if !ends_at(line, code.next) || !is_lawful {
        return None;
    }
    Some(Record::AnEvent(Event {
        kind,
        place: place.value,
        order: mark.value,
        first: first.value,
        second: second.value,
        code: code.value,
    }))
}

// What a line says, if it is of the layout.
#[tactic(auto, using(text::proofs::Fields::field_in))]
pub fn record_of(form: Form, line: &[u8]) -> Option<Record>
    ensures { result ≡ record_of form line.now }
{
    let Some(field) = field_of(line, 0) else {
        return None;
    };
    let word = &line[field.from..field.to];
    if same_bytes(word, b"init") {
        return unless_silent(form, init_rest(line, field.to + 1));
    }
    event_rest(form, kind_of(word), line, field.to + 1)
}
