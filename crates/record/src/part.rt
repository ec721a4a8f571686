// A field that a line has or has not, taken at a place of the line.
ghost use Rattle.std.specs.Prelude.{◌≡◌};
ghost use Rattle.text.specs.Take.{number_in};
ghost use Rattle.record.specs.Part.{number_part, order_part, Within};

use crate::word::order_of;
use event::Word;
use text::field::Field;
use text::number::number_of;
use text::reader::field_of;
use text::take::{Taken, take_number};

// The number field at a place, if the line is to have one there; else 0, and no field is passed.
#[tactic(auto, unfolding(crate::specs::Part::number_part))]
#[inline(always)]
pub(crate) fn number_if(wanted: bool, line: &[u8], at: usize, max: Word) -> Option<Taken>
    ensures { result ≡ number_part wanted line.now at max }
{
    if !wanted {
        return Some(Taken { value: 0, next: at });
    }
    take_number(line, at, max)
}

// The order or mark at a place, if the line is to have one there; else the one in hand.
#[tactic(auto, unfolding(crate::specs::Part::order_part), using(text::proofs::Fields::field_in))]
pub(crate) fn order_if(wanted: bool, line: &[u8], at: usize, other: Word) -> Option<Taken>
    ensures { result ≡ order_part wanted line.now at other }
{
    if !wanted {
        return Some(Taken {
            value: other,
            next: at,
        });
    }
    let Some(field) = field_of(line, at) else {
        return None;
    };
    Some(Taken {
        value: order_of(&line[field.from..field.to]),
        next: field.to + 1,
    })
}

// The number that a field is, with the place of the field after it.
pub(crate) fn number_of_field(line: &[u8], field: Field, max: Word) -> Option<Taken>
    requires { Within line.now field }
    ensures { result ≡ number_in line.now max field }
{
    let value = number_of(&line[field.from..field.to], max)?;
    Some(Taken {
        value,
        next: field.to + 1,
    })
}
