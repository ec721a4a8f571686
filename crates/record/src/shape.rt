// Which fields the line of a kind has after its word, in a form.
ghost use Rattle.std.specs.Prelude.{◌≡◌};
ghost use Rattle.record.specs.Layout.{shape_of, has_place, has_order};

use crate::form::{Form, is_coded};
use event::Word;
use kinds::{Orders, Place, is_marks, row_of};

// The fields in their order, and whether they are there.
#[derive(Clone, Copy)]
pub struct Shape {
    pub place: bool,
    pub order: bool,
    pub first: bool,
    pub second: bool,
    pub mark: bool,
    pub code: bool,
}

// Whether a line of such a place has it as a field.
fn has_place(place: Place) -> bool
    ensures { result ≡ has_place place }
{
    matches!(place, Place::Location | Place::Mutex)
}

// Whether a line with such orders has an order before its values.
fn has_order(orders: Orders) -> bool
    ensures { result ≡ has_order orders }
{
    matches!(
        orders,
        Orders::Reads | Orders::Writes | Orders::Updates | Orders::Fences
    )
}

// Those of a kind.
pub fn shape_of(form: Form, kind: Word) -> Shape
    ensures { result ≡ shape_of form kind }
{
    let row = row_of(kind);
    Shape {
        place: has_place(row.place),
        order: has_order(row.orders),
        first: 1 <= row.values,
        second: 2 <= row.values,
        mark: is_marks(row.orders),
        code: is_coded(form),
    }
}
