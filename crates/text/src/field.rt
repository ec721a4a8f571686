// The fields of a line. A place is where the next field starts: after a field that ends at `to` it is `to + 1`, and beyond the line's
// length no field starts.
ghost use Rattle.std.specs.Prelude.{◌≡◌, ◌+◌, drop};
ghost use Rattle.text.specs.Field.{field_len, field_at};

use super::scan::find;

// The byte between two fields.
pub const TAB: u8 = 9;

// Where a field starts and ends in its line. A field step answers with an enum, `Option<Field>`, which each record's reader takes apart by `let .. else` and not by `?`: document 01
// names this form.
#[derive(Clone, Copy)]
pub struct Field {
    pub from: usize,
    pub to: usize,
}

// Where the field that starts at `from` ends: at the next TAB, or at the end of the line.
fn field_end(line: &[u8], from: usize) -> usize
    ensures { result ≡ from + field_len (drop from line.now) }
{
    find(line, from, TAB)
}

// The field that starts at a place of a line; none where the line has ended.
#[tactic(auto, unfolding(crate::specs::Field::field_at))]
pub(crate) fn field_at(line: &[u8], at: usize) -> Option<Field>
    ensures { result ≡ field_at line.now at }
{
    if line.len() < at {
        return None;
    }
    let to = field_end(line, at);
    Some(Field { from: at, to })
}
