// A line and a place in it, in one value. A walk asks for the next field and goes on with the reader moved behind it.
ghost use Rattle.std.specs.Prelude.{◌≡◌};
ghost use Rattle.text.specs.Field.{field_at};

use super::field::{Field, field_at};

#[derive(Clone, Copy)]
pub struct Reader<'a> {
    pub text: &'a [u8],
    pub at: usize,
}

pub fn new<'a>(text: &'a [u8], at: usize) -> Reader<'a>
    ensures { (result.text ≡ text.entry) × (result.at ≡ at) }
{
    Reader { text, at }
}

// The next field; none where the line has ended.
pub fn next<'a>(r: Reader<'a>) -> Option<Field>
    ensures { result ≡ field_at r.entry.text.now r.entry.at }
{
    field_at(r.text, r.at)
}

// The reader at another place of its line, to go on with behind a field.
pub fn moved<'a>(r: Reader<'a>, at: usize) -> Reader<'a>
    ensures { (result.text ≡ r.entry.text) × (result.at ≡ at) }
{
    Reader { text: r.text, at }
}

// The next field with plain parameters: a reader is made and asked.
pub fn field_of(text: &[u8], at: usize) -> Option<Field>
    ensures { result ≡ field_at text.now at }
{
    next(new(text, at))
}
