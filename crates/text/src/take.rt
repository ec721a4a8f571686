// Fields taken one by one, each by one call.
ghost use Rattle.std.specs.Prelude.{◌≡◌, ◌-◌, ◌≤◌, length, take, drop};
ghost use Rattle.text.specs.Number.{number_of};
ghost use Rattle.text.specs.Take.{take_number, ends_at};

use super::number::number_of;
use super::reader::field_of;

// A number that was taken, with the place of the field after it.
#[derive(Clone, Copy)]
pub struct Taken {
    pub value: u64,
    pub next: usize,
}

// The number that stands from one place of a line to another.
fn number_at(line: &[u8], from: usize, to: usize, max: u64) -> Option<u64>
    requires { (from ≤ to) × (to ≤ length line.now) }
    ensures { result ≡ number_of max (take (to - from) (drop from line.now)) }
{
    number_of(&line[from..to], max)
}

// The number field that starts at a place of a line, at most `max`, with the place of the next field.
#[tactic(auto, unfolding(crate::specs::Take::take_number), using(crate::proofs::Fields::field_in))]
#[inline(always)]
pub fn take_number(line: &[u8], at: usize, max: u64) -> Option<Taken>
    ensures { result ≡ take_number line.now at max }
{
    let Some(field) = field_of(line, at) else {
        return None;
    };
    let value = number_at(line, field.from, field.to, max)?;
    Some(Taken {
        value,
        next: field.to + 1,
    })
}

// Whether no field starts at a place of a line or after it.
#[tactic(auto, using(crate::proofs::Takes::ends_none))]
pub fn ends_at(line: &[u8], at: usize) -> bool
    ensures { result ≡ ends_at line.now at }
{
    field_of(line, at).is_none()
}
