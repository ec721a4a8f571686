// A register's line: `reg`, in form 2 its group, and a location.
ghost use Rattle.std.specs.Prelude.{◌≡◌};
ghost use Rattle.text.specs.Field.{fields_from};
ghost use Rattle.registers.specs.Reg.{reg_rest, group_rest, after_word, reg_of};

use event::Word;
use kinds::LAST_PLACE;
use text::reader::field_of;
use text::take::{ends_at, take_number};
use text::word::same_bytes;

// The groups are 1 and 2.
pub const LAST_GROUP: Word = 2;

// A location that is a register of a group.
#[derive(Clone, Copy)]
pub struct Register {
    pub group: Word,
    pub location: Word,
}

// After the group: a location, and nothing more.
#[tactic(auto, using(crate::proofs::Steps::rest_by))]
fn reg_rest(group: Word, line: &[u8], at: usize) -> Option<Register>
    ensures { result ≡ reg_rest group (fields_from line.now at) }
{
    let taken = take_number(line, at, LAST_PLACE)?;
    if !ends_at(line, taken.next) {
        return None;
    }
    Some(Register {
        group,
        location: taken.value,
    })
}

// A group, and what comes after it.
#[tactic(auto, using(crate::proofs::Steps::group_by))]
fn group_rest(line: &[u8], at: usize) -> Option<Register>
    ensures { result ≡ group_rest (fields_from line.now at) }
{
    let taken = take_number(line, at, LAST_GROUP)?;
    if taken.value == 0 {
        return None;
    }
    reg_rest(taken.value, line, taken.next)
}

// After the word: a line of form 1 names no group, it is group 1's.
#[tactic(auto, unfolding(crate::specs::Reg::after_word))]
fn after_word(grouped: bool, line: &[u8], at: usize) -> Option<Register>
    ensures { result ≡ after_word grouped (fields_from line.now at) }
{
    if grouped {
        return group_rest(line, at);
    }
    reg_rest(1, line, at)
}

// The register that a line names; none where it is not of the layout.
#[tactic(auto, using(crate::proofs::Steps::line_by, text::proofs::Fields::field_in))]
pub(crate) fn reg_of(grouped: bool, line: &[u8]) -> Option<Register>
    ensures { result ≡ reg_of grouped line.now }
{
    let Some(word) = field_of(line, 0) else {
        return None;
    };
    if !same_bytes(&line[word.from..word.to], b"reg") {
        return None;
    }
    after_word(grouped, line, word.to + 1)
}
