// An entry's line: `keep` and a target number, or `gone`.
ghost use Rattle.std.specs.Prelude.{◌≡◌};
ghost use Rattle.text.specs.Field.{fields_from};
ghost use Rattle.matching.specs.Entry.{keep_rest, gone_rest, entry_of};

use event::{EVENT_LIMIT, Entry};
use text::reader::field_of;
use text::take::{ends_at, take_number};
use text::word::same_bytes;

// The greatest target number: that of the last event that a trace may have.
const LAST_NUMBER: u64 = EVENT_LIMIT as u64;

// `keep`, after the word: a target number, and nothing more.
#[tactic(auto, using(crate::proofs::Steps::keep_by, text::proofs::Takes::taken_le))]
fn keep_rest(line: &[u8], at: usize) -> Option<Entry>
    ensures { result ≡ keep_rest (fields_from line.now at) }
{
    let taken = take_number(line, at, LAST_NUMBER)?;
    if !ends_at(line, taken.next) {
        return None;
    }
    if taken.value == 0 {
        return None;
    }
    Some(taken.value as Entry)
}

// `gone`, and nothing more.
#[tactic(auto, using(crate::proofs::Steps::gone_by))]
fn gone_rest(line: &[u8], at: usize) -> Option<Entry>
    ensures { result ≡ gone_rest (fields_from line.now at) }
{
    ends_at(line, at).then_some(0)
}

// The entry that a line says, the kept target number or 0 for gone; none where it is not of the layout.
#[tactic(auto, using(crate::proofs::Steps::line_by, text::proofs::Fields::field_in))]
pub(crate) fn entry_of(line: &[u8]) -> Option<Entry>
    ensures { result ≡ entry_of line.now }
{
    let Some(field) = field_of(line, 0) else {
        return None;
    };
    let word = &line[field.from..field.to];
    if same_bytes(word, b"gone") {
        return gone_rest(line, field.to + 1);
    }
    if same_bytes(word, b"keep") {
        return keep_rest(line, field.to + 1);
    }
    None
}
