// Trace texts shortened for the shelf (`shorten`), with a list of registers too (`shorten_listed`): the shortened text, and the matching text from the
// long one to it. No room of events is lent or kept.
#![tactic(auto)]

pub mod stay;
pub mod write;

ghost use Rattle.registers.specs.Reading.{list_of};
ghost use Rattle.matching.specs.Text.{match_text};
ghost use Rattle.trace.specs.Reading.{form_of, events_of};
ghost use Rattle.trace.specs.Writing.{text_by};
ghost use Rattle.uses.specs.Way.{is_used};
ghost use Rattle.writer.specs.Put.{Small};
ghost use Rattle.shelf.specs.Short.{pick, numbers};
ghost use Rattle.shorten.specs.Text.{Writes, ShortensIn, Shortens, ShortensListed};

use event::{Answer, EVENT_LIMIT, PLACES, WORDS, Word};
use memory::Memory;
use memory::listed::Listed;
use stay::stay_flags;
use trace::reading::survey_in;
use uses::{UNTOUCHED, Ways};
use write::{matching_size, put_matching, put_short, short_size, touch_kept};

// How many bytes the shortened text and its matching have.
#[derive(Clone, Copy)]
pub struct Shortened {
    pub bytes: usize,
    pub matching_bytes: usize,
}

// Both texts, by the flags of the events that stay: 17 for the first that does not fit, and else each at the front of its part.
#[tactic(auto, using(crate::proofs::Written::short, crate::proofs::Written::matching_short, crate::proofs::Written::both))]
fn write_both(
    flags: &[bool],
    ways: &Ways,
    memory: Memory,
    text: &[u8],
    out: &mut [u8],
    matching_out: &mut [u8],
) -> Result<Shortened, Answer>
    requires small { Small 0 (text_by (form_of text.now) (is_used ways.now) memory (pick flags.now (events_of text.now))) }
    requires small_2 { Small 0 (match_text (numbers 1 flags.now)) }
    ensures { Writes (text_by (form_of text.now) (is_used ways.now) memory (pick flags.now (events_of text.now)))
        (match_text (numbers 1 flags.now)) out.old matching_out.old result out.new matching_out.new }
{
    let bytes = short_size(flags, ways, memory, text);
    if out.len() < bytes {
        return Err(Answer::new(17, 2, bytes));
    }
    let matching_bytes = matching_size(flags);
    if matching_out.len() < matching_bytes {
        return Err(Answer::new(17, 3, matching_bytes));
    }
    put_short(flags, out, ways, memory, text);
    put_matching(flags, matching_out);
    Ok(Shortened {
        bytes,
        matching_bytes,
    })
}

// A trace text shortened under a list of registers; a refusal leaves both parts as they were.
pub fn shorten_in(
    listed: &Listed,
    text: &[u8],
    out: &mut [u8],
    matching_out: &mut [u8],
) -> Result<Shortened, Answer>
    ensures { ShortensIn listed.now text.now out.old matching_out.old
        result out.new matching_out.new }
{
    let held = survey_in(listed, text, 1, EVENT_LIMIT * WORDS)?;
    let flags = stay_flags(listed, text);
    let stay = &flags[..held.events];
    let mut ways: Ways = [UNTOUCHED; PLACES];
    touch_kept(&mut ways, stay, text);
    write_both(stay, &ways, held.memory, text, out, matching_out)
}

// The same without a list: none is listed.
pub fn shorten(text: &[u8], out: &mut [u8], matching_out: &mut [u8]) -> Result<Shortened, Answer>
    ensures { Shortens text.now out.old matching_out.old result out.new matching_out.new }
{
    shorten_in(&[false; PLACES], text, out, matching_out)
}

// With the text of a list and a group of it: the list's answer comes first.
#[tactic(auto, unfolding(crate::specs::Text::shorten_listed, crate::specs::Text::short_out_listed, crate::specs::Text::matching_out_listed))]
pub fn shorten_listed(
    list: &[u8],
    group: Word,
    text: &[u8],
    out: &mut [u8],
    matching_out: &mut [u8],
) -> Result<Shortened, Answer>
    ensures { ShortensListed (list_of group list.now) text.now out.old matching_out.old
        result out.new matching_out.new }
{
    let listed = registers::read(list, group)?;
    shorten_in(&listed, text, out, matching_out)
}
