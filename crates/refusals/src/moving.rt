// A trace text that is to be moved from one form to the other: its refusals but 17. It is judged in walks over the text: no room of events is lent or kept.
ghost use Rattle.event.specs.Told.{Passes};
ghost use Rattle.trace.specs.Moving.{move_head, move_survey_in};
ghost use Rattle.trace.specs.Reading.{Reads, events_of};
ghost use Rattle.trace.specs.Writing.{lost};

use crate::loss::loss_at;
use event::Answer;
use memory::listed::Listed;
use record::form::{Form, limit_of};
use text::line::line_two;
use trace::ahead::next_event;
use trace::form::{form_of, is_of};
use trace::reading::{Held, survey};

// 19: the first event of a text whose code line a form would lose.
#[tactic(auto, using(trace::proofs::Walks::events_heard, crate::proofs::Losses::lost_here, crate::proofs::Losses::not_lost, crate::proofs::Losses::none_lost))]
fn loss_in(to: Form, text: &[u8]) -> Result<(), Answer>
    ensures { Passes (lost to 1 1 (events_of text.now)) result }
{
    let form = form_of(text);
    let mut at = line_two(text);
    let mut n: usize = 0;
    while let Some(found) = next_event(form, text, at) {
        n += 1;
        loss_at(to, found.event, 1, n)?;
        at = found.next;
    }
    Ok(())
}

// 1; and 2 at line 1 for a text that is of the form already.
#[tactic(auto, unfolding(trace::specs::Moving::move_head))]
fn move_head(to: Form, text: &[u8]) -> Result<(), Answer>
    ensures { Passes (move_head to text.now) result }
{
    if limit_of(form_of(text)) < text.len() {
        return Err(Answer::new(1, 1, 0));
    }
    if is_of(to, text) {
        return Err(Answer::new(2, 1, 1));
    }
    Ok(())
}

// The refusals of a move but 17, or what is held of the text.
#[tactic(auto, using(trace::proofs::Moved::head_refuses, trace::proofs::Moved::reading_refuses, trace::proofs::Moved::loss_refuses, trace::proofs::Moved::move_passes))]
pub fn survey_to(listed: &Listed, to: Form, text: &[u8]) -> Result<Held, Answer>
    ensures { Reads result (move_survey_in listed.now to text.now) }
{
    move_head(to, text)?;
    let held = survey(listed, text, 1)?;
    loss_in(to, text)?;
    Ok(held)
}
