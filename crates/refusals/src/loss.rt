// Answer 19 of one event.
ghost use Rattle.std.specs.Prelude.{cond};
ghost use Rattle.event.specs.Answer.{answer, done};
ghost use Rattle.event.specs.Told.{Passes};
ghost use Rattle.record.specs.Form.{loses};

use event::{Answer, Event, Number};
use record::form::{Form, does_lose};

// 19 of the event of a number: a form would lose its code line.
pub(crate) fn loss_at(form: Form, e: Event, side: Number, k: usize) -> Result<(), Answer>
    ensures { Passes (cond (loses form e.code) (answer 19 side k) done) result }
{
    if does_lose(form, e.code) {
        return Err(Answer::new(19, side, k));
    }
    Ok(())
}
