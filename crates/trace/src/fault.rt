// Answers 5 and 6 of one event, by how its location was used and by whether its value is the latest.
ghost use Rattle.std.specs.Prelude.{◌≡◌, ◌||◌, cond};
ghost use Rattle.std.specs.Result.{result_and};
ghost use Rattle.event.specs.Answer.{answer, done};
ghost use Rattle.event.specs.Told.{passed};
ghost use Rattle.memory.specs.Listed.{is_register, listed};
ghost use Rattle.uses.specs.Cover.{lacks_line};
ghost use Rattle.trace.specs.Fault.{fault_at};

use event::{Answer, Event, Number};
use memory::listed::{Listed, is_register};
use record::form::Form;
use uses::cover::lacks_line;

// Whether a lawful event's value is right, by whether it is the latest: that of a register need not be.
pub fn is_right(listed: &Listed, e: Event, latest: bool) -> bool
    ensures { result ≡ (latest || is_register listed.now e) }
{
    latest || is_register(listed, e)
}

// 20 of the event of a number, which touches a location that has no line, unless one before does.
#[tactic(auto, using(event::proofs::Told::and_ok))]
pub(crate) fn bare_fault(
    bare: Result<(), Answer>,
    form: Form,
    has: &Listed,
    e: Event,
    side: Number,
    k: usize,
) -> Result<(), Answer>
    ensures { result ≡ result_and bare (passed (cond (lacks_line form (listed has.now) e) (answer 20 side k) done)) }
{
    if !lacks_line(form, has, e) {
        return bare;
    }
    bare?;
    Err(Answer::new(20, side, k))
}

// 5 or 6 of the event of a number, by whether it clashes and whether its value is right, unless something was found before.
#[tactic(auto, using(event::proofs::Told::and_ok))]
pub fn fault_at(
    found: Result<(), Answer>,
    clash: bool,
    right: bool,
    side: Number,
    k: usize,
) -> Result<(), Answer>
    ensures { result ≡ result_and found (passed (fault_at side k clash right)) }
{
    if !clash && right {
        return found;
    }
    found?;
    if clash {
        return Err(Answer::new(5, side, k));
    }
    Err(Answer::new(6, side, k))
}
