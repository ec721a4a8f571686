// Answer 7: the starting values of the two traces, but for listed locations.
ghost use Rattle.rules.specs.Verdict.{start_answer_in};
ghost use Rattle.event.specs.Told.{Passes};

use event::{Answer, PLACES};
use memory::Memory;
use memory::listed::Listed;

// The first location that is not listed and at which they differ, as an answer that refuses.
pub(crate) fn start_answer(
    listed: &Listed,
    start: Memory,
    target_start: Memory,
) -> Result<(), Answer>
    ensures { Passes (start_answer_in listed.now 0 start.cells target_start.cells) result }
{
    for at in 0..PLACES {
        if start.cells[at] != target_start.cells[at] && !listed[at] {
            return Err(Answer::new(7, 2, at));
        }
    }
    Ok(())
}
