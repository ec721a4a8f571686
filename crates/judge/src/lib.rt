// The judge: the answer to two traces and a matching that were read, 7 to 16, in a pass or two for each question, under a list of registers.
#![tactic(auto)]

pub mod entries;
pub mod marks;
pub mod start;
pub mod target;

ghost use Rattle.std.specs.Prelude.{◌≡◌, ◌≤◌};
ghost use Rattle.event.specs.Room.{Placed, whole_events, capacity};
ghost use Rattle.rules.specs.Verdict.{verdict_in};
ghost use Rattle.event.specs.Told.{Passes};
ghost use Rattle.event.specs.Limit.{event_limit};

use entries::entry_answer;
use event::{Answer, Entry, WORDS, Word};
use fates::source::source_answer;
use memory::Memory;
use memory::listed::Listed;
use start::start_answer;
use target::target_answer;

// The first answer that refuses, in the order of their numbers. Each is asked only where none before it refuses.
// It takes what `judge` takes, whose parameters and clauses docs/CONTRACTS.md names: a struct of them would be made for this call alone.
fn refusal(
    listed: &Listed,
    start: Memory,
    target_start: Memory,
    source: &[Word],
    target: &[Word],
    entries: &[Entry],
) -> Result<(), Answer>
    requires source_bound { capacity source.now ≤ event_limit }
    requires placed { Placed source.now }
    requires target_bound { capacity target.now ≤ event_limit }
    requires placed_2 { Placed target.now }
    ensures { Passes (verdict_in listed.now start.cells target_start.cells
        (whole_events source.now) (whole_events target.now) entries.now) result }
{
    start_answer(listed, start, target_start)?;
    let count = entries.len();
    if count != source.len() / WORDS {
        return Err(Answer::new(8, 3, count));
    }
    let marks = entry_answer(entries, target.len() / WORDS)?;
    source_answer(listed, source, target, entries)?;
    target_answer(listed, target, &marks)
}

// The rooms are the parts that hold the events and the entries.
pub fn judge(
    listed: &Listed,
    start: Memory,
    target_start: Memory,
    source: &[Word],
    target: &[Word],
    entries: &[Entry],
) -> Answer
    requires source_bound { capacity source.now ≤ event_limit }
    requires placed { Placed source.now }
    requires target_bound { capacity target.now ≤ event_limit }
    requires placed_2 { Placed target.now }
    ensures { result ≡ verdict_in listed.now start.cells target_start.cells
        (whole_events source.now) (whole_events target.now) entries.now }
{
    match refusal(listed, start, target_start, source, target, entries) {
        Ok(()) => Answer::new(0, 0, 0),
        Err(refused) => refused,
    }
}
