// How many steps the run of an accepted matching has: the gone events, the pairs of kept events whose order is reversed, the inserted loads.
ghost use Rattle.std.specs.Prelude.{◌≡◌, ◌≤◌, length};
ghost use Rattle.course.specs.Cost.{bit, cost, is_reversed, many};
ghost use Rattle.event.specs.Limit.{event_limit};

use event::Entry;

// 1 for an event and a later one, both kept, of which the later comes first in the target; else 0.
#[tactic(auto, using(crate::proofs::Tally::falls_is))]
fn pair(number: Entry, later: Entry) -> usize
    ensures { result ≡ bit (is_reversed number later) }
{
    usize::from(later != 0 && later < number)
}

// The pairs of one event with those after it. A sum in a loop: `filter` and `count` made the beginning of a long run cost more than two checks.
fn reversed_with(number: Entry, later: &[Entry]) -> usize
    ensures { result ≡ many (is_reversed number) later.now }
{
    let mut pairs = 0;
    for next in later {
        pairs += pair(number, *next);
    }
    pairs
}

// Those of a matching to a target of so many events.
pub(crate) fn cost_of(entries: &[Entry], targets: usize) -> usize
    requires entries_len_bound { length entries.now ≤ event_limit }
    requires targets_le_event_limit { targets ≤ event_limit }
    ensures { result ≡ cost targets entries.now }
{
    let mut steps = 0;
    let mut kept = 0;
    for (i, number) in entries.iter().enumerate() {
        if *number == 0 {
            steps += 1;
        } else {
            kept += 1;
            steps += reversed_with(*number, &entries[i + 1..]);
        }
    }
    // No matching that is accepted keeps more than there are targets.
    steps + targets.saturating_sub(kept)
}
