// The beginning of a run on texts: a check and, if it accepts, the run of the source's events, and how many steps it has.
#![tactic(auto)]

mod cost;
mod tag;

ghost use Rattle.std.specs.Prelude.{◌≡◌};
ghost use Rattle.registers.specs.Reading.{list_of};
ghost use Rattle.beginning.specs.Start.{Starts, StartsIn, StartsListed, not_begun};
ghost use Rattle.checker.specs.Check.{lent};

use changes::Run;
use checker::{Checked, check_in, refusal};
use cost::cost_of;
use event::{EVENT_LIMIT, Entry, PLACES, Word};
use memory::listed::Listed;
use tag::fill;

// What comes of a beginning: the check's result, the run, which has begun if the matching is accepted, and how many steps it has to its end.
#[derive(Clone, Copy)]
pub struct Started {
    pub checked: Checked,
    pub run: Run,
    pub cost: usize,
}

// What comes of a beginning where no run begins.
fn not_begun(checked: Checked) -> Started
    ensures { result ≡ not_begun checked }
{
    Started {
        checked,
        run: Run {
            begun: false,
            standing: 0,
        },
        cost: 0,
    }
}

// A check under a list of registers; if it accepts, a run begins, with the source's events, and its steps are counted. A refused matching has its answer and no run.
pub fn start_in(
    listed: &Listed,
    source: &[u8],
    target: &[u8],
    matching: &[u8],
    source_room: &mut [Word],
    target_room: &mut [Word],
    entry_room: &mut [Entry],
    tags: &mut [usize; EVENT_LIMIT],
) -> Started
    ensures { StartsIn listed.now
        (lent source.now target.now matching.now
        source_room.old target_room.old entry_room.old) tags.old
        result source_room.new target_room.new entry_room.new tags.new }
{
    let checked = check_in(
        listed,
        source,
        target,
        matching,
        source_room,
        target_room,
        entry_room,
    );
    if checked.answer.number != 0 {
        return not_begun(checked);
    }
    let standing = checked.source.events;
    fill(&mut tags[..], standing);
    let cost = cost_of(&entry_room[..checked.entries], checked.target.events);
    Started {
        checked,
        run: Run {
            begun: true,
            standing,
        },
        cost,
    }
}

// The same without a list: none is listed.
pub fn start(
    source: &[u8],
    target: &[u8],
    matching: &[u8],
    source_room: &mut [Word],
    target_room: &mut [Word],
    entry_room: &mut [Entry],
    tags: &mut [usize; EVENT_LIMIT],
) -> Started
    ensures { Starts
        (lent source.now target.now matching.now
        source_room.old target_room.old entry_room.old) tags.old
        result source_room.new target_room.new entry_room.new tags.new }
{
    start_in(
        &[false; PLACES],
        source,
        target,
        matching,
        source_room,
        target_room,
        entry_room,
        tags,
    )
}

// With the text of a list and a group of it: the list's answer comes first.
pub fn start_listed(
    list: &[u8],
    group: Word,
    source: &[u8],
    target: &[u8],
    matching: &[u8],
    source_room: &mut [Word],
    target_room: &mut [Word],
    entry_room: &mut [Entry],
    tags: &mut [usize; EVENT_LIMIT],
) -> Started
    ensures { StartsListed (list_of group list.now)
        (lent source.now target.now matching.now
        source_room.old target_room.old entry_room.old) tags.old
        result source_room.new target_room.new entry_room.new tags.new }
{
    match registers::read(list, group) {
        Ok(listed) => start_in(
            &listed,
            source,
            target,
            matching,
            source_room,
            target_room,
            entry_room,
            tags,
        ),
        Err(found) => not_begun(refusal(found)),
    }
}
