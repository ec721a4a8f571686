// Answers 10 to 14: the source events with the fates that their entries name.
ghost use Rattle.std.specs.Prelude.{◌≡◌, false, cond, [], ◌≤◌, length, None, Some};
ghost use Rattle.event.specs.Room.{Placed, whole_events, capacity};
ghost use Rattle.rules.specs.View.{view_in};
ghost use Rattle.rules.specs.Fault.{fate, is, is_gone, unlike};
ghost use Rattle.event.specs.Told.{Passes};
ghost use Rattle.rules.specs.Verdict.{source_answer};
ghost use Rattle.fates.specs.Pass.{Flagged, closing_after, crossed_by, fault_of, source_fault_by, gone_fault, keep_fault_by, removal_fault_by, takes_over, top_after, witnessed};
ghost use Rattle.event.specs.Limit.{event_limit};

use event::room::get;
use event::{Answer, EVENT_LIMIT, Entry, Event, Number, PLACES, Word, index_of, number_index};
use kinds::USED;
use memory::listed::Listed;
use sight::{is_gone, is_load_in, is_same, is_wall_in};

// Whether a store before a plain event is closing, by whether one after the event is.
fn closing_after(load: bool, entry: Entry, closing: bool) -> bool
    ensures { result ≡ closing_after load entry closing }
{
    load && (!is_gone(entry) || closing)
}

// For each source event, whether a store to its location there is closing.
fn closing_flags(listed: &Listed, source: &[Word], entries: &[Entry]) -> [bool; EVENT_LIMIT]
    requires source_bound { capacity source.now ≤ event_limit }
    requires placed { Placed source.now }
    requires entries_len { length entries.now ≡ capacity source.now }
    ensures { Flagged listed.now result source.now entries.now }
{
    let mut closing: [bool; PLACES] = [true; PLACES];
    let mut flags: [bool; EVENT_LIMIT] = [false; EVENT_LIMIT];
    for i in (0..entries.len()).rev() {
        let e = get(source, i);
        let place = index_of(e.place);
        let was = closing[place];
        flags[i] = was;
        if is_wall_in(listed, e) {
            closing = [true; PLACES];
            continue;
        }
        closing[place] = closing_after(is_load_in(listed, e), entries[i], was);
    }
    flags
}

// Whether a plain event becomes the witness of its location.
fn takes_over(load: bool, entry: Entry, fresh: bool) -> bool
    ensures { result ≡ takes_over load entry fresh }
{
    !is_gone(entry) || (load && fresh)
}

// The greatest target number so far after an entry.
fn top_after(n: Entry, top: Entry) -> Entry
    ensures { result ≡ top_after n top }
{
    top.max(n)
}

// What the arrays hold of an event's location: no access since the last synchronising event; a store there is closing.
#[derive(Clone, Copy)]
pub struct Cell {
    pub fresh: bool,
    pub closing: bool,
}

// A location's witness: its value, if there is one.
pub type Witness = Option<Word>;

// The greatest target numbers so far: of all kept events, of the synchronising ones, and of those at the event's location.
#[derive(Clone, Copy)]
pub struct Tops {
    pub all: Entry,
    pub walls: Entry,
    pub here: Entry,
}

// 13 or 14 of a gone event, if it shows one.
fn gone_fault(listed: &Listed, e: Event, cell: Cell, witness: Witness) -> Option<Number>
    ensures { result ≡ fault_of (gone_fault (view_in listed.now e) cell (witnessed witness)) }
{
    if is_wall_in(listed, e) {
        return None;
    }
    if is_load_in(listed, e) {
        return (e.order == USED && cell.fresh).then_some(13);
    }
    (cell.closing && witness != Some(e.first)).then_some(14)
}

// 13 or 14 of a source event, if it shows one.
fn removal_fault(
    listed: &Listed,
    e: Event,
    n: Entry,
    cell: Cell,
    witness: Witness,
) -> Option<Number>
    ensures { result ≡ fault_of (removal_fault_by (view_in listed.now e) n cell (witnessed witness)) }
{
    if !is_gone(n) {
        return None;
    }
    gone_fault(listed, e, cell, witness)
}

// 10: whether a kept event differs from its target event.
fn differs(target: &[Word], e: Event, n: Entry) -> bool
    requires { is_gone n ≡ false }
    ensures { result ≡ unlike (whole_events target.now) e (fate n) }
{
    !is_same(e, get(target, number_index(n) - 1))
}

// 12: whether an earlier kept event that may not change places with this one has the greater number.
fn is_crossed(listed: &Listed, e: Event, n: Entry, tops: Tops) -> bool
    ensures { result ≡ crossed_by (view_in listed.now e) n tops }
{
    if is_wall_in(listed, e) {
        return n < tops.all;
    }
    n < tops.walls || n < tops.here
}

// 10 to 12 of a source event, if it shows one.
fn keep_fault(listed: &Listed, target: &[Word], e: Event, n: Entry, tops: Tops) -> Option<Number>
    ensures { result ≡ fault_of (keep_fault_by (whole_events target.now) e (view_in listed.now e) n tops) }
{
    if is_gone(n) {
        return is_wall_in(listed, e).then_some(11);
    }
    if differs(target, e, n) {
        return Some(10);
    }
    is_crossed(listed, e, n, tops).then_some(12)
}

// 10 to 14 of a source event, if it shows one.
fn event_fault(
    listed: &Listed,
    target: &[Word],
    e: Event,
    n: Entry,
    cell: Cell,
    witness: Witness,
    tops: Tops,
) -> Option<Number>
    ensures { result ≡ fault_of (source_fault_by (whole_events target.now) e (view_in listed.now e) n cell (witnessed witness) tops) }
{
    keep_fault(listed, target, e, n, tops).or(removal_fault(listed, e, n, cell, witness))
}

// The witness of a location, of which the array says what it was at the last access: none where no access came since a synchronising event.
fn witness_here(fresh: bool, last: Witness) -> Witness
    ensures { result ≡ cond fresh None last }
{
    if fresh {
        return None;
    }
    last
}

// The witness of a location after a plain event there, which takes over or does not.
fn witness_after(over: bool, value: Word, witness: Witness) -> Witness
    ensures { result ≡ cond over (Some value) witness }
{
    if over {
        return Some(value);
    }
    witness
}

// The source events upward.
fn source_pass(
    listed: &Listed,
    source: &[Word],
    target: &[Word],
    entries: &[Entry],
    flags: &[bool; EVENT_LIMIT],
) -> Result<(), Answer>
    requires source_bound { capacity source.now ≤ event_limit }
    requires placed { Placed source.now }
    requires entries_len { length entries.now ≡ capacity source.now }
    requires flagged { Flagged listed.now flags.now source.now entries.now }
    ensures { Passes (source_answer (view_in listed.now)
        (whole_events target.now) 1 [] (whole_events source.now) entries.now) result }
{
    // Arrays apart: a synchronising event begins `fresh` anew in one store, where the cells of an array of structs would take a loop, which is no plainer.
    let mut fresh: [bool; PLACES] = [true; PLACES];
    let mut witnesses: [Witness; PLACES] = [None; PLACES];
    let mut here: [Entry; PLACES] = [0; PLACES];
    let mut all: Entry = 0;
    let mut walls: Entry = 0;
    for (i, &n) in entries.iter().enumerate() {
        let e = get(source, i);
        let at = index_of(e.place);
        let first = fresh[at];
        let witness = witness_here(first, witnesses[at]);
        let cell = Cell {
            fresh: first,
            closing: flags[i],
        };
        let tops = Tops {
            all,
            walls,
            here: here[at],
        };
        if let Some(fault) = event_fault(listed, target, e, n, cell, witness, tops) {
            return Err(Answer::new(fault, 1, i + 1));
        }
        all = top_after(n, all);
        if is_wall_in(listed, e) {
            walls = top_after(n, walls);
            fresh = [true; PLACES];
            continue;
        }
        let over = takes_over(is_load_in(listed, e), n, first);
        fresh[at] = false;
        witnesses[at] = witness_after(over, e.first, witness);
        here[at] = top_after(n, here[at]);
    }
    Ok(())
}

// The four parts travel together through these three functions alone, and the contract that docs/CONTRACTS.md names holds them apart: no struct is plainer.
pub fn source_answer(
    listed: &Listed,
    source: &[Word],
    target: &[Word],
    entries: &[Entry],
) -> Result<(), Answer>
    requires source_bound { capacity source.now ≤ event_limit }
    requires placed { Placed source.now }
    requires entries_len { length entries.now ≡ capacity source.now }
    ensures { Passes (source_answer (view_in listed.now)
        (whole_events target.now) 1 [] (whole_events source.now) entries.now) result }
{
    let flags = closing_flags(listed, source, entries);
    source_pass(listed, source, target, entries, &flags)
}
