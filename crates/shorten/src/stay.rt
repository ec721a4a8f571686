// Which events of a text stay, in one walk: a flag for each event so far, as if the text ended there. A later store to its location takes a store's flag
// away again.
ghost use Rattle.std.specs.Prelude.{◌≡◌, ◌≤◌, length, take};
ghost use Rattle.trace.specs.Reading.{events_of};
ghost use Rattle.event.specs.Limit.{event_limit};
ghost use Rattle.rules.specs.View.{view_in};
ghost use Rattle.shelf.specs.Short.{marks};
ghost use Rattle.shorten.specs.Stay.{stays_at, begun_after, value_after, last_after, overwrites, unflagged};

use event::{EVENT_LIMIT, PLACES, Word, index_of};
use kinds::USED;
use memory::listed::Listed;
use sight::{is_load_in, is_wall_in};
use text::line::line_two;
use trace::ahead::{Found, next_event};
use trace::form::form_of;

// How the accesses to a location begin, between synchronising events: there is none yet, or the first is a load or a store.
#[derive(Clone, Copy, PartialEq, Eq)]
pub enum Begun {
    Not,
    ByLoad,
    ByStore,
}

// Whether a plain event stays, as if no store came after it, by how the accesses to its location began and with what value.
#[tactic(auto, using(crate::proofs::Walked::same_not, crate::proofs::Walked::same_by_load))]
fn stays_at(load: bool, used: bool, begun: Begun, value: Word, own: Word) -> bool
    ensures { result ≡ stays_at load used begun value own }
{
    if load {
        return used && begun == Begun::Not;
    }
    begun != Begun::ByLoad || value != own
}

// How they begin with one more, and with what value.
fn begun_after(load: bool, begun: Begun) -> Begun
    ensures { result ≡ begun_after load begun }
{
    match begun {
        Begun::Not if load => Begun::ByLoad,
        Begun::Not => Begun::ByStore,
        Begun::ByLoad | Begun::ByStore => begun,
    }
}

fn value_after(begun: Begun, value: Word, own: Word) -> Word
    ensures { result ≡ value_after begun value own }
{
    match begun {
        Begun::Not => own,
        Begun::ByLoad | Begun::ByStore => value,
    }
}

// The number of the last store to a location after an access of number n; 0 for none, as numbers of events count from 1.
fn last_after(load: bool, last: usize, n: usize) -> usize
    ensures { result ≡ last_after load last n }
{
    if load { last } else { n }
}

// The number of the store that an access overwrites; 0 for none.
fn overwritten(load: bool, last: usize) -> usize
    ensures { result ≡ overwrites load last }
{
    if load { 0 } else { last }
}

// The flag of an event, by its number, is taken away; there is none of number 0.
fn unflag(flags: &mut [bool], number: usize)
    ensures { flags.new ≡ unflagged flags.old number }
{
    if number == 0 {
        return;
    }
    let i = number - 1;
    if i < flags.len() {
        flags[i] = false;
    }
}

// A flag for each event of a text: whether it stays.
pub(crate) fn stay_flags(listed: &Listed, text: &[u8]) -> [bool; EVENT_LIMIT]
    requires { length (events_of text.now) ≤ event_limit }
    ensures { take (length (events_of text.now)) result ≡ marks (view_in listed.now) (events_of text.now) }
{
    let form = form_of(text);
    let mut flags: [bool; EVENT_LIMIT] = [false; EVENT_LIMIT];
    let mut begun: [Begun; PLACES] = [Begun::Not; PLACES];
    let mut values: [Word; PLACES] = [0; PLACES];
    let mut last: [usize; PLACES] = [0; PLACES];
    let mut at = line_two(text);
    let mut n: usize = 0;
    while let Some(Found { event, next }) = next_event(form, text, at) {
        at = next;
        if is_wall_in(listed, event) {
            flags[n] = true;
            n += 1;
            begun = [Begun::Not; PLACES];
            last = [0; PLACES];
            continue;
        }
        let load = is_load_in(listed, event);
        let place = index_of(event.place);
        let was = begun[place];
        let value = values[place];
        let store = last[place];
        unflag(&mut flags, overwritten(load, store));
        flags[n] = stays_at(load, event.order == USED, was, value, event.first);
        n += 1;
        begun[place] = begun_after(load, was);
        values[place] = value_after(was, value, event.first);
        last[place] = last_after(load, store, n);
    }
    flags
}
