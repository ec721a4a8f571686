// How the events of a trace use its locations, which decides answer 5, and 20 and 21 (`cover`): a number for each location tells it.
#![tactic(auto)]

pub mod cover;

ghost use Rattle.std.specs.Prelude.{◌≡◌, ◌<◌};
ghost use Rattle.event.specs.Limit.{places};
ghost use Rattle.uses.specs.Way.{way_of, opposed, joined, clashing, clashing_in, ways_after, ways_with};

use event::{Event, PLACES, Word, index_of};
use kinds::{LAST_PLACE, Place, row_of};
use memory::listed::{Listed, is_listed};

// How a location is used: not at all, by plain events, by atomic ones. A number and no enum: `use_listed`, `touch`, `cover::idle_fault` and the writer's
// `put_start`, which docs/CONTRACTS.md names, promise an answer of any byte.
pub type Way = u8;

// The way of each location.
pub type Ways = [Way; PLACES];

pub const UNTOUCHED: Way = 0;

const PLAIN: Way = 1;

const ATOMIC: Way = 2;

// The way in which an event of a kind uses its location.
#[tactic(auto, unfolding(crate::specs::Way::way_of))]
pub(crate) fn way_of(kind: Word) -> Way
    ensures { result ≡ way_of kind }
{
    let row = row_of(kind);
    match row.place {
        Place::Location if row.sync => ATOMIC,
        Place::Location => PLAIN,
        Place::Mutex | Place::Nowhere => UNTOUCHED,
    }
}

// Whether a location that was used in one way is now used in the other.
#[tactic(auto, unfolding(crate::specs::Way::opposed))]
fn are_opposed(was: Way, way: Way) -> bool
    ensures { result ≡ opposed was way }
{
    (was == PLAIN && way == ATOMIC) || (was == ATOMIC && way == PLAIN)
}

// How a location is used after one event more.
#[tactic(auto, unfolding(crate::specs::Way::joined))]
fn joined_way(was: Way, way: Way) -> Way
    ensures { result ≡ joined was way }
{
    if way == UNTOUCHED { was } else { way }
}

// Whether an event clashes with an earlier one, by how its location was used so far; the ways are those after it.
fn use_place(ways: &mut Ways, e: Event) -> bool
    requires { e.place < places }
    ensures { (result ≡ clashing ways.old e) × (ways.new ≡ ways_after ways.old e) }
{
    let place = index_of(e.place);
    let way = way_of(e.kind);
    let was = ways[place];
    ways[place] = joined_way(was, way);
    are_opposed(was, way)
}

// The same under a list, of which an atomic use clashes by itself. What is at no location neither clashes nor changes the ways.
#[tactic(auto, using(crate::proofs::Ways::way_atomic, crate::proofs::Ways::clash_inside, crate::proofs::Ways::with_inside))]
pub fn use_listed(listed: &Listed, ways: &mut Ways, e: Event) -> bool
    ensures { (result ≡ clashing_in listed.now ways.old e) × (ways.new ≡ ways_with ways.old e) }
{
    if LAST_PLACE < e.place {
        return false;
    }
    let clash = use_place(ways, e);
    clash || (is_listed(listed, e.place) && way_of(e.kind) == ATOMIC)
}

// The ways after one event more.
pub fn touch(ways: &mut Ways, e: Event)
    ensures { ways.new ≡ ways_with ways.old e }
{
    if e.place <= LAST_PLACE {
        use_place(ways, e);
    }
}
