// The locations that a list names: a device's registers, of which a load returns what the device holds.
ghost use Rattle.std.specs.Prelude.{◌≡◌};
ghost use Rattle.memory.specs.Listed.{listed as is_in_list, is_register};

use event::{Event, PLACES, Word, index_of};
use kinds::{LAST_PLACE, is_plain};

// A mark for each location; a call without a list marks none.
pub type Listed = [bool; PLACES];

// Whether a location is listed; a number beyond the last location is not.
pub fn is_listed(listed: &Listed, place: Word) -> bool
    ensures { result ≡ is_in_list listed.now place }
{
    place <= LAST_PLACE && listed[index_of(place)]
}

// Whether an event is a plain access to a listed location. A fence has no location and a lock's mutex is none, whatever number stands there.
pub fn is_register(listed: &Listed, e: Event) -> bool
    ensures { result ≡ is_register listed.now e }
{
    is_plain(e) && is_listed(listed, e.place)
}
