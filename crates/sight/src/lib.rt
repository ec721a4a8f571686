// What the rules see of an event, and whether its entry says that it is gone.
#![tactic(auto)]

ghost use Rattle.std.specs.Prelude.{◌≡◌, ◌&&◌};
ghost use Rattle.rules.specs.Fault.{is_gone};
ghost use Rattle.rules.specs.View.{view, view_in, same, is_wall, is_load};

use event::{Entry, Event};
use kinds::{is_load_kind, is_plain, row_of};
use memory::listed::{Listed, is_register};

// Whether an entry says that its event is gone.
pub fn is_gone(entry: Entry) -> bool
    ensures { result ≡ is_gone entry }
{
    entry == 0
}

// Both of two tests. docs/CONTRACTS.md names it, so it stands; `&&` says the same.
pub fn both(a: bool, b: bool) -> bool
    ensures { result ≡ (a && b) }
{
    a && b
}

pub fn is_wall(e: Event) -> bool
    ensures { result ≡ is_wall (view e) }
{
    !is_plain(e)
}

pub fn is_load(e: Event) -> bool
    ensures { result ≡ is_load (view e) }
{
    is_plain(e) && row_of(e.kind).reads
}

// The same under a list: a plain access to a listed location is a wall, and no load.
pub fn is_wall_in(listed: &Listed, e: Event) -> bool
    ensures { result ≡ is_wall (view_in listed.now e) }
{
    is_register(listed, e) || is_wall(e)
}

pub fn is_load_in(listed: &Listed, e: Event) -> bool
    ensures { result ≡ is_load (view_in listed.now e) }
{
    !is_register(listed, e) && is_load(e)
}

// Whether two events are the same, the marks of loads and the code lines apart.
pub fn is_same(e: Event, f: Event) -> bool
    ensures { result ≡ same e f }
{
    e.kind == f.kind
        && e.place == f.place
        && e.first == f.first
        && e.second == f.second
        && (is_load_kind(e.kind) || e.order == f.order)
}
