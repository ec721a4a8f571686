// The fixed table: a kind's number decides all that a kind is, its orders, its place, its values and how wide they are, whether it reads, what
// it sets and whether it synchronises.
#![tactic(auto)]

ghost use Rattle.std.specs.Prelude.{◌≡◌};
ghost use Rattle.laws.specs.Has.{has};
ghost use Rattle.kinds.specs.Kind.{access_row, barrier_row, no_kind, row, takes, fits_place, fits_values, last_of, in_range, made, lawful, is_marks, is_load_kind, plain};

use event::{Event, Word};

// The lists of orders that document 01 names.
#[derive(Clone, Copy, PartialEq, Eq)]
pub enum Orders {
    // none at all
    Bare,
    // `used` `unused`
    Marks,
    // `rlx` `acq` `sc`
    Reads,
    // `rlx` `rel` `sc`
    Writes,
    // `rlx` `acq` `rel` `ar` `sc`
    Updates,
    // `acq` `rel` `ar` `sc`
    Fences,
    // there is no such kind
    NoKind,
}

// What `place` of an event is.
#[derive(Clone, Copy, PartialEq, Eq)]
pub enum Place {
    Location,
    Mutex,
    Nowhere,
}

// How wide a value is.
#[derive(Clone, Copy)]
pub enum Width {
    Bits32,
    Bits64,
}

// What an event sets its cell to.
#[derive(Clone, Copy)]
pub enum Sets {
    Nothing,
    First,
    Second,
    // the sum of both values
    Sum,
}

// A row of the table.
#[derive(Clone, Copy)]
pub struct Row {
    pub orders: Orders,
    pub place: Place,
    pub values: Word,
    pub width: Width,
    pub reads: bool,
    pub sets: Sets,
    pub sync: bool,
}

// A kind that accesses a location.
fn access(orders: Orders, values: Word, width: Width, reads: bool, sets: Sets, sync: bool) -> Row
    ensures { result ≡ access_row orders values width reads sets sync }
{
    Row {
        orders,
        place: Place::Location,
        values,
        width,
        reads,
        sets,
        sync,
    }
}

// A kind that accesses none, and synchronises.
fn barrier(orders: Orders, place: Place) -> Row
    ensures { result ≡ barrier_row orders place }
{
    Row {
        orders,
        place,
        values: 0,
        width: Width::Bits64,
        reads: false,
        sets: Sets::Nothing,
        sync: true,
    }
}

fn no_kind() -> Row
    ensures { result ≡ no_kind }
{
    Row {
        orders: Orders::NoKind,
        place: Place::Nowhere,
        values: 0,
        width: Width::Bits64,
        reads: false,
        sets: Sets::Nothing,
        sync: false,
    }
}

// The table, a kind to a line.
#[tactic(auto, unfolding(crate::specs::Kind::row))]
pub fn row_of(kind: Word) -> Row
    ensures { result ≡ row kind }
{
    match kind {
        1 => access(Orders::Marks, 1, Width::Bits64, true, Sets::Nothing, false),
        2 => access(Orders::Bare, 1, Width::Bits64, false, Sets::First, false),
        3 => access(Orders::Reads, 1, Width::Bits64, true, Sets::Nothing, true),
        4 => access(Orders::Writes, 1, Width::Bits64, false, Sets::First, true),
        5 => access(Orders::Updates, 2, Width::Bits64, true, Sets::Second, true),
        6 => access(Orders::Updates, 2, Width::Bits32, true, Sets::Sum, true),
        7 => barrier(Orders::Fences, Place::Nowhere),
        8 | 9 => barrier(Orders::Bare, Place::Mutex),
        10 => access(Orders::Updates, 2, Width::Bits64, true, Sets::Sum, true),
        11 => access(Orders::Reads, 1, Width::Bits64, true, Sets::Nothing, true),
        _ => no_kind(),
    }
}

// The orders' numbers; 0 is no order. A load's mark stands in their place. Numbers and no enum: rooms and C's arrays hold them (the C interface).
const RLX: Word = 1;

const ACQ: Word = 2;

const REL: Word = 3;

const AR: Word = 4;

const SC: Word = 5;

pub const USED: Word = 6;

const UNUSED: Word = 7;

// The greatest location or mutex.
pub const LAST_PLACE: Word = 255;

// The greatest value of all.
pub const LAST_VALUE: Word = 18446744073709551615;

// The greatest code line.
pub const LAST_CODE: Word = 65535;

// Whether a number is in a list.
pub fn is_in(n: Word, list: &[Word]) -> bool
    ensures { result ≡ has n list.now }
{
    list.contains(&n)
}

// Whether an order's number is in a list of orders.
#[tactic(auto, unfolding(crate::specs::Kind::takes))]
fn takes_order(orders: Orders, order: Word) -> bool
    ensures { result ≡ takes orders order }
{
    match orders {
        Orders::Bare => order == 0,
        Orders::Marks => is_in(order, &[USED, UNUSED]),
        Orders::Reads => is_in(order, &[RLX, ACQ, SC]),
        Orders::Writes => is_in(order, &[RLX, REL, SC]),
        Orders::Updates => is_in(order, &[RLX, ACQ, REL, AR, SC]),
        Orders::Fences => is_in(order, &[ACQ, REL, AR, SC]),
        Orders::NoKind => false,
    }
}

fn fits_place(place: Place, at: Word) -> bool
    ensures { result ≡ fits_place place at }
{
    match place {
        Place::Location | Place::Mutex => at <= LAST_PLACE,
        Place::Nowhere => at == 0,
    }
}

// Whether the values that a kind lacks are 0.
fn fits_values(values: Word, first: Word, second: Word) -> bool
    ensures { result ≡ fits_values values first second }
{
    match values {
        0 => first == 0 && second == 0,
        1 => second == 0,
        _ => true,
    }
}

// The greatest value of a width.
fn last_of(width: Width) -> Word
    ensures { result ≡ last_of width }
{
    match width {
        Width::Bits32 => 4294967295,
        Width::Bits64 => LAST_VALUE,
    }
}

// Whether both values are of a width.
fn are_in_range(width: Width, first: Word, second: Word) -> bool
    ensures { result ≡ in_range width first second }
{
    let last = last_of(width);
    first <= last && second <= last
}

// Whether a place, an order, values and a code line are those of a kind.
#[tactic(auto, unfolding(crate::specs::Kind::lawful))]
pub fn suits(kind: Word, place: Word, order: Word, first: Word, second: Word, code: Word) -> bool
    ensures { result ≡ lawful (made kind place order first second code) }
{
    let row = row_of(kind);
    takes_order(row.orders, order)
        && fits_place(row.place, place)
        && fits_values(row.values, first, second)
        && are_in_range(row.width, first, second)
        && code <= LAST_CODE
}

// Whether these are marks, not orders.
pub fn is_marks(orders: Orders) -> bool
    ensures { result ≡ is_marks orders }
{
    orders == Orders::Marks
}

// Whether a kind is that of loads.
pub fn is_load_kind(kind: Word) -> bool
    ensures { result ≡ is_load_kind kind }
{
    is_marks(row_of(kind).orders)
}

// Whether an event is a `load` or a `store`.
pub fn is_plain(e: Event) -> bool
    ensures { result ≡ plain e }
{
    let row = row_of(e.kind);
    row.place == Place::Location && !row.sync
}

// Whether an event is of the layout.
pub fn is_lawful(e: Event) -> bool
    ensures { result ≡ lawful e }
{
    suits(e.kind, e.place, e.order, e.first, e.second, e.code)
}
