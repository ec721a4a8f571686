// The memory of a trace: 256 cells, which take one event at a time; and which of them are registers (`listed`).
#![tactic(auto)]

pub mod listed;

ghost use Rattle.std.specs.Prelude.{◌≡◌, true, if◌then◌else◌, ◌==◌};
ghost use Rattle.kinds.specs.Kind.{bits_of};
ghost use Rattle.memory.specs.Memory.{empty as empty_memory, leaves, stepped, wrap_sum};

use event::{Event, PLACES, Word, index_of};
use kinds::{Sets, Width, is_lawful, row_of};

#[derive(Clone, Copy)]
pub struct Memory {
    pub cells: [Word; PLACES],
}

// The memory after an event, and whether the event's value is the latest.
// No Option of a memory: an event whose value is not the latest has a memory after it too (`stepped`).
#[derive(Clone, Copy)]
pub struct Stepped {
    pub memory: Memory,
    pub right: bool,
}

// The sum of two counters of 64 bits, as C11 atomic addition wraps.
fn sum_64(a: Word, b: Word) -> Word
    ensures { result ≡ wrap_sum 64 a b }
{
    a.wrapping_add(b)
}

// The sum of two of 32 bits is what is left of that.
#[tactic(auto, using(crate::proofs::Wrap::wraps_narrow))]
fn sum_32(a: Word, b: Word) -> Word
    ensures { result ≡ wrap_sum 32 a b }
{
    sum_64(a, b) % 4294967296
}

// The sum of two of a width.
fn sum(width: Width, a: Word, b: Word) -> Word
    ensures { result ≡ wrap_sum (bits_of width) a b }
{
    match width {
        Width::Bits32 => sum_32(a, b),
        Width::Bits64 => sum_64(a, b),
    }
}

// What is left in a cell that held `was`, by two values of a width.
fn left_by(sets: Sets, width: Width, was: Word, first: Word, second: Word) -> Word
    ensures { result ≡ leaves sets width was first second }
{
    match sets {
        Sets::Nothing => was,
        Sets::First => first,
        Sets::Second => second,
        Sets::Sum => sum(width, first, second),
    }
}

// Whether the value that is read, if one is, is that of its cell.
fn is_latest(reads: bool, first: Word, was: Word) -> bool
    ensures { result ≡ (if reads then (first == was) else true) }
{
    !reads || first == was
}

impl Memory {
    pub fn empty() -> Self
        ensures { result ≡ empty_memory }
    {
        Memory { cells: [0; PLACES] }
    }

    #[tactic(auto, using(kinds::proofs::Lawful::place_below), unfolding(crate::specs::Memory::stepped, crate::specs::Memory::latest, crate::specs::Memory::after))]
    #[inline(always)]
    pub fn step(mut self, e: Event) -> Stepped
        ensures { result ≡ stepped self e }
    {
        if !is_lawful(e) {
            return Stepped {
                memory: self,
                right: false,
            };
        }
        let at = index_of(e.place);
        let was = self.cells[at];
        let row = row_of(e.kind);
        let right = is_latest(row.reads, e.first, was);
        let left = left_by(row.sets, row.width, was, e.first, e.second);
        if left == was {
            return Stepped {
                memory: self,
                right,
            };
        }
        self.cells[at] = left;
        Stepped {
            memory: self,
            right,
        }
    }
}
