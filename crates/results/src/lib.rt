// What the library hands back, laid into the arrays that C and Rust lend: one function for each kind of result, with a list or without.
#![tactic(auto)]

ghost use Rattle.std.specs.Prelude.{◌≡◌};
ghost use Rattle.numbers.specs.Numbers.{answer_numbers, count_numbers, flag, run_numbers};
ghost use Rattle.results.specs.Results.{check_numbers, matching_of, short_numbers, short_of, start_numbers, trace_of, written_told};

use beginning::Started;
use changes::Applied;
use checker::Checked;
use checker::line::Span;
use event::{Answer, PLACES, Word, number_index};
use memory::Memory;
use numbers::{
    answer_numbers, checked_numbers, count_numbers, flag_of, run_numbers, started_numbers,
};
use shorten::Shortened;
use trace::reading::Held;

// A trace read, in one piece: its answer, and beside one that refuses no event and a memory of zeros. C and Rust are handed all of it.
#[derive(Clone, Copy)]
pub struct TraceRead {
    pub answer: Answer,
    pub events: usize,
    pub memory: Memory,
}

impl From<Result<Held, Answer>> for TraceRead {
    ghost use Rattle.std.specs.Prelude.{◌≡◌};
    ghost use Rattle.results.specs.Results.{trace_of};

    ghost from_gives = { λ read r. r ≡ trace_of read };

    fn from(read: Result<Held, Answer>) -> TraceRead {
        match read {
            Ok(held) => TraceRead {
                answer: Answer::new(0, 0, 0),
                events: held.events,
                memory: held.memory,
            },
            Err(answer) => TraceRead {
                answer,
                events: 0,
                memory: Memory::empty(),
            },
        }
    }
}

// Its numbers, and its starting memory.
pub fn lay_trace(read: TraceRead, memory: &mut [Word; PLACES], res: &mut [usize; 4])
    ensures res_after { res.new ≡ count_numbers read.answer read.events }
    ensures memory_after { memory.new ≡ read.memory.cells }
{
    let cells = read.memory.cells;
    *memory = cells;
    *res = count_numbers(read.answer, read.events);
}

// A matching read, in one piece: its answer, and beside one that refuses no entry.
#[derive(Clone, Copy)]
pub struct MatchingRead {
    pub answer: Answer,
    pub entries: usize,
}

impl From<Result<usize, Answer>> for MatchingRead {
    ghost use Rattle.std.specs.Prelude.{◌≡◌};
    ghost use Rattle.results.specs.Results.{matching_of};

    ghost from_gives = { λ read r. r ≡ matching_of read };

    fn from(read: Result<usize, Answer>) -> MatchingRead {
        match read {
            Ok(entries) => MatchingRead {
                answer: Answer::new(0, 0, 0),
                entries,
            },
            Err(answer) => MatchingRead { answer, entries: 0 },
        }
    }
}

// Its numbers.
pub fn matching_numbers(read: MatchingRead) -> [usize; 4]
    ensures { result ≡ count_numbers read.answer read.entries }
{
    count_numbers(read.answer, read.entries)
}

// A text written or moved: its answer's numbers, of which the place is how many bytes it has.
pub fn written_numbers(written: Result<usize, Answer>) -> [usize; 3]
    ensures { result ≡ answer_numbers (written_told written) }
{
    answer_numbers(Answer::of_bytes(written))
}

// A check: its numbers, and both starting memories.
pub fn lay_check(
    checked: Checked,
    source_memory: &mut [Word; PLACES],
    target_memory: &mut [Word; PLACES],
    res: &mut [usize; 6],
)
    ensures res_after { res.new ≡ check_numbers checked }
    ensures source_memory_after { source_memory.new ≡ checked.source.memory.cells }
    ensures target_memory_after { target_memory.new ≡ checked.target.memory.cells }
{
    let source_cells = checked.source.memory.cells;
    let target_cells = checked.target.memory.cells;
    *source_memory = source_cells;
    *target_memory = target_cells;
    *res = checked_numbers(
        checked.answer,
        checked.source.events,
        checked.target.events,
        checked.entries,
    );
}

// A beginning: its numbers, and those of its run.
pub fn lay_start(started: Started, run: &mut [usize; 2], res: &mut [usize; 7])
    ensures res_after { res.new ≡ start_numbers started }
    ensures run_after { run.new ≡ run_numbers started.run }
{
    *run = run_numbers(started.run);
    *res = started_numbers(
        started.checked.answer,
        started.checked.source.events,
        started.checked.target.events,
        started.checked.entries,
        started.cost,
    );
}

// A step: the numbers of the run after it; what comes back is whether it was allowed.
pub fn lay_applied(applied: Applied, run: &mut [usize; 2]) -> usize
    ensures value { result ≡ flag applied.allowed }
    ensures run_after { run.new ≡ run_numbers applied.run }
{
    *run = run_numbers(applied.run);
    flag_of(applied.allowed)
}

// A part of a text: its start and its end.
pub fn lay_span(part: Span, from: &mut usize, to: &mut usize)
    ensures from_after { from.new ≡ part.from }
    ensures to_after { to.new ≡ part.to }
{
    *from = part.from;
    *to = part.to;
}

// A shortening, in one piece: its answer, and beside one that refuses no byte of either text.
#[derive(Clone, Copy)]
pub struct ShortSaid {
    pub answer: Answer,
    pub bytes: usize,
    pub matching_bytes: usize,
}

impl From<Result<Shortened, Answer>> for ShortSaid {
    ghost use Rattle.std.specs.Prelude.{◌≡◌};
    ghost use Rattle.results.specs.Results.{short_of};

    ghost from_gives = { λ made r. r ≡ short_of made };

    fn from(made: Result<Shortened, Answer>) -> ShortSaid {
        match made {
            Ok(short) => ShortSaid {
                answer: Answer::new(0, 0, 0),
                bytes: short.bytes,
                matching_bytes: short.matching_bytes,
            },
            Err(answer) => ShortSaid {
                answer,
                bytes: 0,
                matching_bytes: 0,
            },
        }
    }
}

// Its numbers: the answer's, then the bytes of the shortened text and those of its matching.
pub fn shortened_numbers(r: ShortSaid) -> [usize; 5]
    ensures { result ≡ short_numbers r.answer r.bytes r.matching_bytes }
{
    [
        number_index(r.answer.number),
        number_index(r.answer.side),
        r.answer.place,
        r.bytes,
        r.matching_bytes,
    ]
}
