// How what the library hands back lies in the arrays of numbers that C and Rust lend: answers and counts, forms, marks, runs and steps; and back.
// Functions, and no impls of From: no type here is this crate's own, which From asks for, and the pages name the functions.
#![tactic(auto)]

ghost use Rattle.std.specs.Prelude.{◌≡◌};
ghost use Rattle.numbers.specs.Numbers.{
  answer_numbers,
  checked_numbers,
  count_numbers,
  flag,
  form_number,
  form_numbered,
  listing,
  marks,
  run_numbered,
  run_numbers,
  started_numbers,
  step_numbered,
  step_numbers,
};

use changes::{Run, Step};
use event::{Answer, Number, PLACES, number_index};
use memory::listed::Listed;
use record::form::Form;

// An answer: number, side and place.
pub fn answer_numbers(answer: Answer) -> [usize; 3]
    ensures { result ≡ answer_numbers answer }
{
    [
        number_index(answer.number),
        number_index(answer.side),
        answer.place,
    ]
}

// An answer, then how many events or entries were read.
pub fn count_numbers(answer: Answer, count: usize) -> [usize; 4]
    ensures { result ≡ count_numbers answer count }
{
    [
        number_index(answer.number),
        number_index(answer.side),
        answer.place,
        count,
    ]
}

// An answer, then the events of the source, those of the target, and the entries.
pub fn checked_numbers(
    answer: Answer,
    source_events: usize,
    target_events: usize,
    entries: usize,
) -> [usize; 6]
    ensures { result ≡ checked_numbers answer source_events target_events entries }
{
    [
        number_index(answer.number),
        number_index(answer.side),
        answer.place,
        source_events,
        target_events,
        entries,
    ]
}

// The same, then how many steps there are.
pub fn started_numbers(
    answer: Answer,
    source_events: usize,
    target_events: usize,
    entries: usize,
    steps: usize,
) -> [usize; 7]
    ensures { result ≡ started_numbers answer source_events target_events entries steps }
{
    [
        number_index(answer.number),
        number_index(answer.side),
        answer.place,
        source_events,
        target_events,
        entries,
        steps,
    ]
}

// 1 for yes, 0 for no.
pub fn flag_of(b: bool) -> usize
    ensures { result ≡ flag b }
{
    usize::from(b)
}

// A run: whether it has begun, and how many events stand.
pub fn run_numbers(run: Run) -> [usize; 2]
    ensures { result ≡ run_numbers run }
{
    [flag_of(run.begun), run.standing]
}

// The run of two numbers, any but 0 for yes.
pub fn run_numbered(begun: usize, standing: usize) -> Run
    ensures { result ≡ run_numbered begun standing }
{
    Run {
        begun: begun != 0,
        standing,
    }
}

// A step: its kind, its place, and of a removal the source number.
pub fn step_numbers(step: Step) -> [usize; 3]
    ensures { result ≡ step_numbers step }
{
    match step {
        Step::Remove { place, number } => [1, place, number],
        Step::Swap { place } => [2, place, 0],
        Step::Insert { place } => [3, place, 0],
        Step::Done => [0, 0, 0],
        Step::Stuck => [4, 0, 0],
    }
}

// The step of three numbers.
pub fn step_numbered(kind: usize, place: usize, number: usize) -> Step
    ensures { result ≡ step_numbered kind place number }
{
    match kind {
        1 => Step::Remove { place, number },
        2 => Step::Swap { place },
        3 => Step::Insert { place },
        4 => Step::Stuck,
        _ => Step::Done,
    }
}

// The number of a form.
pub fn form_number(form: Form) -> Number
    ensures { result ≡ form_number form }
{
    match form {
        Form::One => 1,
        Form::Two => 2,
    }
}

// The form that a number names.
pub fn form_numbered(n: Number) -> Form
    ensures { result ≡ form_numbered n }
{
    match n {
        2 => Form::Two,
        _ => Form::One,
    }
}

// A number for each mark, 1 if it is set, else 0.
pub fn marks_of(listed: Listed) -> [u8; PLACES]
    ensures { result ≡ marks listed }
{
    let mut numbers = [0; PLACES];
    for (i, mark) in listed.iter().enumerate() {
        numbers[i] = u8::from(*mark);
    }
    numbers
}

// A mark for each number, set unless it is 0.
pub fn listed_of(numbers: [u8; PLACES]) -> Listed
    ensures { result ≡ listing numbers }
{
    // A loop: `map` waits in an iterator of its own, which each call of a run with a list would pay for.
    let mut listed = [false; PLACES];
    for (i, number) in numbers.iter().enumerate() {
        listed[i] = *number != 0;
    }
    listed
}
