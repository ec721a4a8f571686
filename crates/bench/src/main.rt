// Checks the files of the examples as the program does, then runs every vector of every file of vectors and prints which differ.
#![tactic(auto)]

mod back;
mod call;
mod check;
mod lists;
mod moves;
mod runs;
mod shorts;
mod tell;
mod vector;
mod writes;
mod written;

ghost use Rattle.std.specs.Prelude.{◌≡◌, length};

use check::run_check;
use event::{Word, number_index};
use files::filled::Filled;
use files::list::{NO_LIST, list_of};
use files::program::{Wanted, judge_files};
use files::read::read_text;
use lists::run_list;
use moves::run_move;
use runs::run_steps;
use shorts::run_short;
use std::fmt::Write;
use std::rt::Files;
use tell::Ran;
use vector::{CheckVector, Parts, TextVector};
use writes::run_write;

// The answers that the vectors have are 0 to 22.
const ANSWERS: usize = 23;

// The most bytes of a file of vectors.
const VECTORS: usize = 2400000;

// The examples, and the group of the list of registers of those that have one.
const EXAMPLES: [(&str, Option<Word>); 10] = [
    ("lock", None),
    ("task", None),
    ("code", None),
    ("count", None),
    ("start", None),
    ("claim", None),
    ("shelf", None),
    ("sensor", Some(1)),
    ("poll", Some(1)),
    ("gateway", Some(2)),
];

// How many vectors were run, how many differ, and how many texts came back as they were or steps were followed.
#[derive(Clone, Copy)]
struct Totals {
    vectors: usize,
    differing: usize,
    back: usize,
}

// The name of a file of an example.
fn file_of(example: &str, part: &str) -> Filled<64> {
    let mut name = Filled::new();
    let _ = write!(name, "examples/{example}/{part}");
    name
}

// An example, as the program checks it.
fn print_example(rt: &(impl Files + Print), example: &str, group: Option<Word>) {
    let list = match group {
        Some(group) => list_of(rt, file_of(example, "list").as_slice(), group),
        None => Ok(NO_LIST),
    };
    let source = file_of(example, "source");
    let target = file_of(example, "target");
    let matching = file_of(example, "matching");
    judge_files(
        rt,
        Wanted::Answer,
        list,
        [source.as_slice(), target.as_slice(), matching.as_slice()],
    );
}

// The totals after one vector more.
fn after(totals: Totals, ran: Ran) -> Totals {
    Totals {
        vectors: totals.vectors.saturating_add(1),
        differing: totals.differing.saturating_add(usize::from(!ran.right)),
        back: totals.back.saturating_add(ran.back),
    }
}

// All vectors of the data, one after the other, each with its ordinal.
fn run_all<F: Fn(&mut Parts<'_>, usize) -> Ran>(
    data: &[u8],
    counts: &mut [usize; ANSWERS],
    run: F,
) -> Totals
    requires { F.IsAlwaysCallable run }
{
    let mut totals = Totals {
        vectors: 0,
        differing: 0,
        back: 0,
    };
    let mut parts = Parts::new(data);
    // A `for` would need the vectors before they are read, and each kind reads its own: an iterator for every kind is no plainer.
    while parts.len() != 0 {
        let left = parts.len();
        let ran = run(&mut parts, totals.vectors.saturating_add(1));
        totals = after(totals, ran);
        if let Some(count) = counts.get_mut(number_index(ran.answer.number)) {
            *count = count.saturating_add(1);
        }
        parts.take(1);
        if left <= parts.len() {
            return totals;
        }
    }
    totals
}

// Room for a file of vectors.
#[inline(always)]
fn vectors_buffer() -> [u8; VECTORS]
    ensures { 2400000 ≡ length result }
{
    [0; VECTORS]
}

// Every vector of a file run, and the totals printed, with how many have each answer that any has; `back` says what it is for a text to come back, or that
// steps were followed.
fn run_file<F: Fn(&mut Parts<'_>, usize) -> Ran>(
    rt: &(impl Files + Print),
    name: &str,
    back: &str,
    run: F,
)
    requires { F.IsAlwaysCallable run }
{
    let mut counts: [usize; ANSWERS] = [0; ANSWERS];
    let mut data = Filled::over(vectors_buffer());
    read_text(rt, name.as_bytes(), &mut data);
    let totals = run_all(data.as_slice(), &mut counts, run);
    let Totals {
        vectors,
        differing,
        back: times,
    } = totals;
    let _ = println!(rt; "{name}\t{vectors}\ndiffering\t{differing}\n{back}\t{times}");
    for (number, times) in counts.iter().enumerate() {
        if *times != 0 {
            let _ = println!(rt; "answer\t{number}\t{times}");
        }
    }
}

// A file of each kind; its lists are for a group, and there are none without one.
fn run_checks(rt: &(impl Files + Print), name: &str, group: Option<Word>) {
    run_file(rt, name, "written back", |parts, ordinal| {
        run_check(rt, ordinal, CheckVector::read(parts, group))
    });
}

fn run_moves(rt: &(impl Files + Print), name: &str, group: Option<Word>) {
    run_file(rt, name, "moved back", |parts, ordinal| {
        run_move(rt, ordinal, TextVector::read(parts, group))
    });
}

fn run_writes(rt: &(impl Files + Print), name: &str, group: Option<Word>) {
    run_file(rt, name, "written back", |parts, ordinal| {
        run_write(rt, ordinal, TextVector::read(parts, group))
    });
}

fn run_runs(rt: &(impl Files + Print), name: &str, group: Option<Word>) {
    run_file(rt, name, "steps", |parts, ordinal| {
        run_steps(rt, ordinal, CheckVector::read(parts, group))
    });
}

fn run_shorts(rt: &(impl Files + Print), name: &str, group: Option<Word>) {
    run_file(rt, name, "accepted", |parts, ordinal| {
        run_short(rt, ordinal, CheckVector::read(parts, group))
    });
}

// The lists of these are what is read, and none has another.
fn run_lists(rt: &(impl Files + Print), name: &str, group: Word) {
    run_file(rt, name, "listed", |parts, ordinal| {
        run_list(rt, ordinal, TextVector::read(parts, None), group)
    });
}

fn main(rt: HostRuntime) {
    for (example, group) in EXAMPLES {
        print_example(&rt, example, group);
    }
    for name in ["vectors", "forms", "counters", "zeros", "exchanges"] {
        run_checks(&rt, name, None);
    }
    run_moves(&rt, "moves", None);
    run_writes(&rt, "writes", None);
    run_runs(&rt, "runs", None);
    run_checks(&rt, "lists", Some(1));
    run_lists(&rt, "list_texts", 1);
    run_moves(&rt, "list_moves", Some(1));
    run_writes(&rt, "list_writes", Some(1));
    run_runs(&rt, "list_runs", Some(1));
    run_shorts(&rt, "shorts", None);
    run_shorts(&rt, "list_shorts", Some(1));
    run_checks(&rt, "groups", Some(2));
    run_lists(&rt, "group_texts", 2);
    run_moves(&rt, "group_moves", Some(2));
    run_writes(&rt, "group_writes", Some(2));
    run_runs(&rt, "group_runs", Some(2));
    run_shorts(&rt, "group_shorts", Some(2));
}
