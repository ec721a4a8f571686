// What the program `laprunto_run` prints of three texts under a list of registers: what `laprunto` prints, and of an accepted matching how many steps there
// are and every one of them. The lines of the steps are gathered and written in blocks.
ghost use Rattle.std.specs.Prelude.{◌≡◌, ◌*◌, ◌≤◌, ◌↔◌, IfNone, IfSome, IsTrue, is_some, length, replicate, take};
ghost use Rattle.beginning.specs.Start.{StartsIn};
ghost use Rattle.steps.specs.Play.{swap_place};
ghost use Rattle.files.specs.Lines.{Puts, count_line, event_field, pushed, step_line};
ghost use Rattle.files.specs.Run.{Keeps, lent_zeros, is_allowed, next_step, run_next, source_of, tags_next, target_of};

use crate::check::{ROOM, Texts, print_found};
use crate::filled::Filled;
use crate::print::{front, print};
use beginning::{Started, start_in};
use changes::{Run, Step, apply_listed};
use event::{Answer, EVENT_LIMIT, Entry, WORDS, Word};
use memory::listed::Listed;
use steps::{next_listed, swap_place};
use writer::put::write_event;

// The bytes that a line of a run has room for.
pub const LINE: usize = 64;

// The bytes that are enough for the line of every step, whatever its numbers are.
const LONGEST: usize = 128;

// The bytes of steps that are written at once.
const BLOCK: usize = 65536;

// A tab and the line of the event of a number, with its LF.
fn push_event<const N: usize>(out: &mut Filled<N>, room: &[Word], number: usize)
    ensures { out.new ≡ pushed N out.old (event_field room.now number) }
{
    let mut line: [u8; LINE] = [0; LINE];
    out.push(b"\t");
    if number == 0 {
        return;
    }
    let size = write_event(room, number - 1, &mut line);
    out.push(front(&line, size));
}

// The line of how many steps there are.
pub fn push_count<const N: usize>(out: &mut Filled<N>, steps: usize)
    ensures { out.new ≡ pushed N out.old (count_line steps) }
{
    out.push(b"steps\t");
    out.push_number(steps);
    out.push(b"\n");
}

// The line of a step.
pub fn push_step<const N: usize>(out: &mut Filled<N>, step: Step, source: &[Word], target: &[Word])
    ensures held { out.new ≡ pushed N out.old (step_line step source.now target.now) }
    ensures short { length (step_line step source.now target.now) ≤ 128 }
{
    match step {
        Step::Remove { place, number } => {
            out.push(b"remove\t");
            out.push_number(place);
            out.push(b"\t");
            out.push_number(number);
            push_event(out, source, number);
        }
        Step::Swap { place } => {
            out.push(b"swap\t");
            out.push_number(place);
            out.push(b"\n");
        }
        Step::Insert { place } => {
            out.push(b"insert\t");
            out.push_number(place);
            push_event(out, target, place);
        }
        Step::Done | Step::Stuck => {}
    }
}

// A line put at a place of the lent bytes, as much of it as fits; what comes back is the place behind it.
fn put(out: &mut [u8], at: usize, line: &[u8]) -> usize
    ensures { Puts out.old at line.now out.new result }
{
    if out.len() < at {
        return at;
    }
    let size = line.len().min(out.len() - at);
    out[at..at + size].copy_from_slice(&line[..size]);
    at + size
}

// The line of how many steps there are, at a place of the lent bytes.
pub fn put_count(out: &mut [u8], at: usize, steps: usize) -> usize
    ensures { Puts out.old at (count_line steps) out.new result }
{
    let mut line: Filled<LINE> = Filled::new();
    push_count(&mut line, steps);
    put(out, at, line.as_slice())
}

// The line of a step, there.
pub fn put_step(out: &mut [u8], at: usize, step: Step, source: &[Word], target: &[Word]) -> usize
    ensures { Puts out.old at (step_line step source.now target.now) out.new result }
{
    let mut line: Filled<LONGEST> = Filled::new();
    push_step(&mut line, step, source, target);
    put(out, at, line.as_slice())
}

// The front of a room that holds so many events.
fn events_of(room: &[Word], events: usize) -> &[Word]
    ensures { result.now ≡ take (events * 6) room.now }
{
    if room.len() / WORDS < events {
        return room;
    }
    &room[..events * WORDS]
}

// The part of the source's room that holds its events, of the target's room that does, and of the room of entries that holds them.
pub fn source_of(started: Started, room: &[Word]) -> &[Word]
    ensures { result.now ≡ take (started.checked.source.events * 6) room.now }
{
    events_of(room, started.checked.source.events)
}

pub fn target_of(started: Started, room: &[Word]) -> &[Word]
    ensures { result.now ≡ take (started.checked.target.events * 6) room.now }
{
    events_of(room, started.checked.target.events)
}

pub fn entries_of(started: Started, room: &[Entry]) -> &[Entry]
    ensures { result.now ≡ take started.checked.entries room.now }
{
    front(room, started.checked.entries)
}

// A run in rooms that hold the most: how it began, what the check stored, which events stand, how far it is and where the last swap was. The rooms would be
// Vecs, but the programs have no heap.
#[derive(Clone, Copy)]
pub struct Begun {
    pub started: Started,
    pub source: [Word; ROOM],
    pub target: [Word; ROOM],
    pub entries: [Entry; EVENT_LIMIT],
    pub tags: [usize; EVENT_LIMIT],
    pub run: Run,
    pub swapped: usize,
}

impl Begun {
    pub fn new(listed: &Listed, texts: Texts<'_>) -> Self
        ensures starts { StartsIn listed.now (lent_zeros texts.entry) (replicate 800 0) result.started
            result.source result.target result.entries result.tags }
        ensures run { result.run ≡ result.started.run }
        ensures swapped { result.swapped ≡ 0 }
    {
        let mut source: [Word; ROOM] = [0; ROOM];
        let mut target: [Word; ROOM] = [0; ROOM];
        let mut entries: [Entry; EVENT_LIMIT] = [0; EVENT_LIMIT];
        let mut tags: [usize; EVENT_LIMIT] = [0; EVENT_LIMIT];
        let started = start_in(
            listed,
            texts.source,
            texts.target,
            texts.matching,
            &mut source,
            &mut target,
            &mut entries,
            &mut tags,
        );
        Begun {
            started,
            source,
            target,
            entries,
            tags,
            run: started.run,
            swapped: 0,
        }
    }

    // The answer of the check.
    pub fn answer(&self) -> Answer
        ensures { result ≡ self.now.started.checked.answer }
    {
        self.started.checked.answer
    }

    // How many steps there are to its end.
    pub fn cost(&self) -> usize
        ensures { result ≡ self.now.started.cost }
    {
        self.started.cost
    }

    // The source's events.
    pub fn source(&self) -> &[Word]
        ensures { result.now ≡ source_of self.now }
    {
        events_of(&self.source, self.started.checked.source.events)
    }

    // The target's events.
    pub fn target(&self) -> &[Word]
        ensures { result.now ≡ target_of self.now }
    {
        events_of(&self.target, self.started.checked.target.events)
    }

    // The matching's entries.
    pub fn entries(&self) -> &[Entry]
        ensures { result.now ≡ take self.now.started.checked.entries self.now.entries }
    {
        front(&self.entries, self.started.checked.entries)
    }

    // The step that comes next.
    fn next(&self, listed: &Listed) -> Step
        ensures { result ≡ next_step listed.now self.now }
    {
        next_listed(
            listed,
            self.run,
            &self.tags,
            self.source(),
            self.target(),
            self.entries(),
            self.swapped,
        )
    }

    // Whether no step is left.
    pub fn is_over(&self, listed: &Listed) -> bool
        ensures { IsTrue result ↔ (next_step listed.now self.now ≡ Step.Done) }
    {
        matches!(self.next(listed), Step::Done)
    }

    // The next step, once it is applied; none that is refused.
    pub fn step(&mut self, listed: &Listed) -> Option<Step>
        ensures allowed { is_some result ≡ is_allowed listed.now self.old }
        ensures asked { IfSome result (λ s. s ≡ next_step listed.now self.old) }
        ensures swapped { IfSome result (λ s. self.new.swapped ≡ swap_place s) }
        ensures tags { self.new.tags ≡ tags_next listed.now self.old }
        ensures run { self.new.run ≡ run_next listed.now self.old }
        ensures kept { Keeps self.old self.new }
        ensures none { IfNone result ((self.new.run ≡ self.old.run) × (self.new.swapped ≡ self.old.swapped)) }
    {
        let step = self.next(listed);
        let applied = apply_listed(
            listed,
            self.run,
            &mut self.tags,
            events_of(&self.source, self.started.checked.source.events),
            events_of(&self.target, self.started.checked.target.events),
            step,
        );
        if !applied.allowed {
            return None;
        }
        // Field by field, since the bytes between them are copied too where a Run is.
        self.run.begun = applied.run.begun;
        self.run.standing = applied.run.standing;
        self.swapped = swap_place(step);
        Some(step)
    }
}

// How many steps there are, and every step, as it is applied: none of so many is refused.
fn print_steps(rt: &impl Print, listed: &Listed, begun: &mut Begun) {
    let mut out: Filled<BLOCK> = Filled::new();
    push_count(&mut out, begun.cost());
    for _ in 0..begun.cost() {
        let Some(step) = begun.step(listed) else {
            break;
        };
        if out.free() < LINE {
            print(rt, out.as_slice());
            out.clear();
        }
        push_step(&mut out, step, begun.source(), begun.target());
    }
    print(rt, out.as_slice());
}

// What `laprunto` prints of three texts, and the steps of an accepted matching.
pub fn print_run(rt: &impl Print, listed: &Listed, texts: Texts<'_>) {
    let mut begun = Begun::new(listed, texts);
    let answer = begun.answer();
    print_found(rt, texts, answer);
    if answer.number == 0 {
        print_steps(rt, listed, &mut begun);
    }
}
