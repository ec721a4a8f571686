// The line at fault: which part of which text an answer names.
ghost use Rattle.std.specs.Prelude.{◌≡◌, ◌&&◌, cond, ◌≤◌, ◌-◌, eqb};
ghost use Rattle.laws.specs.Has.{has};
ghost use Rattle.checker.specs.Line.{
  is_event,
  counted,
  nth_line,
  standing,
  line_faults,
  event_faults,
  line_of,
  fault_side,
  fault_text,
  offending_line,
  offending_span,
  Spans,
  Begins,
};
ghost use Rattle.text.specs.Line.{split};
ghost use Rattle.trace.specs.Reading.{form_of};

use event::{Answer, Number, Word};
use kinds::is_in;
use record::form::Form;
use record::{Record, record_of};
use text::line::next_line;
use trace::form::form_of;

// A part of a text, from one place to another.
#[derive(Clone, Copy)]
pub struct Span {
    pub from: usize,
    pub to: usize,
}

// The part where there is none to name: an empty one.
const NOWHERE: Span = Span { from: 0, to: 0 };

// Whether a line is an event.
fn is_event(line: Option<Record>) -> bool
    ensures { result ≡ is_event line }
{
    matches!(line, Some(Record::AnEvent(_)))
}

// Whether a line of a text of a form is counted: every line, or only those that are events.
#[tactic(auto, unfolding(crate::specs::Line::counted))]
fn is_counted(form: Form, only: bool, line: &[u8]) -> bool
    ensures { result ≡ counted form only line.now }
{
    !only || is_event(record_of(form, line))
}

// Whether a line that is counted or not is the one that is sought, of which `left` are left to count.
fn ends_here(hit: bool, left: usize) -> bool
    ensures { result ≡ (hit && eqb left 1) }
{
    hit && left == 1
}

// How many are left to count after a line.
fn left_after(hit: bool, left: usize) -> usize
    requires { 1 ≤ left }
    ensures { result ≡ cond hit (left - 1) left }
{
    if hit { left - 1 } else { left }
}

// The k-th line that is counted, from 1; an empty part if there are not so many. What stands after the last LF counts too: where it is not empty, 2 names it.
#[tactic(auto, using(text::proofs::Walk::line_in))]
fn span_of(text: &[u8], only: bool, k: usize) -> Span
    ensures spans { Spans text.now (nth_line (form_of text.now) only k (standing 0 (split text.now))).line result }
    ensures value { result ≡ (nth_line (form_of text.now) only k (standing 0 (split text.now))).place }
{
    if k == 0 {
        return NOWHERE;
    }
    let form = form_of(text);
    let mut at: usize = 0;
    let mut left = k;
    while let Some(to) = next_line(text, at) {
        let hit = is_counted(form, only, &text[at..to]);
        if ends_here(hit, left) {
            return Span { from: at, to };
        }
        left = left_after(hit, left);
        at = to + 1;
    }
    let rest = is_counted(form, only, &text[at..]);
    if ends_here(rest, left) {
        return Span {
            from: at,
            to: text.len(),
        };
    }
    NOWHERE
}

// Whether the place of an answer of this number is a line.
fn is_at_a_line(number: Number) -> bool
    ensures { result ≡ has number line_faults }
{
    is_in(number as Word, &[2, 3, 4])
}

// Whether it is an event.
fn is_at_an_event(number: Number) -> bool
    ensures { result ≡ has number event_faults }
{
    is_in(number as Word, &[5, 6, 10, 11, 12, 13, 14, 15, 16])
}

// The part of a text that an answer's number and place name.
#[tactic(auto, unfolding(crate::specs::Line::line_of))]
fn fault_span(text: &[u8], number: Number, place: usize) -> Span
    ensures spans { Spans text.now (line_of number place text.now).line result }
    ensures value { result ≡ (line_of number place text.now).place }
{
    if is_at_a_line(number) {
        return span_of(text, false, place);
    }
    if is_at_an_event(number) {
        return span_of(text, true, place);
    }
    NOWHERE
}

// The side whose text has the line at fault: none where the number has no line.
#[tactic(auto, unfolding(crate::specs::Line::fault_side))]
fn fault_side(answer: Answer) -> Number
    ensures { result ≡ fault_side answer }
{
    if is_at_a_line(answer.number) || is_at_an_event(answer.number) {
        return answer.side;
    }
    0
}

// Where the offending line of a check stands, without its LF, in the text of its side; else an empty part of the source.
#[tactic(auto, unfolding(crate::specs::Line::offending))]
pub fn offending_span(source: &[u8], target: &[u8], answer: Answer) -> Span
    ensures spans { Spans (fault_text source.now target.now answer)
        (offending_line source.now target.now answer) result }
    ensures value { result ≡ offending_span source.now target.now answer }
{
    match fault_side(answer) {
        1 => fault_span(source, answer.number, answer.place),
        2 => fault_span(target, answer.number, answer.place),
        _ => NOWHERE,
    }
}

// The offending line of a check, without its LF, as that part of the source or target text; else an empty part of the source.
pub fn offending_line<'a>(source: &'a [u8], target: &'a [u8], answer: Answer) -> &'a [u8]
    ensures result_value { result.now ≡ offending_line source.now target.now answer }
    ensures begins { Begins result.ref_ptr (cond (eqb (fault_side answer) 2) target.entry.ref_ptr source.entry.ref_ptr)
        (offending_span source.now target.now answer).from }
{
    let Span { from, to } = offending_span(source, target, answer);
    if fault_side(answer) == 2 {
        return &target[from..to];
    }
    &source[from..to]
}
