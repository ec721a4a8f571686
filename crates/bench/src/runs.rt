// One run followed: the texts checked, the steps counted, every step asked for and applied in turn, and each line compared with the vector's.
use super::tell::{Ran, is_right};
use super::vector::CheckVector;
use event::Answer;
use files::check::Texts;
use files::filled::Filled;
use files::run::{Begun, LINE, push_count, push_step};
use memory::listed::Listed;

// What a vector gives: `counted` says that the text begins with the number of the steps, or that there are none where it is refused; how many steps were
// applied whose lines stand in the text in turn is right where these are all, of the text and of the run.
#[derive(Clone, Copy)]
struct Outcome {
    answer: Answer,
    counted: bool,
    followed: Result<usize, usize>,
}

// What is left of the text after the next step, once it is applied; none if it is refused, or its line does not come next.
fn after_step<'a>(listed: &Listed, begun: &mut Begun, lines: &'a [u8]) -> Option<&'a [u8]> {
    let step = begun.step(listed)?;
    let mut line: Filled<LINE> = Filled::new();
    push_step(&mut line, step, begun.source(), begun.target());
    lines.strip_prefix(line.as_slice())
}

// The steps, as long as each is allowed and its line comes next in the text; after the last line there is none.
fn follow(listed: &Listed, begun: &mut Begun, lines: &[u8]) -> Result<usize, usize> {
    let mut rest = lines;
    let mut steps: usize = 0;
    // Not a `for`: the steps end with the lines, and how long a line is only its step says.
    while !rest.is_empty() {
        let Some(left) = after_step(listed, begun, rest) else {
            return Err(steps);
        };
        if rest.len() <= left.len() {
            return Err(steps);
        }
        steps = steps.saturating_add(1);
        rest = left;
    }
    if begun.is_over(listed) {
        return Ok(steps);
    }
    Err(steps)
}

// A vector's texts checked under a list, and the run followed.
fn outcome_in(listed: &Listed, texts: Texts<'_>, lines: &[u8]) -> Outcome {
    let mut begun = Begun::new(listed, texts);
    let answer = begun.answer();
    let cost = begun.cost();
    let mut count: Filled<LINE> = Filled::new();
    push_count(&mut count, cost);
    let behind = lines.strip_prefix(count.as_slice());
    Outcome {
        answer,
        counted: if answer.number == 0 {
            behind.is_some()
        } else {
            cost == 0
        },
        followed: follow(listed, &mut begun, behind.unwrap_or(lines)),
    }
}

// The same under the list of a call. A refused list has no run, and so no line.
fn outcome_of(list: Result<Listed, Answer>, texts: Texts<'_>, lines: &[u8]) -> Outcome {
    match list {
        Ok(listed) => outcome_in(&listed, texts, lines),
        Err(answer) => Outcome {
            answer,
            counted: true,
            followed: if lines.is_empty() { Ok(0) } else { Err(0) },
        },
    }
}

// A run, with a list or without.
pub(crate) fn run_steps(rt: &impl Print, ordinal: usize, vector: CheckVector<'_>) -> Ran {
    let header = vector.header;
    let outcome = outcome_of(vector.call.listed(), vector.texts, vector.given);
    let answer = outcome.answer;
    let right = is_right(
        rt,
        ordinal,
        header,
        answer,
        header.is_said(answer),
        &[
            (outcome.counted, b"another number of steps\n"),
            (outcome.followed.is_ok(), b"another run\n"),
        ],
    );
    let (Ok(back) | Err(back)) = outcome.followed;
    Ran {
        answer,
        right,
        back,
    }
}
