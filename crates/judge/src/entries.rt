// Answer 9: the target numbers that the entries name.
ghost use Rattle.std.specs.Prelude.{◌≡◌, [], ◌≤◌};
ghost use Rattle.rules.specs.Verdict.{entry_answer};
ghost use Rattle.judge.specs.Pass.{Names};
ghost use Rattle.event.specs.Limit.{event_limit};

use crate::marks::Marks;
use event::{Answer, Entry, number_index};
use sight::is_gone;

// The marks of the numbers that the entries name, or the answer that refuses one of them.
pub(crate) fn entry_answer(entries: &[Entry], targets: usize) -> Result<Marks, Answer>
    requires targets_le_event_limit { targets ≤ event_limit }
    ensures { Names (entry_answer targets 1 [] entries.now) entries.now result }
{
    let mut marks = Marks::none();
    for (i, &entry) in entries.iter().enumerate() {
        if is_gone(entry) {
            continue;
        }
        let at = number_index(entry);
        if targets < at || marks.has(at) {
            return Err(Answer::new(9, 3, i + 1));
        }
        marks.add(at);
    }
    Ok(marks)
}
