// Lists of registers, read for one group into a mark for each location. Nothing is lent: the marks are handed back, and none are under a refusal.
#![tactic(auto)]

pub mod reg;

ghost use Rattle.std.specs.Prelude.{◌||◌, ◌≡◌, ◌≤◌, leb, ltb};
ghost use Rattle.memory.specs.Listed.{none_listed};
ghost use Rattle.text.specs.Line.{split_from};
ghost use Rattle.event.specs.Told.{Passes};
ghost use Rattle.frame.specs.Reading.{head_fault};
ghost use Rattle.registers.specs.Reg.{header};
ghost use Rattle.registers.specs.Reading.{list_limit, reg_limit, nothing, is_grouped, Reads, list_of};
ghost use Rattle.registers.specs.Lines.{lines_read};

use event::{Answer, PLACES, Word, index_of};
use frame::{head_fault, is_headed};
use memory::listed::Listed;
use reg::reg_of;
use text::line::{line_two, next_line};

// The most bytes.
const LIST_LIMIT: usize = 32400;

// The most registers of a group.
const REG_LIMIT: usize = 32;

// One more than the last group.
const GROUPS: usize = 3;

// How far apart two groups rank: a number for each location.
const RANKS: Word = 256;

// Whether a register after n others of its group is 22: it ranks below the lowest that may come, or is one too many.
fn is_refused(rank: Word, low: Word, n: usize) -> bool
    ensures { result ≡ (ltb rank low || leb reg_limit n) }
{
    rank < low || REG_LIMIT <= n
}

// The lines after line 1: each is tried for 2 and 22, and its location is marked if it is the group's.
#[tactic(auto, using(text::proofs::Walk::line_in, crate::proofs::OneText::reg_in))]
fn read_lines(grouped: bool, text: &[u8], group: Word, from: usize) -> Result<Listed, Answer>
    requires { 2 ≤ from }
    ensures { Reads result (lines_read grouped group 0 nothing none_listed (split_from text.now from)) }
{
    let mut listed: Listed = [false; PLACES];
    let mut counts: [usize; GROUPS] = [0; GROUPS];
    let mut at = from;
    let mut low: Word = 0;
    let mut n: usize = 0;
    while let Some(to) = next_line(text, at) {
        let Some(register) = reg_of(grouped, &text[at..to]) else {
            return Err(Answer::new(2, 4, n + 2));
        };
        let rank = register.group * RANKS + register.location;
        let own = index_of(register.group);
        if is_refused(rank, low, counts[own]) {
            return Err(Answer::new(22, 4, n + 2));
        }
        if register.group == group {
            listed[index_of(register.location)] = true;
        }
        counts[own] += 1;
        low = rank + 1;
        n += 1;
        at = to + 1;
    }
    if at < text.len() {
        return Err(Answer::new(2, 4, n + 2));
    }
    Ok(listed)
}

// Whether line 1 is that of form 2, and has a LF.
#[tactic(auto, unfolding(crate::specs::Reading::is_grouped))]
fn is_grouped(list: &[u8]) -> bool
    ensures { result ≡ is_grouped list.now }
{
    is_headed(list, b"regs\t2")
}

// 1, and 2 at line 1, for a list that is to be grouped or not.
fn head_fault_of(grouped: bool, list: &[u8]) -> Result<(), Answer>
    ensures { Passes (head_fault 4 list_limit (header grouped) list.now) result }
{
    if grouped {
        return head_fault(list, 4, LIST_LIMIT, b"regs\t2");
    }
    head_fault(list, 4, LIST_LIMIT, b"regs\t1")
}

// A list text read for a group: answers 1, 2 and 22 of the whole text, or the locations that it lists for the group.
#[tactic(auto, using(crate::proofs::Turns::head_refused, crate::proofs::Turns::head_passed, crate::proofs::Turns::line_two_in))]
pub fn read(list: &[u8], group: Word) -> Result<Listed, Answer>
    ensures { Reads result (list_of group list.now) }
{
    let grouped = is_grouped(list);
    head_fault_of(grouped, list)?;
    read_lines(grouped, list, group, line_two(list))
}
