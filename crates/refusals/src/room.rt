// A room that is to be written: answers 3, 18, 5, 6 and 19, in this order.
ghost use Rattle.std.specs.Prelude.{◌≡◌, [], ◌≤◌};
ghost use Rattle.event.specs.Room.{onward};
ghost use Rattle.event.specs.Told.{Passes};
ghost use Rattle.trace.specs.Fault.{event_fault_in};
ghost use Rattle.trace.specs.Writing.{count_of, layout_fault, lost, room_fault_in, write_fault_in};
ghost use Rattle.event.specs.Limit.{event_limit};

use crate::loss::loss_at;
use event::room::get;
use event::{Answer, EVENT_LIMIT, PLACES, WORDS, Word};
use kinds::is_lawful;
use memory::listed::Listed;
use memory::{Memory, Stepped};
use record::form::Form;
use trace::fault::{fault_at, is_right};
use uses::{UNTOUCHED, Ways, use_listed};

// How many events a part of a room has: one that is cut short at its end counts.
pub fn count_of(room: &[Word]) -> usize
    ensures { result ≡ count_of room.now }
{
    room.len().div_ceil(WORDS)
}

// 18: the first event that is outside the layout.
#[tactic(auto, using(trace::proofs::Judged::sought))]
fn layout_fault(room: &[Word], n: usize) -> Result<(), Answer>
    requires { n ≤ event_limit }
    ensures { Passes (layout_fault 1 (onward room.now 0 n)) result }
{
    for i in 0..n {
        if !is_lawful(get(room, i)) {
            return Err(Answer::new(18, 0, i + 1));
        }
    }
    Ok(())
}

// 19: the first event whose code line a form would lose.
#[tactic(auto, using(event::proofs::Told::cond_err, event::proofs::Told::cond_ok, trace::proofs::Judged::sought))]
fn loss_of(form: Form, room: &[Word], n: usize) -> Result<(), Answer>
    requires { n ≤ event_limit }
    ensures { Passes (lost form 0 1 (onward room.now 0 n)) result }
{
    for i in 0..n {
        loss_at(form, get(room, i), 0, i + 1)?;
    }
    Ok(())
}

// 5 and 6, event by event.
fn event_fault(listed: &Listed, start: Memory, room: &[Word], n: usize) -> Result<(), Answer>
    requires n_le_event_limit { n ≤ event_limit }
    requires n_value { (layout_fault 1 (onward room.now 0 n)).number ≡ 0 }
    ensures { Passes (event_fault_in listed.now 0 1 start [] (onward room.now 0 n)) result }
{
    let mut last = Stepped {
        memory: start,
        right: true,
    };
    let mut ways: Ways = [UNTOUCHED; PLACES];
    for i in 0..n {
        let e = get(room, i);
        let clash = use_listed(listed, &mut ways, e);
        last = last.memory.step(e);
        fault_at(Ok(()), clash, is_right(listed, e, last.right), 0, i + 1)?;
    }
    Ok(())
}

// Answers 3, 18, 5 and 6, in this order.
fn room_fault(listed: &Listed, memory: Memory, room: &[Word]) -> Result<(), Answer>
    ensures { Passes (room_fault_in listed.now memory room.now) result }
{
    let n = count_of(room);
    if EVENT_LIMIT < n {
        return Err(Answer::new(3, 0, EVENT_LIMIT + 1));
    }
    layout_fault(room, n)?;
    event_fault(listed, memory, room, n)
}

// And 19.
pub fn write_fault(listed: &Listed, form: Form, memory: Memory, room: &[Word]) -> Result<(), Answer>
    ensures { Passes (write_fault_in listed.now form memory room.now) result }
{
    room_fault(listed, memory, room)?;
    loss_of(form, room, count_of(room))
}
