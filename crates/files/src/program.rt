// What the programs `laprunto` and `laprunto_run` do: three files read under the list of the call, and what is wanted of them printed.
ghost use Rattle.std.specs.Prelude.{IfOk};
ghost use Rattle.files.specs.Shown.{Shows};

use crate::args::{name_at, options_of};
use crate::check::{Texts, print_check};
use crate::filled::Filled;
use crate::list::list_given;
use crate::print::print_answer_line;
use crate::read::{Text, read_text};
use crate::run::print_run;
use event::Answer;
use memory::listed::Listed;
use std::rt::{Env, Files};

// The texts of the files of the names of a source, a target and a matching, shown under a list. A call, as `list_of` is.
#[inline(never)]
fn show_listed<F: FnOnce(&Listed, Texts<'_>)>(
    rt: &impl Files,
    listed: &Listed,
    names: [&[u8]; 3],
    show: F,
)
    requires { F.IsAlwaysCallable show }
    ensures { Shows F.FnOnce show listed.now }
{
    let mut source: Text = Filled::new();
    let mut target: Text = Filled::new();
    let mut matching: Text = Filled::new();
    read_text(rt, names[0], &mut source);
    read_text(rt, names[1], &mut target);
    read_text(rt, names[2], &mut matching);
    let texts = Texts {
        source: source.as_slice(),
        target: target.as_slice(),
        matching: matching.as_slice(),
    };
    show(listed, texts);
}

// The same, where the list is read. A refused list has its answer, and no file is read.
pub fn show_files<F: FnOnce(&Listed, Texts<'_>)>(
    rt: &(impl Files + Print),
    list: Result<Listed, Answer>,
    names: [&[u8]; 3],
    show: F,
)
    requires { F.IsAlwaysCallable show }
    ensures { IfOk list (λ marks. Shows F.FnOnce show marks) }
{
    match list {
        Ok(listed) => show_listed(rt, &listed, names, show),
        Err(refusal) => print_answer_line(rt, "accepted", refusal),
    }
}

// The files that the words of the call name. A name that is missing is a file that can't be opened; a word too many is no check.
pub fn show_named<F: FnOnce(&Listed, Texts<'_>)>(
    rt: &(impl Env + Files + Print),
    err: &impl Print,
    usage: &[u8],
    show: F,
)
    requires { F.IsAlwaysCallable show }
{
    let Some(options) = options_of(rt, err, usage) else {
        return;
    };
    let source = name_at(rt, 1);
    let target = name_at(rt, 2);
    let matching = name_at(rt, 3);
    show_files(
        rt,
        list_given(rt, options),
        [source.as_slice(), target.as_slice(), matching.as_slice()],
        show,
    );
}

// What is wanted of three files: the answer, or the run of an accepted matching too.
#[derive(Clone, Copy)]
pub enum Wanted {
    Answer,
    Run,
}

// What is wanted of the files of the names of a source, a target and a matching, and of those that the words of the call name. Neither asks anything of its
// callers.
pub fn judge_files(
    rt: &(impl Files + Print),
    wanted: Wanted,
    list: Result<Listed, Answer>,
    names: [&[u8]; 3],
) {
    match wanted {
        Wanted::Answer => show_files(rt, list, names, |listed, texts| {
            print_check(rt, listed, texts);
        }),
        Wanted::Run => show_files(rt, list, names, |listed, texts| {
            print_run(rt, listed, texts);
        }),
    }
}

pub fn judge_named(
    rt: &(impl Env + Files + Print),
    err: &impl Print,
    wanted: Wanted,
    usage: &[u8],
) {
    match wanted {
        Wanted::Answer => show_named(rt, err, usage, |listed, texts| {
            print_check(rt, listed, texts);
        }),
        Wanted::Run => show_named(rt, err, usage, |listed, texts| {
            print_run(rt, listed, texts);
        }),
    }
}
