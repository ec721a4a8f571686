// The program: a form, 1 or 2, the name of a trace and the name of a file to write, and the options `--list` with the name of a list and `--group`. It moves the trace to the form and prints the answer.
#![tactic(auto)]

use files::args::{is_short, name_at, options_of, print_usage};
use files::list::list_given;
use files::moving::move_file;
use record::form::Form;

// The form that a word names.
fn form_named(word: &[u8]) -> Option<Form> {
    match word {
        b"1" => Some(Form::One),
        b"2" => Some(Form::Two),
        _ => None,
    }
}

// A word too few or too many, or another form, is no move.
fn main(rt: HostRuntime) {
    let err = rt.stderr();
    let usage =
        b"usage: laprunto_move FORM TRACE OUT [--list FILE] [--group N] (FORM and N are 1 or 2)\n";
    let Some(options) = options_of(&rt, &err, usage) else {
        return;
    };
    if is_short(&rt) {
        return;
    }
    let form = name_at(&rt, 1);
    let Some(to) = form_named(form.as_slice()) else {
        print_usage(&err, usage);
        return;
    };
    let name = name_at(&rt, 2);
    let out_name = name_at(&rt, 3);
    move_file(
        &rt,
        &err,
        list_given(&rt, options),
        to,
        name.as_slice(),
        out_name.as_slice(),
    );
}
