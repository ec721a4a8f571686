// The program: the name of a trace and the names of two files to write, and the options `--list` with the name of a list and `--group`. It shortens the trace for the shelf,
// writes the shortened text and the matching from the long one to it, and prints the answer.
#![tactic(auto)]

use files::args::{is_short, name_at, options_of};
use files::list::list_given;
use files::shortening::shorten_file;

// A word too few or too many is no shortening.
fn main(rt: HostRuntime) {
    let err = rt.stderr();
    let options = options_of(
        &rt,
        &err,
        b"usage: laprunto_shorten TRACE OUT MATCHING [--list FILE] [--group N] (N is 1 or 2)\n",
    );
    let Some(options) = options else {
        return;
    };
    if is_short(&rt) {
        return;
    }
    let name = name_at(&rt, 1);
    let out_name = name_at(&rt, 2);
    let matching_name = name_at(&rt, 3);
    shorten_file(
        &rt,
        &err,
        list_given(&rt, options),
        name.as_slice(),
        out_name.as_slice(),
        matching_name.as_slice(),
    );
}
