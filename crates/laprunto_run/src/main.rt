// The program: three file names, source, target and matching, and the options `--list` with a fourth and `--group`. It prints what `laprunto` prints and, of an accepted
// matching, the number of its steps and a line for each.
#![tactic(auto)]

use files::program::{Wanted, judge_named};

fn main(rt: HostRuntime) {
    judge_named(
        &rt,
        &rt.stderr(),
        Wanted::Run,
        b"usage: laprunto_run SOURCE TARGET MATCHING [--list FILE] [--group N] (N is 1 or 2)\n",
    );
}
