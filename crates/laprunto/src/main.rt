// The program: three file names, source, target and matching, and the options `--list` with a fourth and `--group`. It prints the answer and, if there is one, the offending line.
#![tactic(auto)]

use files::program::{Wanted, judge_named};

fn main(rt: HostRuntime) {
    judge_named(
        &rt,
        &rt.stderr(),
        Wanted::Answer,
        b"usage: laprunto SOURCE TARGET MATCHING [--list FILE] [--group N] (N is 1 or 2)\n",
    );
}
