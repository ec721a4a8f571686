// The one search that lines and fields share.
ghost use Rattle.std.specs.Prelude.{◌≡◌, ◌+◌, drop};
ghost use Rattle.text.specs.Cut.{until};

// Where the first byte `stop` at `from` or after it stands, or the end of the text (`from` itself, if it lies beyond the end).
#[tactic(auto, using(crate::proofs::Cuts::until_stop, crate::proofs::Cuts::until_go, crate::proofs::Cuts::until_out))]
fn find_singly(text: &[u8], from: usize, stop: u8) -> usize
    ensures { result ≡ from + until stop (drop from text.now) }
{
    for i in from..text.len() {
        if text[i] == stop {
            return i;
        }
    }
    from.max(text.len())
}

// The same, four bytes a turn as long as there are four: a whole check of typical texts took a quarter longer byte by byte (docs/BENCHMARK.md).
#[tactic(auto, using(crate::proofs::Cuts::until_stop, crate::proofs::Cuts::until_go, crate::proofs::Cuts::until_on))]
pub fn find(text: &[u8], from: usize, stop: u8) -> usize
    ensures { result ≡ from + until stop (drop from text.now) }
{
    if text.len() < from {
        return find_singly(text, from, stop);
    }
    let mut i = from;
    while 4 <= text.len() - i {
        if text[i] == stop {
            return i;
        }
        if text[i + 1] == stop {
            return i + 1;
        }
        if text[i + 2] == stop {
            return i + 2;
        }
        if text[i + 3] == stop {
            return i + 3;
        }
        i += 4;
    }
    find_singly(text, i, stop)
}
