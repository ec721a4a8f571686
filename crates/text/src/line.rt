// The lines of a text.
ghost use Rattle.std.specs.Prelude.{◌≡◌, ◌+◌};
ghost use Rattle.text.specs.Line.{line_len, line_at};

use super::scan::find;

// The byte that ends a line.
pub const LF: u8 = 10;

// Where the line that starts at a place ends, which is at its LF; none where no LF is left.
#[tactic(auto, unfolding(crate::specs::Line::line_at))]
pub fn next_line(text: &[u8], at: usize) -> Option<usize>
    ensures { result ≡ line_at text.now at }
{
    let to = find(text, at, LF);
    if text.len() <= to {
        return None;
    }
    Some(to)
}

// Where line 2 starts; beyond the end of a text that has no LF.
pub fn line_two(text: &[u8]) -> usize
    ensures { result ≡ line_len text.now + 1 }
{
    find(text, 0, LF) + 1
}
