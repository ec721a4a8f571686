// What the reading of every text begins with: its size, and line 1.
#![tactic(auto)]

ghost use Rattle.std.specs.Prelude.{◌≡◌};
ghost use Rattle.event.specs.Told.{Passes};
ghost use Rattle.frame.specs.Reading.{headed, head_fault};
ghost use Rattle.text.specs.Line.{split};

use event::{Answer, Number};
use text::line::next_line;
use text::word::same_bytes;

// Whether line 1 is the header, and has a LF.
pub fn is_headed(text: &[u8], header: &[u8]) -> bool
    ensures { result ≡ headed header.now (split text.now) }
{
    match next_line(text, 0) {
        Some(to) => same_bytes(&text[..to], header),
        None => false,
    }
}

// 1, and 2 at line 1.
#[tactic(auto, unfolding(crate::specs::Reading::head_fault))]
pub fn head_fault(text: &[u8], side: Number, limit: usize, header: &[u8]) -> Result<(), Answer>
    ensures { Passes (head_fault side limit header.now text.now) result }
{
    if limit < text.len() {
        return Err(Answer::new(1, side, 0));
    }
    if !is_headed(text, header) {
        return Err(Answer::new(2, side, 1));
    }
    Ok(())
}
