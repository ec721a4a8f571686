// A number written to the front of a room that holds the digits of every number; what comes back is how many they are.
ghost use Rattle.std.specs.Prelude.{◌≡◌, ◌+◌, ◌<◌, length};
ghost use Rattle.text.specs.Number.{decimal};
ghost use Rattle.text.specs.Write.{wrote};

use super::number::{BASE, ZERO};

// The most digits of a number.
pub const DIGITS: usize = 20;

// The byte of a digit.
fn digit(d: u64) -> u8
    requires { d < 10 }
    ensures { result ≡ 48 + d }
{
    ZERO + d as u8
}

// A number's digits.
pub fn put_number(out: &mut [u8; DIGITS], n: u64) -> usize
    ensures { (result ≡ length (decimal n)) × (out.new ≡ wrote out.old (decimal n)) }
{
    if n < BASE {
        out[0] = digit(n);
        return 1;
    }
    let next = put_number(out, n / BASE);
    out[next] = digit(n % BASE);
    next + 1
}
