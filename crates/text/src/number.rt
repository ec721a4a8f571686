// Decimal numbers: digits alone, no leading zero, at most a limit.
ghost use Rattle.std.specs.Prelude.{◌≡◌};
ghost use Rattle.text.specs.Number.{digits_on, number_of};

// The bytes of the first and the last digit, and how many digits there are.
pub const ZERO: u8 = 48;

pub const NINE: u8 = 57;

pub const BASE: u64 = 10;

// Digits alone, at most `max`: it stops at the first digit that goes past it, so nothing overflows.
#[tactic(auto, using(crate::proofs::Numbers::on_low, crate::proofs::Numbers::on_high, crate::proofs::Numbers::on_big, crate::proofs::Numbers::on_go, crate::proofs::Numbers::on_end_lem))]
fn digits_of(s: &[u8], max: u64) -> Option<u64>
    ensures { result ≡ digits_on max 0 s.now }
{
    let mut n: u64 = 0;
    for b in s {
        if *b < ZERO || NINE < *b {
            return None;
        }
        let d = u64::from(*b - ZERO);
        if max < d || (max - d) / BASE < n {
            return None;
        }
        n = n * BASE + d;
    }
    Some(n)
}

// The number that a word is, if it is one and at most `max`.
#[tactic(auto, unfolding(crate::specs::Number::number_of))]
pub fn number_of(s: &[u8], max: u64) -> Option<u64>
    ensures { result ≡ number_of max s.now }
{
    if s.len() == 0 {
        return None;
    }
    if 1 < s.len() && s[0] == ZERO {
        return None;
    }
    digits_of(s, max)
}
