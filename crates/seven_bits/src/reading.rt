// The number with which lent bytes begin.
ghost use Rattle.std.specs.Prelude.{◌≡◌, ◌≤◌, ◌<◌};
ghost use Rattle.format.specs.Refusals.{Fine};
ghost use Rattle.format.specs.SevenBits.{marked, seven_length, seven_value, check_seven};

use format::{Refusal, RefusedAt, refuse};

// How many bytes with the high bit set stand in front, of four at most.
#[tactic(auto, using(crate::proofs::Turns::marks))]
fn marked(s: &[u8]) -> usize
    ensures { (result ≡ marked 4 s.now) × (result ≤ 4) }
{
    for k in 0..4 {
        if s.len() <= k || s[k] < 128 {
            return k;
        }
    }
    4
}

// How many bytes the number takes.
#[tactic(auto, unfolding(format::specs::SevenBits::seven_length))]
pub fn length_at(s: &[u8]) -> usize
    ensures { (result ≡ seven_length s.now) × (result ≤ 5) }
{
    marked(s) + 1
}

// 60: it is cut short; 62: it is over 32 bits; 61: its last byte is zero, after others.
#[tactic(auto, using(laws::proofs::Chain::stages), unfolding(format::specs::SevenBits::check_seven))]
pub fn check_number(s: &[u8]) -> Result<(), RefusedAt>
    ensures { result ≡ check_seven s.now }
{
    let n = length_at(s);
    refuse(s.len() < n, Refusal::NumberCut)?;
    refuse(n == 5 && 15 < s[4], Refusal::NumberTooLarge)?;
    refuse(1 < n && s[n - 1] == 0, Refusal::NumberLong)
}

// The number, whose checks have passed.
#[tactic(auto, using(crate::proofs::Turns::values))]
pub fn number_at(s: &[u8]) -> u32
    requires { check_seven s.now ≡ Fine }
    ensures { result ≡ seven_value s.now }
{
    let mut value: u32 = 0;
    for k in (0..length_at(s)).rev() {
        value = 128 * value + (s[k] % 128) as u32;
    }
    value
}
