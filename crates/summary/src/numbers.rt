// A summary's numbers, by twos: its frames and channels, and each pair.
ghost use Rattle.std.specs.Prelude.{◌≡◌};
ghost use Rattle.format.specs.Refusals.{Fine};
ghost use Rattle.format.specs.Header.{groups_of};
ghost use Rattle.format.specs.SevenBits.{seven_value, past, check_seven};
ghost use Rattle.format.specs.Peaks.{summary_frames, summary_channels, pair_count, pair_of, check_two};

use format::{Frames, Peak, RefusedAt};
use seven_bits::{check_number, length_at, number_at, unfold};

// What lies behind the number with which it begins.
#[tactic(auto, using(crate::proofs::Twos::twos))]
fn behind_one(s: &[u8]) -> &[u8]
    requires { check_seven s.now ≡ Fine }
    ensures { result.now ≡ past s.now 1 }
{
    &s[length_at(s)..]
}

// The checks of two numbers, one after the other.
#[tactic(auto, using(laws::proofs::Chain::steps), unfolding(format::specs::Peaks::check_two))]
pub fn check_two(s: &[u8]) -> Result<(), RefusedAt>
    ensures { result ≡ check_two s.now }
{
    check_number(s)?;
    check_number(behind_one(s))
}

// What lies behind both.
#[tactic(auto, using(crate::proofs::Twos::twos))]
pub fn behind_two(s: &[u8]) -> &[u8]
    requires { check_two s.now ≡ Fine }
    ensures { result.now ≡ past s.now 2 }
{
    behind_one(behind_one(s))
}

// The second of them.
#[tactic(auto, using(crate::proofs::Twos::twos))]
pub fn second_at(s: &[u8]) -> u32
    requires { check_two s.now ≡ Fine }
    ensures { result ≡ seven_value (past s.now 1) }
{
    number_at(behind_one(s))
}

// Both, signed.
#[tactic(auto, using(crate::proofs::Twos::twos), unfolding(format::specs::Peaks::pair_of))]
pub fn peak_at(s: &[u8]) -> Peak
    requires { check_two s.now ≡ Fine }
    ensures { result ≡ pair_of s.now }
{
    Peak {
        smallest: unfold(number_at(s)),
        largest: unfold(second_at(s)),
    }
}

// How many channels the summary has.
pub fn channels_of(s: &[u8]) -> u32
    requires { check_two s.now ≡ Fine }
    ensures { result ≡ summary_channels s.now }
{
    second_at(s)
}

// How many groups it has.
#[tactic(auto, using(crate::proofs::Twos::twos))]
pub fn groups_of(s: &[u8]) -> u32
    requires { check_two s.now ≡ Fine }
    ensures { result ≡ groups_of (summary_frames s.now) }
{
    Frames(number_at(s)).groups()
}

// How many pairs it has.
#[tactic(auto, unfolding(format::specs::Peaks::pair_count))]
pub fn pair_count(s: &[u8]) -> u64
    requires { check_two s.now ≡ Fine }
    ensures { result ≡ pair_count s.now }
{
    groups_of(s) as u64 * channels_of(s) as u64
}
