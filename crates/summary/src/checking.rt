// Every refusal of reading a summary: its numbers in order, what is asked for, and the room.
ghost use Rattle.std.specs.Prelude.{◌≡◌, not, length, eqb};
ghost use Rattle.format.specs.Refusals.{Fine, refuse, ◌then◌, in_order};
ghost use Rattle.format.specs.Peaks.{from_pair, check_two, check_pair, check_summary, check_peak, check_all_peaks};
ghost use Rattle.format.specs.declared.refusals.Refusal.TheVariants.{BytesBehind};

use crate::numbers::{behind_two, channels_of, check_two, groups_of, pair_count, peak_at};
use format::{Refusal, RefusedAt, Samples, refuse};

// A pair: its two numbers, then 64: the smallest is above the largest.
#[tactic(auto, using(crate::proofs::Pairs::pair_steps), unfolding(format::specs::Peaks::check_pair))]
fn check_pair(s: &[u8]) -> Result<(), RefusedAt>
    ensures { result ≡ check_pair s.now }
{
    check_two(s)?;
    let p = peak_at(s);
    refuse(p.largest < p.smallest, Refusal::PeaksCrossed)
}

// So many pairs in order, then 63: bytes are left over.
#[tactic(auto, using(crate::proofs::Pairs::walks))]
fn check_pairs(s: &[u8], count: u64) -> Result<(), RefusedAt>
    requires { check_two s.now ≡ Fine }
    ensures { let s = s.entry.now in
        result ≡ (in_order (λ k. check_pair (from_pair s k)) count
        then refuse (not (eqb (length (from_pair s count)) 0)) BytesBehind) }
{
    let mut pairs = behind_two(s);
    for _ in 0..count {
        check_pair(pairs)?;
        pairs = behind_two(pairs);
    }
    refuse(!pairs.is_empty(), Refusal::BytesBehind)
}

// All of a summary: frames, channels, 10 without a channel, the pairs.
#[tactic(auto, using(laws::proofs::Chain::steps), unfolding(format::specs::Peaks::check_summary))]
pub fn check_summary(s: &[u8]) -> Result<(), RefusedAt>
    ensures { result ≡ check_summary s.now }
{
    check_two(s)?;
    refuse(channels_of(s) == 0, Refusal::ZeroChannels)?;
    check_pairs(s, pair_count(s))
}

// The same, then 67: the group or the channel is past the last; then 50: there is no room for a pair.
#[tactic(auto, using(crate::proofs::Pairs::asked), unfolding(format::specs::Peaks::check_peak))]
pub fn check_peak(s: &[u8], group: u32, channel: u32, room: Samples) -> Result<(), RefusedAt>
    ensures { result ≡ check_peak s.now group channel room.0 }
{
    check_summary(s)?;
    refuse(groups_of(s) <= group, Refusal::PairPastEnd)?;
    refuse(channels_of(s) <= channel, Refusal::PairPastEnd)?;
    refuse(room.0 < 2, Refusal::OutputTooShort)
}

// All of a summary, then 50: there is no room for every pair.
#[tactic(auto, using(crate::proofs::Pairs::asked), unfolding(format::specs::Peaks::check_all_peaks))]
pub fn check_all_peaks(s: &[u8], room: Samples) -> Result<(), RefusedAt>
    ensures { result ≡ check_all_peaks s.now room.0 }
{
    check_summary(s)?;
    refuse(room.0 < 2 * pair_count(s), Refusal::OutputTooShort)
}
